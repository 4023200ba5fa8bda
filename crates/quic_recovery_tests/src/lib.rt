//! Tests of the driver, of the spaces and paths below it, of the lines of scripts, and of the sender, over their public
//! calls.
#![tactic(auto)]

#[cfg(test)]
mod driver;
#[cfg(test)]
mod ledger;
#[cfg(test)]
mod lines;
#[cfg(test)]
mod paths;
#[cfg(test)]
mod sender;
