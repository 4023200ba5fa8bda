//! Tests of the sender.
mod calls;
mod failing;
mod many;
mod memory;
mod run;
