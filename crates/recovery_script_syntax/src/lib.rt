//! The syntax of a script: which event each line encodes (begin at `lines.rt`), and the line of each reply
//! (`answers.rt`).
#![tactic(auto)]

pub mod answers;
mod blanks;
mod digits;
mod forms;
pub mod laws;
pub mod lines;
pub mod words;
