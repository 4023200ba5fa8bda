//! Plays a schedule: each line is a step of two endpoints or of the network between them, and gets one answer. Begin at
//! `play.rt`.
#![tactic(auto)]

mod answers;
mod lines;
mod play;

pub use play::play_schedule;
