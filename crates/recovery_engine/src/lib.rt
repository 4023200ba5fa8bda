//! The engine of a stack, with a controller that a setting chooses: a bare recovery, which accepts each event, or one
//! of a sender (RFC 9002), which itself makes some. Replies are encoded in numbers. Begin at `kept.rt` and
//! `specs/Kept.antt`.
#![tactic(auto)]

pub mod controllers;
pub mod kept;
pub mod numbers;
pub mod sending;
pub mod spelling;
pub mod views;
