//! The implementation of the exports of `recovery_ffi`. It has the handles by which a program in another language holds
//! a recovery, the encoding of arguments, settings, and readings. Begin at `handle.rt` and `specs/Answers.antt`.
#![tactic(auto)]

pub mod codes;
pub mod glances;
pub mod handle;
pub mod making;
pub mod marks;
pub mod mtu;
pub mod mtu_handle;
pub mod mtu_slot;
pub mod pacer;
pub mod parts;
pub mod readers;
pub mod sender;
pub mod settings;
pub mod slot;
pub mod stack;
pub mod views;
