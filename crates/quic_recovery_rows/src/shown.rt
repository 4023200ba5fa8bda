//! Replies as a failed row shows them.
use crate::events::{Answer, Given, Reply};
use crate::refusals::{number_given, number_wanted};
use std::fmt;
use std::fmt::{Display, Formatter};

/// The kind of a reply, with a number if it has one.
#[derive(Clone, Copy, Debug)]
pub struct Shown {
    name: &'static str,
    number: Option<u64>,
}

impl Display for Shown {
    fn fmt<W: fmt::Write>(&self, f: &mut Formatter<W>) -> fmt::Result {
        f.write_str(self.name)?;
        match self.number {
            Some(number) => write!(f, " {number}"),
            None => Ok(()),
        }
    }
}

fn named(name: &'static str) -> Shown {
    Shown { name, number: None }
}

fn numbered(name: &'static str, number: u64) -> Shown {
    Shown {
        name,
        number: Some(number),
    }
}

/// Returns what is shown of a reply.
pub fn given(reply: &Given) -> Shown {
    match reply {
        Ok(answer) => shown_of(answer),
        Err(refusal) => numbered("refused", number_given(refusal)),
    }
}

/// Returns what is shown of an expected reply.
pub fn wanted(reply: &Reply) -> Shown {
    match reply {
        Ok(answer) => shown_of(answer),
        Err(refusal) => numbered("refused", number_wanted(*refusal)),
    }
}

fn shown_of(answer: &Answer) -> Shown {
    match answer {
        Answer::New { arm } => numbered("new", u64::from(*arm)),
        Answer::Duplicate => named("duplicate"),
        Answer::Sent { number, .. } => numbered("sent", *number),
        Answer::Acked { probe } => numbered("acked", u64::from(*probe)),
        Answer::Lost { probe } => numbered("lost", u64::from(*probe)),
        Answer::Retire(Some((numbers, _))) => numbered("retire up to", numbers.end),
        Answer::Retire(None) => named("retire none"),
        Answer::Flag(flag) => numbered("flag", u64::from(*flag)),
        Answer::Timeout(Some(time)) => numbered("timeout", time.as_nanos()),
        Answer::Timeout(None) => named("timeout none"),
        Answer::InFlight { bytes, .. } => numbered("in-flight", *bytes),
        Answer::Transmitted => named("transmitted"),
        Answer::Blocked => named("blocked"),
        Answer::Delayed(until) => numbered("delayed", until.as_nanos()),
        Answer::Ready => named("ready"),
        Answer::Probe { number, .. } => numbered("probe", *number),
        Answer::NoProbe => named("no probe"),
        Answer::BlackHole(reported) => numbered("black-hole", u64::from(*reported)),
        Answer::Sendable(frames) => numbered("sendable", u64::from(frames.other)),
        Answer::Queue(queue) => numbered("queue", queue.bytes),
        Answer::Done => named("done"),
    }
}
