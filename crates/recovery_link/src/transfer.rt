//! A transfer: flows and a link in a closed loop.
use crate::changes::Changes;
use crate::ending::Ending;
use crate::figures::Figures;
use crate::flow::Flow;
use crate::link::{Link, sooner};
use crate::settings::Settings;
use recovery_base::below::NoMemory;
use std::alloc::Global;
use std::io::Write;

/// A transfer: bytes in packets, each with an item of the same size.
#[derive(Drop)]
struct Transfer {
    flows: Vec<Flow>,
    link: Link,
}

impl Transfer {
    fn new(alloc: Global, settings: &Settings, changes: &Changes) -> Result<Self, NoMemory> {
        let mut flows = Vec::new(alloc);
        for index in 0..settings.flows {
            let flow = Flow::new(alloc, settings, changes, index)?;
            flows.push(flow)?;
        }
        let link = Link::new(alloc, settings, changes)?;
        Ok(Transfer { flows, link })
    }

    fn begin(&mut self, settings: &Settings) {
        for flow in self.flows.iter_mut() {
            flow.begin(settings);
        }
    }

    /// Returns when something happens next, unless all items are acknowledged.
    fn next(&self) -> Option<u64> {
        let mut next = None;
        for flow in self.flows.iter() {
            next = sooner(next, flow.next());
        }
        next?;
        sooner(next, self.link.next())
    }

    /// Does what happens at this time: on the link one thing, and one at each flow.
    fn step(&mut self, now: u64) -> Result<(), Ending> {
        self.link.go_on(now)?;
        if let Some(arrival) = self.link.take(now) {
            if let Some(flow) = self.flows.get_mut(arrival.packet.flow as usize) {
                flow.receive(now, arrival)?;
            }
        }
        for flow in self.flows.iter_mut() {
            flow.step(now, &mut self.link)?;
        }
        Ok(())
    }

    /// Writes the records of the first flow, if there are many or at the end.
    fn write<W: Write>(&mut self, output: &mut W, is_end: bool) -> Result<(), Ending> {
        match self.flows.first_mut() {
            Some(flow) if is_end => flow.teller().finish(output),
            Some(flow) => flow.teller().pass(output),
            None => Ok(()),
        }
    }

    /// Runs the transfer, up to the last ACK or to the given time. Returns when it ended.
    fn run<W: Write>(&mut self, settings: &Settings, output: &mut W) -> Result<u64, Ending> {
        self.begin(settings);
        let mut now = 0;
        // Bounded, here and in `flow.rt` and `link.rt`, as `MAX_CALLS` of recovery_replay: no measure shows that the
        // loop ends.
        for _ in 0..u64::MAX {
            now = match self.next() {
                Some(next) if next <= settings.until => next.max(now),
                _ => break,
            };
            self.step(now)?;
            self.write(output, false)?;
        }
        self.write(output, true)?;
        Ok(now)
    }

    /// Returns the figures of each flow.
    fn figures(&self, alloc: Global, now: u64) -> Result<Vec<Figures>, NoMemory> {
        let mut all = Vec::new(alloc);
        for flow in self.flows.iter() {
            all.push(flow.figures(now, &self.link))?;
        }
        Ok(all)
    }
}

fn ran<W: Write>(
    alloc: Global,
    transfer: &mut Transfer,
    settings: &Settings,
    output: &mut W,
) -> Result<Vec<Figures>, Ending> {
    let now = transfer.run(settings, output)?;
    let all = transfer.figures(alloc, now)?;
    Ok(all)
}

/// Runs a transfer over a link with these changes. Returns the figures of each flow, and writes the records of the
/// first one to an output.
pub fn transferred<W: Write>(
    alloc: Global,
    settings: &Settings,
    changes: &Changes,
    output: &mut W,
) -> Result<Vec<Figures>, Ending> {
    let mut transfer = Transfer::new(alloc, settings, changes)?;
    let all = ran(alloc, &mut transfer, settings, output);
    drop(transfer);
    all
}
