//! The result of a loss detection pass so far, and whether congestion is persistent (RFC 9002, 7 and 7.6).
ghost use Rattle.std.specs.Prelude.{◌≡◌, ◌+◌, ◌==◌, option_map};
ghost use Rattle.recovery_losses.specs.Losses.{no_run, follows, going_on, ending, nothing_found, waiting, counting, cutting, finding_probe};

use crate::looks::{Candidate, LossPass};
use recovery_base::time::Instant;
use recovery_base::timer::earlier;

/// The result of a pass so far.
#[derive(Clone, Copy)]
pub struct Tally {
    /// When the next packet is lost.
    pub loss_time: Option<Instant>,
    /// The number of the MTU probe, if it is lost.
    pub probe: Option<u64>,
    /// When the last packet that counts was sent, if any.
    pub last_sent: Option<Instant>,
    /// The bytes of the packets that count, capped at `u64::MAX`.
    pub bytes: u64,
    /// The run of numbers that are lost.
    pub run: Run,
    /// Whether allocation failed for a lost packet, which is then still tracked.
    pub is_cut: bool,
}

/// Returns whether one number directly follows another.
fn is_next(last: u64, number: u64) -> bool
    ensures { result ≡ (last + 1 == number) }
{
    last < number && number - last == 1
}

/// Returns whether a number continues a run that ends at `previous`: only a skipped number may lie between.
fn follows(skipped: Option<u64>, previous: Option<u64>, number: u64) -> bool
    ensures { result ≡ follows skipped previous number }
{
    match (skipped, previous) {
        (_, None) => false,
        (None, Some(last)) => is_next(last, number),
        (Some(skipped), Some(last)) => {
            is_next(last, number) || is_next(last, skipped) && is_next(skipped, number)
        }
    }
}

/// Consecutive lost numbers, and whether congestion persists over them (RFC 9002, 7.6).
#[derive(Clone, Copy)]
pub struct Run {
    /// The number that was lost last.
    previous: Option<u64>,
    /// When the first packet of the run was sent that may begin persistent congestion.
    oldest: Option<Instant>,
    /// Whether congestion is persistent.
    pub is_persistent: bool,
}

impl Run {
    /// Returns a run without any loss.
    fn new() -> Self
        ensures { result ≡ no_run }
    {
        Run {
            previous: None,
            oldest: None,
            is_persistent: false,
        }
    }

    /// Records a lost number, which continues the run or begins a new one.
    fn go_on(&mut self, look: &LossPass, number: u64)
        ensures { self.new ≡ going_on look.now number self.old }
    {
        if !follows(look.skipped, self.previous, number) {
            self.oldest = None;
        }
        self.previous = Some(number);
    }

    /// Records a packet sent at `sent` with which persistent congestion may begin or end.
    fn end(&mut self, look: &LossPass, sent: Instant)
        ensures { self.new ≡ ending look.now sent self.old }
    {
        self.oldest = Some(match self.oldest {
            Some(oldest) => {
                let span = sent.saturating_duration_since(oldest).as_nanos();
                self.is_persistent = self.is_persistent || span > look.period;
                oldest.min(sent)
            }
            None => sent,
        });
    }
}

impl Tally {
    /// Returns the result before any packet was examined.
    pub fn new() -> Self
        ensures { result ≡ nothing_found }
    {
        Tally {
            loss_time: None,
            probe: None,
            last_sent: None,
            bytes: 0,
            run: Run::new(),
            is_cut: false,
        }
    }

    /// Returns the bytes of the packets that count, if any.
    pub fn congestion(&self) -> Option<u64>
        ensures { result ≡ option_map (λ sent. self.now.bytes) self.now.last_sent }
    {
        match self.last_sent {
            Some(_) => Some(self.bytes),
            None => None,
        }
    }

    /// Records a packet that becomes lost at `time`.
    pub fn waits(&mut self, time: Instant)
        ensures { self.new ≡ waiting time self.old }
    {
        self.loss_time = earlier(self.loss_time, Some(time));
    }

    /// Records a lost packet for which allocation failed: it is still tracked, and due at once.
    pub fn cuts(&mut self, look: &LossPass)
        ensures { self.new ≡ cutting look.now self.old }
    {
        self.waits(look.at);
        self.is_cut = true;
    }

    /// Records that the MTU probe is lost.
    pub fn finds_probe(&mut self, look: &LossPass, packet: &Candidate)
        ensures { self.new ≡ finding_probe look.now packet.now self.old }
    {
        self.probe = look.probe;
        self.run.go_on(look, packet.number);
    }

    /// Records a lost packet. If it counts, it indicates congestion (RFC 9002, 7).
    pub fn counts(&mut self, look: &LossPass, packet: &Candidate)
        ensures { self.new ≡ counting look.now packet.now self.old }
    {
        self.run.go_on(look, packet.number);
        if packet.size > 0 && packet.path_generation == look.generation {
            self.bytes = self.bytes.saturating_add(u64::from(packet.size));
            self.last_sent = Some(match self.last_sent {
                Some(last) => last.max(packet.time_sent),
                None => packet.time_sent,
            });
            if look.is_end(packet) {
                self.run.end(look, packet.time_sent);
            }
        }
    }
}
