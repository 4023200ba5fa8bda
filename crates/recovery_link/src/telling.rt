//! The records of a run: the calls of the sender, as lines of `recovery-sender`, or what happened, as qlog in JSON text
//! sequences (RFC 7464; draft-ietf-quic-qlog-main-schema, draft-ietf-quic-qlog-quic-events).
use crate::ending::Ending;
use crate::settings::Form;
use crate::tape::{Piece, Tape};
use Piece::{Number, Text};
use recovery_network::ack::{AckPacket, Frame};
use recovery_sender::Losses;
use std::alloc::Global;
use std::io::Write;

/// The recorded state of the path in use.
#[derive(Clone, Copy)]
pub struct Metrics {
    /// The bytes and the ack-eliciting packets in flight.
    pub flight: (u64, u64),
    /// The congestion window in bytes, and the slow start threshold; `u64::MAX` while there is none.
    pub window: u64,
    pub ssthresh: u64,
    /// The RTT in nanoseconds: smoothed, variation, smallest and latest.
    pub rtt: [u64; 4],
    pub pto_count: u64,
}

/// The records of a run.
#[derive(Drop)]
pub struct Teller {
    form: Form,
    /// The bytes of each packet.
    size: u16,
    tape: Tape,
    /// The timer and the window in the last record.
    timer: Option<u64>,
    window: u64,
    /// The state of the controller in the last record.
    state: &'static str,
}

impl Teller {
    /// Returns a writer without any record.
    pub fn new(alloc: Global, form: Form, size: u16) -> Self {
        Teller {
            form,
            size,
            tape: Tape::new(alloc),
            timer: None,
            window: 0,
            state: "slow_start",
        }
    }

    /// Returns whether the records are qlog.
    pub fn is_qlog(&self) -> bool {
        self.form == Form::Qlog
    }

    /// Writes the records to an output, if there are many. Returns an error if an allocation failed for a record.
    pub fn pass<W: Write>(&mut self, output: &mut W) -> Result<(), Ending> {
        self.tape.pass(output)
    }

    /// Writes all records to an output. Returns an error if an allocation failed for a record.
    pub fn finish<W: Write>(&mut self, output: &mut W) -> Result<(), Ending> {
        self.tape.finish(output)
    }

    fn is_script(&self) -> bool {
        self.form == Form::Script
    }

    /// Begins an event.
    fn begin(&mut self, now: u64, name: &'static str) {
        self.tape.append(&[
            Text("\u{1e}{\"time\":"),
            Number(now),
            Text("e-6,\"name\":\""),
            Text(name),
            Text("\",\"data\":{"),
        ]);
    }

    /// Records an event with these data.
    fn event(&mut self, now: u64, name: &'static str, pieces: &[Piece]) {
        self.begin(now, name);
        self.tape.append(pieces);
        self.tape.append(&[Text("}}\n")]);
    }

    /// Records that the connection is established, to a peer that delays its ACKs by at most this much.
    pub fn begins(&mut self, max_ack_delay: u64) {
        if self.is_script() {
            let delay = Number(max_ack_delay);
            self.tape
                .append(&[Text("peer-delay "), delay, Text("\nconfirmed\n")]);
            return;
        }
        if !self.is_qlog() {
            return;
        }
        self.tape.append(&[Text(HEADER)]);
        self.event(
            0,
            "transport:parameters_set",
            &[
                Text("\"owner\":\"remote\",\"max_ack_delay\":"),
                Number(max_ack_delay),
                Text("e-6"),
            ],
        );
        self.event(
            0,
            "connectivity:connection_state_updated",
            &[Text("\"new\":\"handshake_confirmed\"")],
        );
    }

    /// Records that a datagram is asked for, with window and pacer or without.
    pub fn asks(&mut self, now: u64, is_paced: bool) {
        if !self.is_script() {
            return;
        }
        self.tape.append(&[
            Text("transmit data "),
            Number(now),
            Text(" "),
            Number(u64::from(self.size)),
            Text(if is_paced { " 1\n" } else { " 0\n" }),
        ]);
    }

    /// Records that the pacer delays it.
    pub fn delayed(&mut self, now: u64, until: u64) {
        if !self.is_qlog() {
            return;
        }
        self.event(
            now,
            "recovery:timer_updated",
            &[
                Text("\"timer_type\":\"pacing\",\"event_type\":\"set\",\"delta\":"),
                Number(until.saturating_sub(now)),
                Text("e-6"),
            ],
        );
    }

    /// Records that a packet is to be sent, with an item or without, and that its ACK frame has this largest number.
    pub fn sends(&mut self, now: u64, largest: Option<u64>, item: Option<u64>) {
        if !self.is_script() {
            return;
        }
        self.tape.append(&[
            Text("send data "),
            Number(now),
            Text(" "),
            Number(u64::from(self.size)),
            Text(" 1 "),
        ]);
        match largest {
            Some(largest) => self.tape.append(&[Number(largest)]),
            None => self.tape.append(&[Text("-")]),
        }
        if let Some(item) = item {
            self.tape.append(&[Text(" "), Number(item)]);
        }
        self.tape.append(&[Text("\n")]);
    }

    /// Records that a packet was sent.
    pub fn sent(
        &mut self,
        now: u64,
        number: u64,
        frame: Option<&Frame>,
        item: Option<u64>,
        is_paced: bool,
    ) {
        if !self.is_qlog() {
            return;
        }
        self.begin(now, "transport:packet_sent");
        self.tape.append(&[
            Text("\"header\":{\"packet_type\":\"1RTT\",\"packet_number\":"),
            Number(number),
            Text("},\"raw\":{\"length\":"),
            Number(u64::from(self.size)),
            Text("},\"frames\":["),
        ]);
        if let Some(frame) = frame {
            self.ack_frame(frame);
            self.tape.append(&[Text(",")]);
        }
        self.content(item);
        self.tape.append(&[Text(if is_paced {
            "]}}\n"
        } else {
            "],\"is_paced\":false}}\n"
        })]);
    }

    fn content(&mut self, item: Option<u64>) {
        match item {
            Some(item) => self.tape.append(&[
                Text("{\"frame_type\":\"stream\",\"stream_id\":0,\"offset\":"),
                Number(item.saturating_mul(u64::from(self.size))),
                Text(",\"length\":"),
                Number(u64::from(self.size)),
                Text("}"),
            ]),
            None => self.tape.append(&[Text("{\"frame_type\":\"ping\"}")]),
        }
    }

    /// Records that a packet arrived.
    pub fn hears(&mut self, now: u64, number: u64) {
        if !self.is_script() {
            return;
        }
        self.tape.append(&[
            Text("received data "),
            Number(now),
            Text(" "),
            Number(number),
            Text(" 0\n"),
        ]);
    }

    /// Records that a duplicate was dropped, whose frames are not read.
    pub fn dropped(&mut self, now: u64, number: u64) {
        if !self.is_qlog() {
            return;
        }
        self.arrival(now, number);
        self.tape.append(&[Text("]}}\n")]);
    }

    /// Records that an ACK was received.
    pub fn received(&mut self, now: u64, packet: &AckPacket, app_limited: bool) {
        match self.form {
            Form::Figures => {}
            Form::Script => self.ack_line(now, &packet.frame, app_limited),
            Form::Qlog => self.ack_event(now, packet, app_limited),
        }
    }

    fn ack_line(&mut self, now: u64, frame: &Frame, app_limited: bool) {
        self.tape.append(&[
            Text("ack data "),
            Number(now),
            Text(" "),
            Number(frame.delay),
            Text(if app_limited { " 1" } else { " 0" }),
        ]);
        for (first, last) in frame.ranges.iter().copied() {
            self.tape
                .append(&[Text(" "), Number(first), Text(" "), Number(last)]);
        }
        if let Some(counts) = &frame.ecn {
            self.tape.append(&[
                Text(" ecn "),
                Number(counts.ect0),
                Text(" "),
                Number(counts.ect1),
                Text(" "),
                Number(counts.ce),
            ]);
        }
        self.tape.append(&[Text("\n")]);
    }

    /// Begins the event of a packet that arrived, up to its frames.
    fn arrival(&mut self, now: u64, number: u64) {
        self.begin(now, "transport:packet_received");
        self.tape.append(&[
            Text("\"header\":{\"packet_type\":\"1RTT\",\"packet_number\":"),
            Number(number),
            Text("},\"frames\":["),
        ]);
    }

    fn ack_event(&mut self, now: u64, packet: &AckPacket, app_limited: bool) {
        self.arrival(now, packet.number);
        self.ack_frame(&packet.frame);
        self.tape.append(&[Text(if app_limited {
            "],\"app_limited\":true}}\n"
        } else {
            "]}}\n"
        })]);
    }

    fn ack_frame(&mut self, frame: &Frame) {
        self.tape.append(&[
            Text("{\"frame_type\":\"ack\",\"ack_delay\":"),
            Number(frame.delay),
            Text("e-6,\"acked_ranges\":["),
        ]);
        let mut is_first = true;
        for (first, last) in frame.ranges.iter().rev().copied() {
            self.tape.append(&[
                Text(if is_first { "[" } else { ",[" }),
                Number(first),
                Text(","),
                Number(last),
                Text("]"),
            ]);
            is_first = false;
        }
        self.tape.append(&[Text("]")]);
        if let Some(counts) = &frame.ecn {
            self.tape.append(&[
                Text(",\"ect0\":"),
                Number(counts.ect0),
                Text(",\"ect1\":"),
                Number(counts.ect1),
                Text(",\"ce\":"),
                Number(counts.ce),
            ]);
        }
        self.tape.append(&[Text("}")]);
    }

    /// Records that the loss detection timer is processed.
    pub fn expires(&mut self, now: u64) {
        match self.form {
            Form::Figures => {}
            Form::Script => self
                .tape
                .append(&[Text("timeout "), Number(now), Text("\n")]),
            Form::Qlog => {
                self.timer = None;
                self.event(
                    now,
                    "recovery:timer_updated",
                    &[Text("\"event_type\":\"expired\"")],
                )
            }
        }
    }

    /// Records the losses of a pass, below this largest acknowledged number.
    pub fn lost(&mut self, now: u64, losses: &Losses, largest: u64) {
        if !self.is_qlog() {
            return;
        }
        for number in losses.numbers.iter().copied() {
            self.event(
                now,
                "recovery:packet_lost",
                &[
                    Text("\"header\":{\"packet_type\":\"1RTT\",\"packet_number\":"),
                    Number(number),
                    Text(if largest.saturating_sub(number) < 3 {
                        "},\"trigger\":\"time_threshold\""
                    } else {
                        "},\"trigger\":\"reordering_threshold\""
                    }),
                ],
            );
        }
        match losses.congestion {
            Some(_) if losses.is_persistent => self.turns(
                now,
                "recovery",
                ",\"trigger\":\"persistent_congestion\"",
            ),
            Some(_) => self.turns(now, "recovery", ""),
            None => {}
        }
    }

    /// Records that the controller reacts to packets that were marked as congested (RFC 9002, 7.1).
    pub fn marked(&mut self, now: u64) {
        if !self.is_qlog() {
            return;
        }
        self.turns(now, "recovery", ",\"trigger\":\"ECN\"");
    }

    /// Records that the controller is in another state.
    fn turns(&mut self, now: u64, state: &'static str, why: &'static str) {
        let old = self.state;
        self.state = state;
        self.event(
            now,
            "recovery:congestion_state_updated",
            &[
                Text("\"old\":\""),
                Text(old),
                Text("\",\"new\":\""),
                Text(state),
                Text("\""),
                Text(why),
            ],
        );
    }

    /// Records that the retransmission queue is taken.
    pub fn takes(&mut self) {
        if !self.is_script() {
            return;
        }
        self.tape.append(&[Text("take-pending data\n")]);
    }

    /// Records that a probe's contents are requested.
    pub fn probes(&mut self) {
        if !self.is_script() {
            return;
        }
        self.tape.append(&[Text("probe data\n")]);
    }

    /// Records that these items were taken.
    pub fn taken(&mut self, now: u64, items: &[u64]) {
        if !self.is_qlog() {
            return;
        }
        self.begin(now, "recovery:marked_for_retransmit");
        self.tape.append(&[Text("\"frames\":[")]);
        let mut is_first = true;
        for item in items.iter().copied() {
            if !is_first {
                self.tape.append(&[Text(",")]);
            }
            is_first = false;
            self.content(Some(item));
        }
        self.tape.append(&[Text("]}}\n")]);
    }

    /// Records what is in flight, after a packet was sent.
    pub fn flies(&mut self, now: u64, metrics: &Metrics) {
        self.event(
            now,
            "recovery:metrics_updated",
            &[
                Text("\"bytes_in_flight\":"),
                Number(metrics.flight.0),
                Text(",\"packets_in_flight\":"),
                Number(metrics.flight.1),
            ],
        );
    }

    /// Records the state of the path, after an ACK or a timeout.
    pub fn stands(&mut self, now: u64, metrics: &Metrics) {
        let [smoothed, variance, least, latest] = metrics.rtt;
        self.begin(now, "recovery:metrics_updated");
        self.tape.append(&[
            Text("\"bytes_in_flight\":"),
            Number(metrics.flight.0),
            Text(",\"packets_in_flight\":"),
            Number(metrics.flight.1),
            Text(",\"congestion_window\":"),
            Number(metrics.window),
            Text(",\"pto_count\":"),
            Number(metrics.pto_count),
            Text(",\"smoothed_rtt\":"),
            Number(smoothed),
            Text("e-6,\"rtt_variance\":"),
            Number(variance),
            Text("e-6,\"min_rtt\":"),
            Number(least),
            Text("e-6,\"latest_rtt\":"),
            Number(latest),
            Text("e-6"),
        ]);
        if metrics.ssthresh < u64::MAX {
            self.tape
                .append(&[Text(",\"ssthresh\":"), Number(metrics.ssthresh)]);
        }
        self.tape.append(&[Text("}}\n")]);
        self.goes_on(now, metrics);
    }

    /// Records the controller's state, if the window changed.
    fn goes_on(&mut self, now: u64, metrics: &Metrics) {
        let grows = metrics.window > self.window;
        self.window = metrics.window;
        let state = if metrics.window < metrics.ssthresh {
            "slow_start"
        } else {
            "congestion_avoidance"
        };
        if grows && state != self.state {
            self.turns(now, state, "");
        }
    }

    /// Records the loss detection timer, if it changed.
    pub fn timed(&mut self, now: u64, timer: Option<u64>, is_loss: bool) {
        if timer == self.timer {
            return;
        }
        self.timer = timer;
        let Some(moment) = timer else {
            self.event(
                now,
                "recovery:timer_updated",
                &[Text("\"event_type\":\"cancelled\"")],
            );
            return;
        };
        self.event(
            now,
            "recovery:timer_updated",
            &[
                Text(if is_loss {
                    "\"timer_type\":\"loss_timeout\",\"event_type\":\"set\",\"delta\":"
                } else {
                    "\"timer_type\":\"pto\",\"event_type\":\"set\",\"delta\":"
                }),
                Number(moment.saturating_sub(now)),
                Text("e-6"),
            ],
        );
    }
}

/// The header record.
const HEADER: &str =
    "\u{1e}{\"qlog_version\":\"0.3\",\"qlog_format\":\"JSON-SEQ\",\"title\":\"recovery-link\",\
\"trace\":{\"vantage_point\":{\"type\":\"client\"},\"common_fields\":{\"time_format\":\"relative\",\
\"reference_time\":0}}}\n";
