//! The program's texts.
/// What `--version` writes.
pub const VERSION: &str = "recovery-sender 0.2.0 after quinn-proto 0.11.19\n";

/// What `--help` writes.
pub const HELP: &str = "\
usage: recovery-sender client|server|established [SEED [cubic|WINDOW [PACKETS NUMERATOR DENOMINATOR PERIODS]]]
Answers the calls of a sender one at a time: reads a line, prints its answer and the loss detection timer.

  client|server  which endpoint sends; the connection begins with its handshake
  established    a server whose handshake is confirmed
  SEED           the seed by which packet numbers are skipped, 0 to 18446744073709551615; - or none: no skips
  WINDOW         cubic, or a constant congestion window, in bytes, above 0; - or none: NewReno
  PACKETS NUMERATOR DENOMINATOR PERIODS
                 the thresholds of loss detection: packets, time (a fraction of an RTT), and how many probe
                 timeouts persistent congestion lasts; none: 3 9 8 3
  --help         prints this text
  --version      prints the version

Empty lines and lines that begin with # are skipped. It stops at the first other line that is no call, and says why.
Exit status: 0; 1 if reading, writing or allocation failed; 2 if a line or an argument could not be read.
";
