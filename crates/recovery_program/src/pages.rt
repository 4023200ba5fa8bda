//! The program's texts.
/// What `--version` writes.
pub const VERSION: &str = "recovery-replay 0.2.0 after quinn-proto 0.11.19\n";

/// What `--help` writes.
pub const HELP: &str = "\
usage: recovery-replay [SEED [WINDOW]]
Replays a script. Reads events from standard input, one per line, and prints their answers when the input ends.

  SEED       the seed by which packet numbers are skipped, 0 to 18446744073709551615; - or none: no skips
  WINDOW     a constant congestion window, in bytes, above 0; none: NewReno
  --help     prints this text
  --version  prints the version

The script and its answers are held in memory. For input of any length, use recovery-trace.
Exit status: 0; 1 if reading, writing or allocation failed; 2 if a line or an argument could not be read.
";
