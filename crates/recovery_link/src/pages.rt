//! The program's texts.

/// What `--version` writes.
pub const VERSION: &str = "recovery-link 0.2.0 after quinn-proto 0.11.19\n";

/// What `--help` writes.
pub const HELP: &str = "\
usage: recovery-link [--script|--qlog] [NAME=VALUE]..
Transfers bytes over a simulated link with the sender of recovery-sender, and prints a line of figures for each flow.

  --script      prints the calls of the first sender, as lines for recovery-sender client; figures go to standard error
  --qlog        prints its events as qlog, in JSON text sequences; figures go to standard error
  schedule=     a file of steps of two endpoints, each answered by a line; of the other words only controller= applies
  controller=   newreno, cubic, or a constant window in bytes (newreno)
  paced=        yes or no: whether datagrams wait for the pacer (yes)
  bytes=        how many bytes each flow transfers, 1 to 1000G (1M)
  size=         the bytes of each packet, 40 to 1200 (1200)
  flows=        how many flows share the link, 1 to 64 (1)
  rival=        the controller of all flows except the first (the controller of the first)
  stagger=      the time from the start of one flow to the start of the next (0)
  chunk=        how many bytes the application writes at a time (12k)
  every=        the time from one write to the next; 0: the application writes all at once (0)
  rate=         the rate of the link, in bits per second, 1 to 1000G (10M)
  delay=        the one-way delay of a packet, and of an ACK on the way back (25ms)
  rate@TIME= delay@TIME=   the rate and the delay from a time on, in order of time, as in rate@2s=1M
  queue=        the size of the queue before the link, in bytes, 1200 to 1000G (62500)
  aqm=          tail: a full queue drops packets; codel: CoDel does so too (tail)
  target=       CoDel's target: how long packets may wait (5ms)
  interval=     CoDel's interval: for how long they may wait longer than that (100ms)
  ecn=          yes or no: whether CoDel marks packets instead of dropping them (no)
  loss=         the packets lost after the queue, per million or with % (0)
  burst=        the mean number of packets lost in a row, at most 1M; 0: losses are independent (0)
  reorder=      the packets that arrive late, per million or with % (0)
  duplicate=    the packets that arrive twice, per million or with % (0)
  ack-loss= ack-burst= ack-reorder= ack-duplicate=   the same for ACKs (0)
  late=         the extra delay of a packet or an ACK that arrives late (5ms)
  ack-delay=    the longest time that the peer delays an ACK (25ms)
  seed=         the seed of losses and late packets, 0 to 18446744073709551615 (0)
  until=        the time at which the transfer is given up (1000s)
  --help        prints this text
  --version     prints the version

A time has the unit ns, us, ms or s, and is at most 1000s. A count may end with k, M or G. Both may have a fraction:
12.5ms, 0.5%.
Exit status: 0; 1 if reading, writing or allocation failed; 2 if an argument or a step could not be read.
";
