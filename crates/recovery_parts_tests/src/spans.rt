//! Rows of spans, computed by hand from RFC 9002, 6.1.2 and 6.2.1.
use crate::rows::same;
use recovery_base::time::Duration;
use recovery_losses::{loss_delay, probe_timeout};

/// 9/8 of 100 ms.
const LOSS_DELAY: u64 = 112_500_000;

#[test]
fn spans(rt: HostRuntime) {
    let (millis, nanos) = (Duration::from_millis, Duration::from_nanos);
    let (hundred, most) = (millis(100), millis(25));
    same(
        &rt,
        &[
            (loss_delay((9, 8), millis(80), hundred), nanos(LOSS_DELAY)),
            (loss_delay((9, 8), hundred, millis(80)), nanos(LOSS_DELAY)),
            (loss_delay((9, 8), Duration::ZERO, nanos(8)), millis(1)),
            (loss_delay((9, 8), Duration::MAX, millis(1)), Duration::MAX),
            (loss_delay((5, 4), millis(80), hundred), millis(125)),
            (loss_delay((1, 2), millis(80), hundred), hundred),
        ],
    );
    same(
        &rt,
        &[
            (probe_timeout(hundred, most, 0), millis(125)),
            (probe_timeout(hundred, most, 1), millis(250)),
            (probe_timeout(hundred, most, 2), millis(500)),
            (probe_timeout(hundred, most, 3), millis(1000)),
            (probe_timeout(hundred, most, 200), Duration::MAX),
            (
                probe_timeout(Duration::ZERO, Duration::ZERO, u32::MAX),
                Duration::ZERO,
            ),
        ],
    );
}
