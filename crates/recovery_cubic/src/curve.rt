//! The cubic curve (RFC 9438, 4.2), in whole bytes and microseconds.
ghost use Rattle.std.specs.Prelude.{◌≡◌, ◌-◌, ◌<◌};
ghost use Rattle.recovery_cubic.specs.Curve.{cube_root, rise, curve_from, flat_curve, curve_at, micros, IsGreatestK};

/// C is 2/5, in datagrams for each cubed second (RFC 9438, 5).
const C_NUMERATOR: u128 = 2;

/// The denominator of C, times the cubed microseconds of a cubed second.
const C_DENOMINATOR: u128 = 5_000_000_000_000_000_000;

/// The smallest number whose cube exceeds 128 bits.
const CUBE_LIMIT: u128 = 6_981_463_658_332;

/// A window as a function of time: `W_max + C · (t - K)^3` (RFC 9438, 4.2).
#[derive(Clone, Copy, Drop)]
pub struct Curve {
    /// The window at the plateau, in bytes.
    w_max: u64,
    /// When the plateau is reached, in microseconds.
    k: u64,
    /// The size of a datagram when the curve began, in bytes, above zero: C counts these.
    datagram: u64,
}

impl Curve {
    /// Returns the curve from a window up to the plateau, with the largest K that does not begin below this window. If
    /// the plateau is lower, K is zero.
    pub fn new(w_max: u64, window: u64, datagram: u64) -> Self
        requires { 0 < datagram }
        ensures value { result ≡ curve_from w_max window datagram }
        ensures greatest { IsGreatestK micros datagram (w_max - window) result.k }
    {
        let distance = u128::from(w_max.saturating_sub(window));
        let cubed = C_DENOMINATOR * distance / (C_NUMERATOR * u128::from(datagram));
        Curve {
            w_max,
            k: cube_root(cubed),
            datagram,
        }
    }

    /// Returns the curve from the plateau on.
    pub fn flat(window: u64, datagram: u64) -> Self
        ensures { result ≡ flat_curve window datagram }
    {
        Curve {
            w_max: window,
            k: 0,
            datagram,
        }
    }

    /// Returns the window at the plateau, in bytes.
    pub fn w_max(&self) -> u64
        ensures { result ≡ self.now.w_max }
    {
        self.w_max
    }

    /// Returns the window this many microseconds after the beginning, in bytes. The distance from the plateau is
    /// rounded down.
    pub fn window_at(&self, micros: u64) -> u64
        ensures { result ≡ curve_at self.now micros }
    {
        match micros.checked_sub(self.k) {
            Some(behind) => self.w_max.saturating_add(rise(self.datagram, behind)),
            None => {
                let before = self.k.saturating_sub(micros);
                self.w_max.saturating_sub(rise(self.datagram, before))
            }
        }
    }
}

/// Returns `C · t^3` in bytes, rounded down. It saturates at 64 bits; before that the 128-bit product saturates.
fn rise(datagram: u64, micros: u64) -> u64
    ensures { result ≡ rise datagram micros }
{
    let micros = u128::from(micros);
    let cube = (micros * micros).saturating_mul(micros);
    let product = cube.saturating_mul(C_NUMERATOR * u128::from(datagram));
    u64::try_from(product / C_DENOMINATOR).unwrap_or(u64::MAX)
}

/// Returns the largest number whose cube is at most this one.
fn cube_root(n: u128) -> u64
    ensures { result ≡ cube_root n }
{
    let mut root = 0;
    let mut above = CUBE_LIMIT;
    while above - root > 1 {
        let middle = root + (above - root) / 2;
        if middle * middle * middle <= n {
            root = middle;
        } else {
            above = middle;
        }
    }
    root as u64
}
