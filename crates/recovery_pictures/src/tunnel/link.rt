//! A link, as far as it was measured.

/// A measurement: whether datagrams of this size arrive from then on.
#[derive(Clone, Copy)]
pub struct Measured {
    /// In bytes.
    pub size: u16,
    /// Whether they arrive.
    pub arrives: bool,
}

impl Measured {
    /// Parses a line: a size, a space, and `yes` or `no`.
    pub fn read(line: &str) -> Option<Measured> {
        let (size, arrives) = line.split_once(' ')?;
        let size = size.parse().ok()?;
        match arrives {
            "yes" => Some(Measured {
                size,
                arrives: true,
            }),
            "no" => Some(Measured {
                size,
                arrives: false,
            }),
            _ => None,
        }
    }
}

/// A link that carries datagrams up to a size.
#[derive(Clone, Copy)]
pub struct Link {
    carried: u16,
}

impl Link {
    /// Returns a link that was not measured: it carries what every path carries (RFC 9000, 14).
    pub fn new() -> Link {
        Link { carried: 1200 }
    }

    /// Applies a measurement: if the datagram arrived, smaller ones do; if not, larger ones do not.
    pub fn learn(&mut self, measured: Measured) {
        self.carried = if measured.arrives {
            self.carried.max(measured.size)
        } else {
            self.carried.min(measured.size.saturating_sub(1))
        };
    }

    /// Returns whether a datagram of this size arrives.
    pub fn carries(self, size: u16) -> bool {
        size <= self.carried
    }
}
