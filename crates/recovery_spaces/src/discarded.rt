//! Which packet number spaces were discarded with their keys (RFC 9001, 4.9).
ghost use Rattle.std.specs.Prelude.{◌≡◌, false};
ghost use Rattle.recovery_base.specs.declared.below.SpaceId.{SpaceId};
ghost use Rattle.recovery_spaces.specs.Discarded.{is_discarded, DiscardedStep};

use recovery_base::below::SpaceId;

/// Which spaces were discarded.
#[derive(Clone, Copy)]
pub struct DiscardedSpaces {
    initial: bool,
    handshake: bool,
    data: bool,
}

impl DiscardedSpaces {
    /// Returns the state in which no space is discarded.
    pub fn new() -> Self
        ensures { (space : SpaceId) → is_discarded space result ≡ false }
    {
        DiscardedSpaces {
            initial: false,
            handshake: false,
            data: false,
        }
    }

    /// Returns whether a space was discarded.
    pub fn contains(&self, space: SpaceId) -> bool
        ensures { result ≡ is_discarded space self.now }
    {
        match space {
            SpaceId::Initial => self.initial,
            SpaceId::Handshake => self.handshake,
            SpaceId::Data => self.data,
        }
    }

    /// Marks a space as discarded with its keys (RFC 9001, 4.9). The others are unchanged, and so is one that was
    /// discarded before.
    pub fn insert(&mut self, space: SpaceId)
        ensures { DiscardedStep space self.old self.new }
    {
        match space {
            SpaceId::Initial => self.initial = true,
            SpaceId::Handshake => self.handshake = true,
            SpaceId::Data => self.data = true,
        }
    }
}
