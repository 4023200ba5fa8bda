//! Connection IDs and their stateless reset tokens (RFC 9000, 5.1 and 10.3).
ghost use Rattle.std.specs.Prelude.{◌≡◌, ◌≤◌, length};

use std::marker::Model;

/// The maximum length of a connection ID in bytes (RFC 9000, 17.2).
const MAX_CID_SIZE: usize = 20;

/// The length of a stateless reset token in bytes (RFC 9000, 10.3).
const RESET_TOKEN_SIZE: usize = 16;

/// A connection ID of 0 to 20 bytes. Two are equal if their bytes are.
///
/// In contracts its value is the list of its bytes.
#[derive(Clone, Copy, PartialEq, Eq)]
pub struct ConnectionId {
    len: u8,
    /// The bytes of the ID, followed by zeros.
    bytes: [u8; MAX_CID_SIZE],
}

impl Model for ConnectionId {
    ghost use Rattle.std.specs.Prelude.{ℕ, List};

    ghost Value = { List ℕ };

    ghost use Rattle.recovery_base.specs.Ids.{bytes_of, IsPaddedId, padded, padded-bytes_of};

    ghost view = { bytes_of };

    ghost invariant = { IsPaddedId };

    ghost inverse = { padded };

    ghost inverse_ok = { padded-bytes_of };
}

impl ConnectionId {
    /// Returns the ID with these bytes, at most 20.
    pub fn new(bytes: &[u8]) -> Self
        requires { length bytes.now ≤ 20 }
        ensures { result ≡ bytes.now }
    {
        let mut padded = [0; MAX_CID_SIZE];
        padded[..bytes.len()].copy_from_slice(bytes);
        ConnectionId {
            len: bytes.len() as u8,
            bytes: padded,
        }
    }
}

/// A stateless reset token of 16 bytes (RFC 9000, 10.3). Two are equal if their bytes are.
///
/// In contracts its value is the list of its bytes.
#[derive(Clone, Copy, PartialEq, Eq)]
pub struct ResetToken([u8; RESET_TOKEN_SIZE]);

impl Model for ResetToken {
    ghost use Rattle.std.specs.Prelude.{ℕ, List};

    ghost Value = { List ℕ };

    ghost view = { λ token. token.0 };

    ghost inverse = { λ bytes. record { 0 = bytes } };
}

impl ResetToken {
    /// Returns its bytes, which end a Stateless Reset (RFC 9000, 10.3).
    pub fn to_bytes(self) -> [u8; 16]
        ensures { result ≡ self }
    {
        self.0
    }
}

impl From<[u8; 16]> for ResetToken {
    ghost from_gives = { λ bytes token. token ≡ bytes };

    fn from(bytes: [u8; 16]) -> Self {
        ResetToken(bytes)
    }
}

/// A NEW_CONNECTION_ID frame: an ID that the peer issues (RFC 9000, 19.15).
#[derive(Clone, Copy)]
pub struct NewConnectionId {
    /// The number of the ID, below 2^62.
    pub sequence: u64,
    /// The IDs with numbers below this one are to be retired. It is at most the number of the ID.
    pub retire_prior_to: u64,
    /// The ID.
    pub id: ConnectionId,
    /// The token with which the peer resets a connection that uses the ID.
    pub reset_token: ResetToken,
}

/// An ID that the local endpoint issues by a NEW_CONNECTION_ID frame (RFC 9000, 19.15).
#[derive(Clone, Copy)]
pub struct IssuedCid {
    /// The number of the ID, below 2^62.
    pub sequence: u64,
    /// The ID.
    pub id: ConnectionId,
    /// The token with which the local endpoint resets a connection that uses the ID.
    pub reset_token: ResetToken,
}
