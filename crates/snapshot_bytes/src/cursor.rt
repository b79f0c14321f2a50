// A cursor that reads bytes from left to right.
ghost use Rattle.std.specs.Prelude.{◌≡◌, length, ◌==◌, MatchResult, Some, None};
ghost use Rattle.snapshot_bytes.specs.Reading.{Found, byte_at, bytes_at, number_at};

use crate::fault::LoadFault;
use std::marker::Model;

/// A cursor over bytes. Contracts see the bytes that are still to be read.
#[derive(Drop)]
pub struct Cursor<'a> {
    left: &'a [u8],
}

impl<'a> Model for Cursor<'a> {
    ghost use Rattle.std.specs.Prelude.{List, ℕ};

    ghost Value = { List ℕ };

    ghost view = { λ c. c.left.now };
}

impl<'a> Cursor<'a> {
    /// A cursor at the beginning of these bytes.
    pub fn new(bytes: &'a [u8]) -> Cursor<'a>
        ensures { result ≡ bytes.now }
    {
        Cursor { left: bytes }
    }

    /// Whether no bytes are left.
    pub fn is_done(&self) -> bool
        ensures { result ≡ (length self.now == 0) }
    {
        self.left.is_empty()
    }

    /// The next byte.
    pub(crate) fn byte(&mut self) -> Result<u8, LoadFault>
        ensures { Found result self.new (byte_at self.old) }
    {
        match self.left {
            [] => Err(LoadFault::NotSnapshot),
            [first, rest @ ..] => {
                self.left = rest;
                Ok(*first)
            }
        }
    }

    /// The next `count` bytes.
    pub(crate) fn bytes(&mut self, count: usize) -> Result<&'a [u8], LoadFault>
        ensures { MatchResult result (λ s. bytes_at count self.old ≡ Some (s.now, self.new)) (λ e. (e ≡ LoadFault.NotSnapshot) × (bytes_at count self.old ≡ None)) }
    {
        if self.left.len() < count {
            return Err(LoadFault::NotSnapshot);
        }
        let (first, rest) = self.left.split_at(count);
        self.left = rest;
        Ok(first)
    }

    /// The number in the next four bytes, the highest byte first.
    ///
    /// # Errors
    /// `NotSnapshot` if fewer than four bytes are left.
    #[tactic(auto, unfolding(crate::specs::Reading::number_at))]
    pub fn number(&mut self) -> Result<u32, LoadFault>
        ensures { Found result self.new (number_at self.old) }
    {
        let bytes = self.bytes(4)?;
        Ok(u32::from_be_bytes([bytes[0], bytes[1], bytes[2], bytes[3]]))
    }
}
