//! Octets in memory as a script's input.
ghost use Rattle.std.specs.Prelude.{◌≡◌};

use crate::streams::{Failed, ScriptIn};

/// Octets in memory as a script's input, which never fails.
#[derive(Drop)]
pub struct FromSlice<'a> {
    octets: &'a [u8],
}

impl<'a> FromSlice<'a> {
    ghost use Rattle.cfdp_streams.specs.Adapters.{rest_of};

    /// All of `octets`.
    pub fn new(octets: &'a [u8]) -> Self
        ensures { rest_of result ≡ octets.now }
    {
        FromSlice { octets }
    }
}

impl<'a> ScriptIn for FromSlice<'a> {
    ghost use Rattle.std.specs.Prelude.{Some, false};
    ghost use Rattle.cfdp_streams.specs.Adapters.{rest_of};

    ghost remaining = { λ s. Some (rest_of s) };

    ghost failed = { λ s. false };

    fn read(&mut self, buffer: &mut [u8]) -> Result<usize, Failed> {
        let count = buffer.len().min(self.octets.len());
        let (piece, rest) = self.octets.split_at(count);
        buffer[..count].copy_from_slice(piece);
        self.octets = rest;
        Ok(count)
    }

    fn has_failed(&self) -> bool {
        false
    }
}
