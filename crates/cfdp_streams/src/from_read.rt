//! Readers of std as a script's input.
ghost use Rattle.std.specs.Prelude.{◌≡◌, true, false};

use crate::streams::{Failed, ScriptIn};
use std::io::{ErrorKind, Read};

/// A reader of std's as a script's input. A read that is interrupted is tried again.
#[derive(Drop)]
pub struct FromRead<R> {
    inner: R,
    failed: bool,
}

impl<R: Read> FromRead<R> {
    ghost use Rattle.cfdp_streams.specs.Adapters.{reader_of, read_failed};

    /// The octets that `inner` gives. Nothing has failed yet.
    pub fn new(inner: R) -> Self
        ensures inner { reader_of result ≡ inner }
        ensures well { read_failed result ≡ false }
    {
        FromRead {
            inner,
            failed: false,
        }
    }
}

impl<R: Read> ScriptIn for FromRead<R> {
    ghost use Rattle.cfdp_streams.specs.Adapters.{reader_of, read_failed};

    ghost remaining = { λ s. R.remaining (reader_of s) };

    ghost failed = { λ s. read_failed s };

    fn read(&mut self, buffer: &mut [u8]) -> Result<usize, Failed> {
        'tries: for _ in 0..u64::MAX {
            match self.inner.read(buffer) {
                Ok(count) => return Ok(count),
                Err(error) if error.kind() == ErrorKind::Interrupted => {}
                Err(_) => break,
            }
        }
        self.failed = true;
        Err(Failed)
    }

    fn has_failed(&self) -> bool {
        self.failed
    }
}
