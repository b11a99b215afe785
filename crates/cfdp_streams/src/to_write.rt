//! Writers of std as a script's output.
ghost use Rattle.std.specs.Prelude.{◌≡◌, true, false};

use crate::streams::{Failed, ScriptOut};
use std::io::{ErrorKind, Write};

/// A writer of std's as a script's output. A write that is interrupted is tried again; one that takes nothing of some
/// octets has failed.
#[derive(Drop)]
pub struct ToWrite<W> {
    inner: W,
    failed: bool,
}

impl<W: Write> ToWrite<W> {
    ghost use Rattle.cfdp_streams.specs.Adapters.{writer_of, write_failed};

    /// Writes to `inner`. Nothing has failed yet.
    pub fn new(inner: W) -> Self
        ensures inner { writer_of result ≡ inner }
        ensures well { write_failed result ≡ false }
    {
        ToWrite {
            inner,
            failed: false,
        }
    }

    /// The writer inside.
    pub fn into_inner(self) -> W
        ensures { result ≡ writer_of self }
    {
        let ToWrite { inner, failed: _ } = self;
        inner
    }
}

impl<W: Write> ScriptOut for ToWrite<W> {
    ghost use Rattle.cfdp_streams.specs.Adapters.{writer_of, write_failed};

    ghost contents = { λ s. W.contents (writer_of s) };

    ghost failed = { λ s. write_failed s };

    fn write(&mut self, octets: &[u8]) -> Result<usize, Failed> {
        'tries: for _ in 0..u64::MAX {
            match self.inner.write(octets) {
                Ok(count) if count > 0 || octets.is_empty() => return Ok(count),
                Err(error) if error.kind() == ErrorKind::Interrupted => {}
                _ => break,
            }
        }
        self.failed = true;
        Err(Failed)
    }

    fn has_failed(&self) -> bool {
        self.failed
    }
}
