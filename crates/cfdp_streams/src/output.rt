//! Writing a whole text.
ghost use Rattle.std.specs.Prelude.{◌≡◌, ℕ, true, List, ◌++◌, OnOk, OnErr};
ghost use Rattle.std.specs.Io.KnownBytes.{Appends};
ghost use Rattle.cfdp_streams.specs.Streams.{AppendsOrLost, Begins};

use crate::streams::{Failed, ScriptOut};

/// Writes all of `text`, in as many calls of the writer as that takes.
///
/// # Errors
///
/// [`Failed`] when a write failed: a beginning of the text was written then, or nobody can say what was written.
///
/// Cost: one call of the writer for each part that it takes, and none for an empty text. Takes no memory of its own.
pub fn write_all<W: ScriptOut>(writer: &mut W, text: &[u8]) -> Result<(), Failed>
    ensures ok { OnOk result (Appends (W.contents writer.old) (W.contents writer.new) text.now) }
    ensures well { OnOk result (W.failed writer.new ≡ W.failed writer.old) }
    ensures fails { OnErr result (W.failed writer.new ≡ true) }
    ensures begun { OnErr result ((written : List ℕ) × (AppendsOrLost (W.contents writer.old)
        (W.contents writer.new) written)
        × Begins text.now written) }
{
    let mut rest = text;
    'writing: while !rest.is_empty() {
        let count = writer.write(rest)?;
        (_, rest) = rest.split_at(count);
    }
    Ok(())
}
