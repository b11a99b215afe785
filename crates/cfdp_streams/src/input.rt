//! Reading the next piece of a script.
ghost use Rattle.std.specs.Prelude.{◌≡◌, ℕ, ◌≤◌, ◌<◌, true, length, IfOk, OnOk, OnErr};
ghost use Rattle.std.specs.Io.KnownBytes.{Consumes, IsAtEnd};
ghost use Rattle.cfdp_streams.specs.Streams.{KeptOrLost};

use crate::streams::{Failed, ScriptIn};

/// Reads some octets into `buffer`, at most `room`, and lends them. It returns none only at the end.
///
/// # Errors
///
/// [`Failed`] when the reader failed: its call did nothing, or nobody can say what it did.
///
/// Cost: one call of the reader. Takes no memory of its own.
pub fn read_some<'a, R: ScriptIn>(
    reader: &mut R,
    buffer: &'a mut [u8],
    room: usize,
) -> Result<&'a [u8], Failed>
    requires some { 0 < room }
    requires fits { room ≤ length buffer.old }
    ensures count { IfOk result (λ piece. length piece.now ≤ room) }
    ensures octets { IfOk result (λ piece. Consumes (R.remaining reader.old) (R.remaining reader.new) piece.now) }
    ensures end { IfOk result (λ piece. length piece.now ≡ 0 → IsAtEnd (R.remaining reader.new)) }
    ensures well { OnOk result (R.failed reader.new ≡ R.failed reader.old) }
    ensures fails { OnErr result (R.failed reader.new ≡ true) }
    ensures kept_or_lost { OnErr result (KeptOrLost (R.remaining reader.old) (R.remaining reader.new)) }
{
    let part = &mut buffer[..room];
    let count = reader.read(part)?;
    Ok(&part[..count])
}
