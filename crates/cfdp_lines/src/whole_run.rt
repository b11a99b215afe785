//! A whole run: from a reader's octets to a writer's.
ghost use Rattle.std.specs.Prelude.{◌≡◌, ◌≢◌, ℕ, ◌+◌, ◌<◌, ◌≤◌, true, List, [], ◌++◌, length, Option, Some, None, IfSome, OnOk, Err, ◌⊎◌};
ghost use Rattle.std.specs.Io.KnownBytes.{Appends, IsAtEnd};
ghost use Rattle.cfdp_lines.specs.Lines.{input_limit};
ghost use Rattle.cfdp_lines.specs.Outcome.{WholeRun, BadRun, LongRun, PartRun, LostRun};
ghost use Rattle.cfdp_lines.specs.declared.faults.RunFault.TheVariants.{Read, Write, Memory, BadLine};

use crate::faults::RunFault;
use crate::limits::INPUT_LIMIT;
use crate::script::Script;
use crate::session::LineSession;
use cfdp_streams::{ScriptIn, ScriptOut, read_some};
use std::alloc::Global;

/// How much is read at once, in octets.
const PIECE: usize = 65_536;

/// How many octets to read next, if this many more are allowed: at least one, so that an input over the limit is
/// noticed.
fn room_for(left: usize) -> usize
    ensures some { 0 < result }
    ensures fits { result ≤ PIECE }
    ensures within { 0 < left → result ≤ left }
    ensures one_more { left ≡ 0 → result ≡ 1 }
{
    left.clamp(1, PIECE)
}

/// Runs the script that `reader` gives, and writes its text to `writer`. A script has at most 268,435,456 octets, and a
/// line at most 200,000.
///
/// # Errors
///
/// - [`RunFault::BadLine`] for the first bad line, with its number, counted from 1. The text of the lines before it was
///   written.
/// - [`RunFault::Read`] when the reader failed, or gave more octets than a script may have.
/// - [`RunFault::Write`] when the writer failed.
/// - [`RunFault::Memory`] when out of memory.
///
/// After each of the last three, what was written is a beginning of the text of what was read, as far as the writer
/// shows.
///
/// Cost: one pass over the octets, and that of the lines. Memory: one line, the text that is not written yet, and on
/// the stack a piece of 65,536 octets.
pub fn run<S: Script, R: ScriptIn, W: ScriptOut>(
    alloc: Global,
    script: S,
    reader: &mut R,
    writer: &mut W,
) -> Result<(), RunFault>
where
    S: Drop,
    // The whole text was written, of a script within the limit without a bad line.
    ensures ok { OnOk result (WholeRun S.answer (S.state script) (R.remaining reader.old) (W.contents writer.old)
        (W.contents writer.new)) }
    // Nothing is left unread.
    ensures all { OnOk result (IsAtEnd (R.remaining reader.new)) }
    // The text before the first bad line was written, and its number is right, of a line that is run.
    ensures bad { (n : ℕ) → result ≡ Err (BadLine n)
        → BadRun S.answer (S.state script) n (R.remaining reader.old) (R.remaining reader.new) (W.contents writer.old)
        (W.contents writer.new) }
    // What was written is a beginning of what is reported of the octets read, at most this many.
    ensures begun { result ≡ Err Read → PartRun S.answer (S.state script) (input_limit + 1)
        (R.remaining reader.old) (R.remaining reader.new) (W.contents writer.old) (W.contents writer.new) }
    ensures begun_memory { result ≡ Err Memory → PartRun S.answer (S.state script) input_limit
        (R.remaining reader.old) (R.remaining reader.new) (W.contents writer.old) (W.contents writer.new) }
    ensures begun_lost { result ≡ Err Write → LostRun S.answer (S.state script) input_limit
        (R.remaining reader.old) (R.remaining reader.new) (W.contents writer.old) (W.contents writer.new) }
    ensures read { result ≡ Err Read → (R.failed reader.new ≡ true)
        ⊎ LongRun S.answer (S.state script) (R.remaining reader.old) (W.contents writer.old) (W.contents writer.new) }
    ensures write { result ≡ Err Write → W.failed writer.new ≡ true }
    ensures well_read { result ≢ Err Read → R.failed reader.new ≡ R.failed reader.old }
    ensures well_written { result ≢ Err Write → W.failed writer.new ≡ W.failed writer.old }
{
    let mut session = LineSession::new(alloc, script);
    let mut buffer = [0u8; PIECE];
    let mut left = INPUT_LIMIT;
    'pieces: loop {
        let Ok(piece) = read_some(reader, &mut buffer, room_for(left)) else {
            return Err(RunFault::Read);
        };
        if piece.is_empty() {
            return session.finish(alloc, writer);
        }
        if left == 0 {
            return Err(RunFault::Read);
        }
        session.feed(alloc, piece, writer)?;
        left -= piece.len();
    }
}
