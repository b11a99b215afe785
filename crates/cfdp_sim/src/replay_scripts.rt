//! The scripts of `replay`: PDUs and local events, a line each, of one receiving entity.
ghost use Rattle.std.specs.Prelude.{◌≡◌, ◌≢◌, ℕ, ◌+◌, ◌<◌, ◌≤◌, ◌⊎◌, true, length, None, Some, IfOk, OnOk, Err};
ghost use Rattle.std.specs.Io.KnownBytes.{IsAtEnd};
ghost use Rattle.cfdp_lines.specs.Lines.{input_limit};
ghost use Rattle.cfdp_lines.specs.Outcome.{WholeRun, BadRun, LongRun, PartRun, LostRun};
ghost use Rattle.cfdp_commands.specs.Replay.{replay_answer, at_first, replay_report};
ghost use Rattle.cfdp_lines.specs.Report.{limited_report};
ghost use Rattle.cfdp_lines.specs.declared.faults.RunFault.TheVariants.{Read, Write, Memory, BadLine};

use cfdp_commands::Transfers;
use cfdp_lines::{RunFault, run};
use cfdp_streams::{FromSlice, ScriptIn, ScriptOut, ToWrite};
use std::alloc::Global;

/// Runs a script of PDUs and local events of one receiving entity (CCSDS 727.0-B-5, copy file procedures).
///
/// Words are between spaces. S is the source entity of a transaction, and N its sequence number.
///
/// - `config E B C K J` gives this entity's ID, the blocks of its filestore, the octets that a file of unbounded size
///   may have, the check limit and the journal's entries. Without it they are 2, 64, 2400, 2 and 1000.
/// - `protect HEX` protects what is at or below a path.
/// - `pdu HEX` is a PDU that came.
/// - `step S N` performs the next item of the transaction.
/// - `cancel S N` cancels it, `check S N` expires its check timer, and `take S N` hands its outcome out.
/// - `run` performs items until there are none, 4,224 at most.
/// - `list` writes what is in the filestore.
///
/// Each reply is a line that begins with its transaction's name. A line that begins with `#`, and one without words, is
/// passed over. Lines end with a newline, and a last one without it counts.
///
/// # Errors
///
/// - [`RunFault::BadLine`] for the first bad line. It has more than 200,000 octets, even if it begins with `#`; or it
///   is one of those listed below.
/// - [`RunFault::Read`] where the reader failed, or gave more than 268,435,456 octets. A line that ends within these
///   and is bad, or that is too long within them, comes first.
/// - [`RunFault::Write`] where the writer failed.
/// - [`RunFault::Memory`] when out of memory.
///
/// A line is bad that has:
///
/// - another first word, or a word too many or too few;
/// - a number that is no decimal digits or at least 2^64, or outside the configuration's limits;
/// - `config`, if a line that is neither blank nor a comment came before it;
/// - `protect` after any line but `config` and `protect`, without a path, or with a ninth path;
/// - `protect` or `pdu` with octets that are not pairs of hexadecimal digits, or with none.
///
/// Memory: the receiving entity, one line and what it wrote. Cost: one pass over the octets, and that of the events.
pub fn replay<R: ScriptIn, W: ScriptOut>(
    alloc: Global,
    reader: &mut R,
    writer: &mut W,
) -> Result<(), RunFault>
    // The whole report was written, of a script within the input limit that has no bad line.
    ensures ok { OnOk result
        (WholeRun replay_answer at_first (R.remaining reader.old) (W.contents writer.old) (W.contents writer.new)) }
    // Nothing is left unread.
    ensures all { OnOk result (IsAtEnd (R.remaining reader.new)) }

    // The report up to the first bad line was written, and this is its number. As many octets as the input limit
    // show that it is bad, and no more were read.
    ensures bad_line { (number : ℕ) → result ≡ Err (BadLine number) → BadRun replay_answer at_first number
        (R.remaining reader.old) (R.remaining reader.new) (W.contents writer.old) (W.contents writer.new) }

    // What was written is a beginning of the report of what was read: at most the limit, and one octet more where
    // that is the fault.
    ensures begun { result ≡ Err Read → PartRun replay_answer at_first (input_limit + 1)
        (R.remaining reader.old) (R.remaining reader.new) (W.contents writer.old) (W.contents writer.new) }
    ensures begun_memory { result ≡ Err Memory → PartRun replay_answer at_first input_limit
        (R.remaining reader.old) (R.remaining reader.new) (W.contents writer.old) (W.contents writer.new) }
    ensures begun_or_lost { result ≡ Err Write → LostRun replay_answer at_first input_limit
        (R.remaining reader.old) (R.remaining reader.new) (W.contents writer.old) (W.contents writer.new) }

    // The reader is to blame, or an input longer than the limit, within which no line is bad; or the writer is.
    // Otherwise neither has failed.
    ensures read { result ≡ Err Read → (R.failed reader.new ≡ true)
        ⊎ LongRun replay_answer at_first (R.remaining reader.old) (W.contents writer.old) (W.contents writer.new) }
    ensures write { result ≡ Err Write → W.failed writer.new ≡ true }
    ensures well_read { result ≢ Err Read → R.failed reader.new ≡ R.failed reader.old }
    ensures well_written { result ≢ Err Write → W.failed writer.new ≡ W.failed writer.old }
{
    run(alloc, Transfers::new(alloc), reader, writer)
}

/// What [`replay`] writes for a script in memory.
///
/// # Errors
///
/// [`RunFault::BadLine`] for the first bad line; [`RunFault::Read`] for a script of more than 268,435,456 octets;
/// [`RunFault::Memory`], also for the text.
///
/// Memory: what [`replay`] takes, and the text. Cost: that of [`replay`].
pub fn replay_text(alloc: Global, script: &[u8]) -> Result<Vec<u8>, RunFault>
    ensures text { IfOk result (λ text. text.items ≡ (replay_report script.now).text) }
    ensures fine { OnOk result ((replay_report script.now).bad_line ≡ None) }
    ensures short { OnOk result (length script.now ≤ input_limit) }
    ensures bad_line { (number : ℕ) → result ≡ Err (BadLine number) → (replay_report script.now).bad_line
        ≡ Some number }
    ensures within { (number : ℕ) → result ≡ Err (BadLine number)
        → (limited_report replay_answer at_first script.now).bad_line ≡ Some number }
    ensures read { result ≡ Err Read → input_limit < length script.now }
    ensures written { result ≢ Err Write }
{
    let mut writer = ToWrite::new(Vec::new(alloc));
    match replay(alloc, &mut FromSlice::new(script), &mut writer) {
        Ok(()) => Ok(writer.into_inner()),
        Err(RunFault::Write) => Err(RunFault::Memory),
        Err(fault) => Err(fault),
    }
}
