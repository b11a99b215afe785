//! The scripts of `plain`: filestore requests, a TLV a line, on one filestore.
ghost use Rattle.std.specs.Prelude.{◌≡◌, ◌≢◌, ℕ, ◌+◌, ◌<◌, ◌≤◌, ◌⊎◌, true, length, None, Some, IfOk, OnOk, Err};
ghost use Rattle.std.specs.Io.KnownBytes.{IsAtEnd};
ghost use Rattle.cfdp_lines.specs.Lines.{input_limit};
ghost use Rattle.cfdp_lines.specs.Outcome.{WholeRun, BadRun, LongRun, PartRun, LostRun};
ghost use Rattle.cfdp_commands.specs.Plain.{plain_answer, at_start, plain_report};
ghost use Rattle.cfdp_lines.specs.Report.{limited_report};
ghost use Rattle.cfdp_lines.specs.declared.faults.RunFault.TheVariants.{Read, Write, Memory, BadLine};

use cfdp_commands::Requests;
use cfdp_lines::{RunFault, run};
use cfdp_streams::{FromSlice, ScriptIn, ScriptOut, ToWrite};
use cfdp_tree::TreeStore;
use std::alloc::Global;

/// The blocks of the filestore.
const BLOCKS: u32 = 64;

/// Runs a script of filestore requests (CCSDS 727.0-B-5 §5.4.1, filestore procedures).
///
/// Each line is a request TLV in hexadecimal of either case, with spaces between pairs of digits, before and
/// after. It is answered by a line: its response TLV in lower case, or `dropped` and why. An empty line, or one
/// of spaces alone, begins a new list of requests on the same filestore of 64 blocks; after a request that was not
/// successful the rest of its list is not performed. A line that begins with `#` is passed over. Lines end with a
/// newline, and a last one without it counts.
///
/// # Errors
///
/// - [`RunFault::BadLine`] for the first line that has more than 200,000 octets, even if it begins with `#`, or that is
///   neither a comment nor hexadecimal.
/// - [`RunFault::Read`] where the reader failed, or gave more than 268,435,456 octets. A line that ends within these
///   and is bad, or that is too long within them, comes first.
/// - [`RunFault::Write`] where the writer failed.
/// - [`RunFault::Memory`] when out of memory.
///
/// Memory: the filestore, one line and its answer. Cost: one pass over the octets, and that of the requests.
pub fn plain<R: ScriptIn, W: ScriptOut>(
    alloc: Global,
    reader: &mut R,
    writer: &mut W,
) -> Result<(), RunFault>
    // The whole report was written, of a script within the input limit that has no bad line.
    ensures ok { OnOk result
        (WholeRun plain_answer at_start (R.remaining reader.old) (W.contents writer.old) (W.contents writer.new)) }
    // Nothing is left unread.
    ensures all { OnOk result (IsAtEnd (R.remaining reader.new)) }

    // The report up to the first bad line was written, and this is its number. As many octets as the input limit
    // show that it is bad, and no more were read.
    ensures bad_line { (number : ℕ) → result ≡ Err (BadLine number) → BadRun plain_answer at_start number
        (R.remaining reader.old) (R.remaining reader.new) (W.contents writer.old) (W.contents writer.new) }

    // What was written is a beginning of the report of what was read: at most the limit, and one octet more where
    // that is the fault.
    ensures begun { result ≡ Err Read → PartRun plain_answer at_start (input_limit + 1)
        (R.remaining reader.old) (R.remaining reader.new) (W.contents writer.old) (W.contents writer.new) }
    ensures begun_memory { result ≡ Err Memory → PartRun plain_answer at_start input_limit
        (R.remaining reader.old) (R.remaining reader.new) (W.contents writer.old) (W.contents writer.new) }
    ensures begun_or_lost { result ≡ Err Write → LostRun plain_answer at_start input_limit
        (R.remaining reader.old) (R.remaining reader.new) (W.contents writer.old) (W.contents writer.new) }

    // The reader is to blame, or an input longer than the limit, within which no line is bad; or the writer is.
    // Otherwise neither has failed.
    ensures read { result ≡ Err Read → (R.failed reader.new ≡ true)
        ⊎ LongRun plain_answer at_start (R.remaining reader.old) (W.contents writer.old) (W.contents writer.new) }
    ensures write { result ≡ Err Write → W.failed writer.new ≡ true }
    ensures well_read { result ≢ Err Read → R.failed reader.new ≡ R.failed reader.old }
    ensures well_written { result ≢ Err Write → W.failed writer.new ≡ W.failed writer.old }
{
    let Ok(store) = TreeStore::new(alloc, BLOCKS) else {
        return Err(RunFault::Memory);
    };
    run(alloc, Requests::new(alloc, store), reader, writer)
}

/// What [`plain`] writes for a script in memory.
///
/// # Errors
///
/// [`RunFault::BadLine`] for the first bad line; [`RunFault::Read`] for a script of more than 268,435,456 octets;
/// [`RunFault::Memory`], also for the text.
///
/// Memory: what [`plain`] takes, and the text. Cost: that of [`plain`].
pub fn plain_text(alloc: Global, script: &[u8]) -> Result<Vec<u8>, RunFault>
    ensures text { IfOk result (λ text. text.items ≡ (plain_report script.now).text) }
    ensures fine { OnOk result ((plain_report script.now).bad_line ≡ None) }
    ensures short { OnOk result (length script.now ≤ input_limit) }
    ensures bad_line { (number : ℕ) → result ≡ Err (BadLine number) → (plain_report script.now).bad_line ≡ Some number }
    ensures within { (number : ℕ) → result ≡ Err (BadLine number)
        → (limited_report plain_answer at_start script.now).bad_line ≡ Some number }
    ensures read { result ≡ Err Read → input_limit < length script.now }
    ensures written { result ≢ Err Write }
{
    let mut writer = ToWrite::new(Vec::new(alloc));
    match plain(alloc, &mut FromSlice::new(script), &mut writer) {
        Ok(()) => Ok(writer.into_inner()),
        Err(RunFault::Write) => Err(RunFault::Memory),
        Err(fault) => Err(fault),
    }
}
