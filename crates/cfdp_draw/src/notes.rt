//! The notes of a picture: what is refused, faulted or dropped, in words.

ghost use Rattle.std.specs.Prelude.{◌≡◌, ◌≤◌, ◌^◌, ◌++◌, OnOk, flat_map};
ghost use Rattle.cfdp_draw.specs.Notes.{ending_text, note_lines, note_text, notes_text, others_text, pointer_text, said_text, whose_text, why_text};

use crate::axis::{AxisPosition, x_of};
use crate::chart::{Chart, MOST_NOTES, Note};
use crate::lanes::{push_id, top_of};
use crate::shapes::{Point, close_text, open_text, push_label, push_number};
use crate::words::{push_escaped, push_labelled};
use cfdp_status::TransactionId;
use std::alloc::AllocError;

/// How high a line of words is.
pub(crate) const LINE: u64 = 16;

/// Appends the number of a note in its lane.
#[tactic(auto, unfolding(crate::specs::Notes::pointer_text))]
fn push_pointer(total: AxisPosition, note: &Note, text: &mut Vec<u8>) -> Result<(), AllocError>
    ensures { OnOk result (text.new.items ≡ text.old.items ++ pointer_text total note.now) }
{
    let point = Point {
        x: x_of(total, note.at),
        y: top_of(note.lane) + 89,
    };
    push_number(b"note", point, b"", u64::from(note.number), text)
}

/// Appends the numbers of notes in their lanes.
pub(crate) fn push_pointers(
    total: AxisPosition,
    notes: &[Note],
    text: &mut Vec<u8>,
) -> Result<(), AllocError>
    ensures { OnOk result (text.new.items ≡ text.old.items ++ flat_map (pointer_text total) notes.now) }
{
    for note in notes {
        push_pointer(total, note, text)?;
    }
    Ok(())
}

/// Appends the transaction of a note.
fn push_whose(id: Option<TransactionId>, text: &mut Vec<u8>) -> Result<(), AllocError>
    ensures { OnOk result (text.new.items ≡ text.old.items ++ whose_text id) }
{
    match id {
        None => Ok(()),
        Some(id) => {
            text.extend_from_slice(b", ")?;
            push_id(id, text)
        }
    }
}

/// Appends the words of a note, after its time and its transaction.
#[tactic(auto, unfolding(crate::specs::Notes::said_text))]
fn push_said(note: &Note, y: u64, text: &mut Vec<u8>) -> Result<(), AllocError>
    ensures { OnOk result (text.new.items ≡ text.old.items ++ said_text note.now y) }
{
    open_text(b"plain", Point { x: 40, y }, text)?;
    push_labelled(b"at ", note.time, text)?;
    push_whose(note.id, text)?;
    text.extend_from_slice(b": ")?;
    push_escaped(&note.words, text)?;
    close_text(text)
}

/// Appends the line of a note.
#[tactic(auto, unfolding(crate::specs::Notes::note_text))]
fn push_note(note: &Note, text: &mut Vec<u8>) -> Result<(), AllocError>
    ensures { OnOk result (text.new.items ≡ text.old.items ++ note_text note.now) }
{
    let y = LINE * u64::from(note.number);
    push_number(
        b"note",
        Point { x: 10, y },
        b"",
        u64::from(note.number),
        text,
    )?;
    push_said(note, y, text)
}

/// Appends the lines of notes.
fn push_each(notes: &[Note], text: &mut Vec<u8>) -> Result<(), AllocError>
    ensures { OnOk result (text.new.items ≡ text.old.items ++ flat_map note_text notes.now) }
{
    for note in notes {
        push_note(note, text)?;
    }
    Ok(())
}

/// Appends how many notes are not written out.
#[tactic(auto, unfolding(crate::specs::Notes::others_text))]
fn push_others(others: u32, y: u64, text: &mut Vec<u8>) -> Result<(), AllocError>
    ensures { OnOk result (text.new.items ≡ text.old.items ++ others_text others y) }
{
    if others == 0 {
        return Ok(());
    }
    push_number(
        b"note",
        Point { x: 10, y },
        b"notes that are left out: ",
        u64::from(others),
        text,
    )
}

/// Appends that the run ended early, and why.
#[tactic(auto, unfolding(crate::specs::Notes::why_text))]
fn push_why(why: &[u8], y: u64, text: &mut Vec<u8>) -> Result<(), AllocError>
    ensures { OnOk result (text.new.items ≡ text.old.items ++ why_text why.now y) }
{
    push_label(b"note", Point { x: 10, y }, b"The run ends early:", text)?;
    push_label(b"note", Point { x: 160, y }, why, text)
}

/// Appends why the run ended early, if it did.
#[tactic(auto, unfolding(crate::specs::Notes::ending_text))]
fn push_ending(ending: &[u8], y: u64, text: &mut Vec<u8>) -> Result<(), AllocError>
    ensures { OnOk result (text.new.items ≡ text.old.items ++ ending_text ending.now y) }
{
    if ending.is_empty() {
        return Ok(());
    }
    push_why(ending, y, text)
}

/// How many lines of notes there are.
#[tactic(auto, unfolding(crate::specs::Notes::note_lines))]
pub(crate) fn lines_of(notes: &[Note]) -> u64
    ensures value { result ≡ note_lines notes.now }
    ensures most { result ≤ 99 }
{
    notes.len().min(MOST_NOTES) as u64
}

/// Appends the notes in words, below the blocks.
#[tactic(auto, unfolding(crate::specs::Notes::notes_text))]
pub(crate) fn push_notes(chart: &Chart, top: u64, text: &mut Vec<u8>) -> Result<(), AllocError>
    ensures { OnOk result (text.new.items ≡ text.old.items ++ notes_text chart.now top) }
{
    let end = LINE * lines_of(&chart.notes);
    push_labelled(b"<g transform=\"translate(0,", top, text)?;
    text.extend_from_slice(b")\">\n")?;
    push_each(&chart.notes, text)?;
    push_others(chart.others, end + 16, text)?;
    push_ending(&chart.ending, end + 32, text)?;
    text.extend_from_slice(b"</g>\n")
}
