//! The marks of a picture.

ghost use Rattle.std.specs.Prelude.{◌≡◌, ◌++◌, OnOk, flat_map};
ghost use Rattle.cfdp_draw.specs.Marks.{cross_text, is_in_words, kind_text, letter_text, mark_opening, mark_text, mark_height, shape_text, words_text};

use crate::axis::{AxisPosition, has_data_words, has_words, x_of};
use crate::chart::Mark;
use crate::mark_kinds::{Direction, MarkKind};
use crate::shapes::Point;
use crate::words::{push_escaped, push_labelled};
use std::alloc::AllocError;

/// Whether marks of a kind have it in words.
#[tactic(auto, unfolding(crate::specs::Marks::is_in_words))]
fn is_named(total: AxisPosition, kind: MarkKind) -> bool
    ensures { result ≡ is_in_words total kind }
{
    match kind {
        MarkKind::FileData => has_data_words(total),
        _ => has_words(total),
    }
}

/// Appends the letter in a mark.
#[tactic(auto, unfolding(crate::specs::Marks::letter_text))]
fn push_letter(kind: MarkKind, text: &mut Vec<u8>) -> Result<(), AllocError>
    ensures { OnOk result (text.new.items ≡ text.old.items ++ letter_text kind) }
{
    text.extend_from_slice(b"<text class=\"letter\" x=\"7\" y=\"10\">")?;
    text.extend_from_slice(kind.letter())?;
    text.extend_from_slice(b"</text>")
}

/// Appends the cross of a mark that is dropped.
#[tactic(auto, unfolding(crate::specs::Marks::cross_text))]
fn push_cross(direction: Direction, text: &mut Vec<u8>) -> Result<(), AllocError>
    ensures { OnOk result (text.new.items ≡ text.old.items ++ cross_text direction) }
{
    match direction {
        Direction::Dropped => {
            text.extend_from_slice(b"<path class=\"cross\" d=\"M1 0l12 13M13 0l-12 13\"/>")
        }
        Direction::Came | Direction::Sent => Ok(()),
    }
}

/// Appends a kind in words.
#[tactic(auto, unfolding(crate::specs::Marks::words_text))]
fn push_words(kind: MarkKind, text: &mut Vec<u8>) -> Result<(), AllocError>
    ensures { OnOk result (text.new.items ≡ text.old.items ++ words_text kind) }
{
    text.extend_from_slice(b"<text class=\"kind\" x=\"17\" y=\"11\">")?;
    text.extend_from_slice(kind.words())?;
    text.extend_from_slice(b"</text>")
}

/// Appends the kind of a mark in words, where it has them.
#[tactic(auto, unfolding(crate::specs::Marks::kind_text))]
fn push_kind(named: bool, kind: MarkKind, text: &mut Vec<u8>) -> Result<(), AllocError>
    ensures { OnOk result (text.new.items ≡ text.old.items ++ kind_text named kind) }
{
    if named {
        push_words(kind, text)
    } else {
        Ok(())
    }
}

/// Appends the outline of a mark, with its letter, its cross and its kind in words.
#[tactic(auto, unfolding(crate::specs::Marks::shape_text))]
pub(crate) fn push_shape(
    named: bool,
    kind: MarkKind,
    direction: Direction,
    text: &mut Vec<u8>,
) -> Result<(), AllocError>
    ensures { OnOk result (text.new.items ≡ text.old.items ++ shape_text named kind direction) }
{
    text.extend_from_slice(b"<path d=\"")?;
    text.extend_from_slice(kind.outline())?;
    text.extend_from_slice(b"\"/>")?;
    push_letter(kind, text)?;
    push_cross(direction, text)?;
    push_kind(named, kind, text)?;
    text.extend_from_slice(b"</g>\n")
}

/// Appends the beginning of a mark: which way it goes, and where it is.
#[tactic(auto, unfolding(crate::specs::Marks::mark_opening))]
pub(crate) fn open_mark(
    direction: Direction,
    point: Point,
    text: &mut Vec<u8>,
) -> Result<(), AllocError>
    ensures { OnOk result (text.new.items ≡ text.old.items ++ mark_opening direction point) }
{
    push_labelled(direction.opening(), point.x, text)?;
    push_labelled(b",", point.y, text)?;
    text.extend_from_slice(b")\">")
}

/// Where the marks of a way are in a lane.
fn row_of(direction: Direction) -> u64
    ensures { result ≡ mark_height direction }
{
    match direction {
        Direction::Came | Direction::Dropped => 4,
        Direction::Sent => 64,
    }
}

/// Appends a mark.
#[tactic(auto, unfolding(crate::specs::Marks::mark_text))]
fn push_mark(total: AxisPosition, mark: &Mark, text: &mut Vec<u8>) -> Result<(), AllocError>
    ensures { OnOk result (text.new.items ≡ text.old.items ++ mark_text total mark.now) }
{
    let point = Point {
        x: x_of(total, mark.at),
        y: row_of(mark.direction),
    };
    open_mark(mark.direction, point, text)?;
    text.extend_from_slice(b"<title>")?;
    push_escaped(&mark.words, text)?;
    text.extend_from_slice(b"</title>")?;
    push_shape(is_named(total, mark.kind), mark.kind, mark.direction, text)
}

/// Appends marks.
pub(crate) fn push_marks(
    total: AxisPosition,
    marks: &[Mark],
    text: &mut Vec<u8>,
) -> Result<(), AllocError>
    ensures { OnOk result (text.new.items ≡ text.old.items ++ flat_map (mark_text total) marks.now) }
{
    for mark in marks {
        push_mark(total, mark, text)?;
    }
    Ok(())
}
