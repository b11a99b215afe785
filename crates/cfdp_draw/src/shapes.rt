//! Elements of a picture.

ghost use Rattle.std.specs.Prelude.{◌≡◌, ◌++◌, OnOk};
ghost use Rattle.cfdp_draw.specs.Shapes.{area_text, grid_text, label_text, line_text, number_shape, rect_text, text_closing, text_opening};

use crate::words::{push_escaped, push_labelled};
use std::alloc::AllocError;

/// A part of the picture, in pixels.
#[derive(Clone, Copy)]
pub(crate) struct Area {
    pub x: u64,
    pub y: u64,
    pub width: u64,
    pub height: u64,
}

/// A point of the picture, in pixels.
#[derive(Clone, Copy)]
pub(crate) struct Point {
    pub x: u64,
    pub y: u64,
}

/// Appends the attributes of an area.
#[tactic(auto, unfolding(crate::specs::Shapes::area_text))]
fn push_area(area: Area, text: &mut Vec<u8>) -> Result<(), AllocError>
    ensures { OnOk result (text.new.items ≡ text.old.items ++ area_text area) }
{
    push_labelled(b"\" x=\"", area.x, text)?;
    push_labelled(b"\" y=\"", area.y, text)?;
    push_labelled(b"\" width=\"", area.width, text)?;
    push_labelled(b"\" height=\"", area.height, text)
}

/// Appends a rectangle.
#[tactic(auto, unfolding(crate::specs::Shapes::rect_text))]
pub(crate) fn push_rect(class: &[u8], area: Area, text: &mut Vec<u8>) -> Result<(), AllocError>
    ensures { OnOk result (text.new.items ≡ text.old.items ++ rect_text class.now area) }
{
    text.extend_from_slice(b"<rect class=\"")?;
    text.extend_from_slice(class)?;
    push_area(area, text)?;
    text.extend_from_slice(b"\"/>\n")
}

/// Appends the beginning of a text.
#[tactic(auto, unfolding(crate::specs::Shapes::text_opening))]
pub(crate) fn open_text(class: &[u8], point: Point, text: &mut Vec<u8>) -> Result<(), AllocError>
    ensures { OnOk result (text.new.items ≡ text.old.items ++ text_opening class.now point) }
{
    text.extend_from_slice(b"<text class=\"")?;
    text.extend_from_slice(class)?;
    push_labelled(b"\" x=\"", point.x, text)?;
    push_labelled(b"\" y=\"", point.y, text)?;
    text.extend_from_slice(b"\">")
}

/// Appends the end of a text.
pub(crate) fn close_text(text: &mut Vec<u8>) -> Result<(), AllocError>
    ensures { OnOk result (text.new.items ≡ text.old.items ++ text_closing) }
{
    text.extend_from_slice(b"</text>\n")
}

/// Appends a text.
#[tactic(auto, unfolding(crate::specs::Shapes::label_text))]
pub(crate) fn push_label(
    class: &[u8],
    point: Point,
    words: &[u8],
    text: &mut Vec<u8>,
) -> Result<(), AllocError>
    ensures { OnOk result (text.new.items ≡ text.old.items ++ label_text class.now point words.now) }
{
    open_text(class, point, text)?;
    push_escaped(words, text)?;
    close_text(text)
}

/// Appends a number as a text, with a label before it.
#[tactic(auto, unfolding(crate::specs::Shapes::number_shape))]
pub(crate) fn push_number(
    class: &[u8],
    point: Point,
    label: &[u8],
    number: u64,
    text: &mut Vec<u8>,
) -> Result<(), AllocError>
    ensures { OnOk result (text.new.items ≡ text.old.items ++ number_shape class.now point label.now number) }
{
    open_text(class, point, text)?;
    push_labelled(label, number, text)?;
    close_text(text)
}

/// Appends a line from one end of the picture to the other.
#[tactic(auto, unfolding(crate::specs::Shapes::line_text))]
pub(crate) fn push_line(from: Point, to: u64, text: &mut Vec<u8>) -> Result<(), AllocError>
    ensures { OnOk result (text.new.items ≡ text.old.items ++ line_text from to) }
{
    push_labelled(b"<path class=\"line\" d=\"M", from.x, text)?;
    push_labelled(b" ", from.y, text)?;
    push_labelled(b"H", to, text)?;
    text.extend_from_slice(b"\"/>\n")
}

/// Appends a line that goes down.
#[tactic(auto, unfolding(crate::specs::Shapes::grid_text))]
pub(crate) fn push_grid(from: Point, to: u64, text: &mut Vec<u8>) -> Result<(), AllocError>
    ensures { OnOk result (text.new.items ≡ text.old.items ++ grid_text from to) }
{
    push_labelled(b"<path class=\"grid\" d=\"M", from.x, text)?;
    push_labelled(b" ", from.y, text)?;
    push_labelled(b"V", to, text)?;
    text.extend_from_slice(b"\"/>\n")
}
