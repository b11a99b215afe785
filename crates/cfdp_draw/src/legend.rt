//! What a picture begins with: its style, its title, and what its marks and colours mean.

ghost use Rattle.std.specs.Prelude.{◌≡◌, ◌≤◌, ◌++◌, OnOk, flat_map};
ghost use Rattle.cfdp_draw.specs.Legend.{band_entry, band_meanings, colour_entry, ground_text, kind_entry, legend_text, opening_text, phase_entry, size_text, way_entry, way_meanings};

use crate::mark_kinds::{Direction, DrawnPhase, MarkKind};
use crate::marks::{open_mark, push_shape};
use crate::shapes::{Area, Point, push_label, push_rect};
use crate::words::push_labelled;
use std::alloc::AllocError;

/// What comes before the size of a picture.
pub(crate) const FIRST: &[u8] = b"<?xml version=\"1.0\" encoding=\"US-ASCII\"?>\n\
<svg xmlns=\"http://www.w3.org/2000/svg\" version=\"1.1";

/// The style of a picture, and the patterns of its gaps and of reserved blocks.
pub(crate) const STYLE: &[u8] = b"\">\n<style type=\"text/css\">\n\
text{font-family:Helvetica,Arial,\"DejaVu Sans\",sans-serif;font-size:11px;fill:#222}\n\
.title{font-size:16px;font-weight:bold}\n\
.id{font-size:14px;font-weight:bold}\n\
.end{text-anchor:end}\n\
.letter{font-size:10px;font-weight:bold;text-anchor:middle}\n\
.kind{font-size:10px}\n\
.note{font-weight:bold;fill:#a03000}\n\
.came path{fill:#fff;stroke:#222}\n\
.dropped path{fill:#fff;stroke:#777}\n\
.sent path{fill:#222;stroke:#222}\n\
.sent .letter{fill:#fff}\n\
.dropped .cross{fill:none;stroke:#c04000;stroke-width:1.4}\n\
.held{fill:#e69f00}\n\
.receiving{fill:#8cc8ee}\n\
.awaiting{fill:#f0e442}\n\
.waiting{fill:#d9a0c0}\n\
.closed{fill:#c8c8c8}\n\
.band{fill:#e8eef3}\n\
.file{fill:#0072b2}\n\
.gap{fill:url(#gap)}\n\
.used{fill:#0072b2}\n\
.reserved{fill:url(#reserved);stroke:#333}\n\
.line{fill:none;stroke:#999}\n\
.grid{fill:none;stroke:#d5d5d5}\n\
</style>\n\
<defs>\n\
<pattern id=\"gap\" width=\"6\" height=\"6\" patternUnits=\"userSpaceOnUse\">\
<path fill=\"#fff\" d=\"M0 0h6v6h-6z\"/>\
<path stroke=\"#c04000\" stroke-width=\"1.6\" d=\"M-1 1l2-2M0 6l6-6M5 7l2-2\"/></pattern>\n\
<pattern id=\"reserved\" width=\"6\" height=\"6\" patternUnits=\"userSpaceOnUse\">\
<path fill=\"#fff\" d=\"M0 0h6v6h-6z\"/><path stroke=\"#666\" stroke-width=\".8\" d=\"M0 6l6-6\"/></pattern>\n\
</defs>\n\
<path fill=\"#fff\" d=\"M0 0h";

/// What the band of a file shows.
pub(crate) const FILE: &[u8] = b"octets of the file that are there, the first at the bottom";

/// Each way, and where it is in the legend.
const WAYS: [(Direction, u64); 3] = [
    (Direction::Came, 44),
    (Direction::Sent, 104),
    (Direction::Dropped, 188),
];

/// Each kind, and where it is in the legend.
const KINDS: [(MarkKind, u64); 11] = [
    (MarkKind::Metadata, 230),
    (MarkKind::FileData, 312),
    (MarkKind::Eof, 392),
    (MarkKind::Nak, 444),
    (MarkKind::Ack, 496),
    (MarkKind::Finished, 548),
    (MarkKind::KeepAlive, 630),
    (MarkKind::Prompt, 724),
    (MarkKind::NoPdu, 792),
    (MarkKind::Timer, 862),
    (MarkKind::Cancel, 926),
];

/// Each phase, and where it is in the legend.
const PHASES: [(DrawnPhase, u32); 5] = [
    (DrawnPhase::Held, 10),
    (DrawnPhase::Receiving, 86),
    (DrawnPhase::Awaiting, 162),
    (DrawnPhase::Waiting, 238),
    (DrawnPhase::Closed, 314),
];

/// Appends a way of the legend: an EOF PDU that goes this way.
#[tactic(auto, unfolding(crate::specs::Legend::way_entry))]
fn push_direction(direction: Direction, x: u64, text: &mut Vec<u8>) -> Result<(), AllocError>
    ensures { OnOk result (text.new.items ≡ text.old.items ++ way_entry (direction, x)) }
{
    open_mark(direction, Point { x, y: 42 }, text)?;
    push_shape(false, MarkKind::Eof, direction, text)
}

/// Appends a kind of the legend.
#[tactic(auto, unfolding(crate::specs::Legend::kind_entry))]
fn push_kind(kind: MarkKind, x: u64, text: &mut Vec<u8>) -> Result<(), AllocError>
    ensures { OnOk result (text.new.items ≡ text.old.items ++ kind_entry (kind, x)) }
{
    open_mark(Direction::Came, Point { x, y: 42 }, text)?;
    push_shape(true, kind, Direction::Came, text)
}

/// Appends a colour of the legend.
#[tactic(auto, unfolding(crate::specs::Legend::colour_entry))]
fn push_colour(class: &[u8], x: u64, width: u64, text: &mut Vec<u8>) -> Result<(), AllocError>
    ensures { OnOk result (text.new.items ≡ text.old.items ++ colour_entry class.now x width) }
{
    let area = Area {
        x,
        y: 66,
        width,
        height: 13,
    };
    push_rect(class, area, text)
}

/// Appends the ways of the legend.
fn push_directions(entries: &[(Direction, u64)], text: &mut Vec<u8>) -> Result<(), AllocError>
    ensures { OnOk result (text.new.items ≡ text.old.items ++ flat_map way_entry entries.now) }
{
    for entry in entries {
        push_direction(entry.0, entry.1, text)?;
    }
    Ok(())
}

/// Appends the kinds of the legend.
fn push_kinds(entries: &[(MarkKind, u64)], text: &mut Vec<u8>) -> Result<(), AllocError>
    ensures { OnOk result (text.new.items ≡ text.old.items ++ flat_map kind_entry entries.now) }
{
    for entry in entries {
        push_kind(entry.0, entry.1, text)?;
    }
    Ok(())
}

/// Appends a phase of the legend.
#[tactic(auto, unfolding(crate::specs::Legend::phase_entry))]
fn push_phase(phase: DrawnPhase, x: u32, text: &mut Vec<u8>) -> Result<(), AllocError>
    ensures { OnOk result (text.new.items ≡ text.old.items ++ phase_entry (phase, x)) }
{
    let x = u64::from(x);
    push_colour(phase.words(), x, 70, text)?;
    push_label(b"kind", Point { x: x + 3, y: 76 }, phase.words(), text)
}

/// Appends the phases of the legend.
fn push_phases(entries: &[(DrawnPhase, u32)], text: &mut Vec<u8>) -> Result<(), AllocError>
    ensures { OnOk result (text.new.items ≡ text.old.items ++ flat_map phase_entry entries.now) }
{
    for entry in entries {
        push_phase(entry.0, entry.1, text)?;
    }
    Ok(())
}

/// Appends what the ways mean.
#[tactic(auto, unfolding(crate::specs::Legend::way_meanings))]
fn push_way_meanings(text: &mut Vec<u8>) -> Result<(), AllocError>
    ensures { OnOk result (text.new.items ≡ text.old.items ++ way_meanings) }
{
    push_label(b"plain", Point { x: 10, y: 53 }, b"came", text)?;
    push_label(b"plain", Point { x: 74, y: 53 }, b"sent", text)?;
    push_label(b"plain", Point { x: 134, y: 53 }, b"dropped", text)
}

/// Appends a colour of a band, and what it means.
#[tactic(auto, unfolding(crate::specs::Legend::band_entry))]
fn push_band(class: &[u8], x: u64, words: &[u8], text: &mut Vec<u8>) -> Result<(), AllocError>
    requires { x ≤ 1000 }
    ensures { OnOk result (text.new.items ≡ text.old.items ++ band_entry class.now x words.now) }
{
    push_colour(class, x, 24, text)?;
    push_label(b"plain", Point { x: x + 30, y: 77 }, words, text)
}

/// Appends what the bands mean.
#[tactic(auto, unfolding(crate::specs::Legend::band_meanings))]
fn push_band_meanings(text: &mut Vec<u8>) -> Result<(), AllocError>
    ensures { OnOk result (text.new.items ≡ text.old.items ++ band_meanings) }
{
    push_band(b"file", 420, FILE, text)?;
    push_band(b"gap", 850, b"gap", text)?;
    push_band(b"band", 930, b"not there yet", text)
}

/// Appends the legend.
#[tactic(auto, unfolding(crate::specs::Legend::legend_text))]
pub(crate) fn push_legend(text: &mut Vec<u8>) -> Result<(), AllocError>
    ensures { OnOk result (text.new.items ≡ text.old.items ++ legend_text) }
{
    push_way_meanings(text)?;
    push_directions(&WAYS, text)?;
    push_kinds(&KINDS, text)?;
    push_phases(&PHASES, text)?;
    push_band_meanings(text)
}

/// Appends the size of a picture.
#[tactic(auto, unfolding(crate::specs::Legend::size_text))]
fn push_size(width: u64, height: u64, text: &mut Vec<u8>) -> Result<(), AllocError>
    ensures { OnOk result (text.new.items ≡ text.old.items ++ size_text width height) }
{
    text.extend_from_slice(FIRST)?;
    push_labelled(b"\" width=\"", width, text)?;
    push_labelled(b"\" height=\"", height, text)
}

/// Appends the style of a picture, and its ground.
#[tactic(auto, unfolding(crate::specs::Legend::ground_text))]
fn push_ground(width: u64, height: u64, text: &mut Vec<u8>) -> Result<(), AllocError>
    ensures { OnOk result (text.new.items ≡ text.old.items ++ ground_text width height) }
{
    text.extend_from_slice(STYLE)?;
    push_labelled(b"", width, text)?;
    push_labelled(b"v", height, text)?;
    text.extend_from_slice(b"H0z\"/>\n")
}

/// Appends the beginning of a picture: its size, its style, and its title.
#[tactic(auto, unfolding(crate::specs::Legend::opening_text))]
pub(crate) fn open_picture(
    width: u64,
    height: u64,
    title: &[u8],
    text: &mut Vec<u8>,
) -> Result<(), AllocError>
    ensures { OnOk result (text.new.items ≡ text.old.items ++ opening_text width height title.now) }
{
    push_size(width, height, text)?;
    push_ground(width, height, text)?;
    push_label(b"title", Point { x: 10, y: 26 }, title, text)
}
