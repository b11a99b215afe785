//! The lanes of a picture.

ghost use Rattle.std.specs.Prelude.{◌≡◌, ◌≤◌, ◌^◌, ◌++◌, OnOk, flat_map};
ghost use Rattle.cfdp_draw.specs.Lanes.{end_text, file_text, files_text, gap_text, id_text, lane_opening, lane_text, lane_name_text, phase_label, phase_shape, phases_text, received_text, span_of, title_text, top_of, until_file, until_phase};

use crate::axis::{AxisPosition, level_of, right_of, x_of};
use crate::chart::{FileChange, Lane, OctetRange, PhaseChange, Received};
use crate::mark_kinds::DrawnPhase;
use crate::marks::push_marks;
use crate::shapes::{
    Area, Point, close_text, open_text, push_label, push_line, push_number, push_rect,
};
use crate::words::{digits_of, push_labelled};
use cfdp_status::TransactionId;
use std::alloc::AllocError;

/// Where the lanes begin.
pub(crate) const TOP: u64 = 100;

/// How high a lane is.
pub(crate) const LANE: u64 = 92;

/// Where the band of a file is in a lane, and how high it is.
pub(crate) const BAND: u64 = 20;

pub(crate) const BAND_HEIGHT: u32 = 28;

/// Where the phases are in a lane, and how high they are.
pub(crate) const PHASES: u64 = 49;

pub(crate) const PHASE_HEIGHT: u64 = 13;

/// The room to the right of the time axis.
pub(crate) const MARGIN: u64 = 30;

/// A part of the time axis.
#[derive(Clone, Copy)]
struct Span {
    x: u64,
    width: u64,
}

/// The part of the time axis from a position to another.
#[tactic(auto, unfolding(crate::specs::Lanes::span_of))]
fn span_of(total: AxisPosition, from: AxisPosition, to: AxisPosition) -> Span
    ensures value { result ≡ span_of total from to }
    ensures most { result.x ≤ 2 ^ 40 }
{
    let x = x_of(total, from);
    Span {
        x,
        width: x_of(total, to).saturating_sub(x),
    }
}

/// Appends the name of a phase where there is room for it, or its first letter.
#[tactic(auto, unfolding(crate::specs::Lanes::phase_label))]
fn push_phase_label(phase: DrawnPhase, span: Span, text: &mut Vec<u8>) -> Result<(), AllocError>
    requires { span.x ≤ 2 ^ 40 }
    ensures { OnOk result (text.new.items ≡ text.old.items ++ phase_label phase span) }
{
    let point = Point {
        x: span.x + 3,
        y: 59,
    };
    if span.width >= 58 {
        push_label(b"kind", point, phase.words(), text)
    } else if span.width >= 11 {
        push_label(b"kind", point, phase.letter(), text)
    } else {
        Ok(())
    }
}

/// Appends a phase.
#[tactic(auto, unfolding(crate::specs::Lanes::phase_shape))]
fn push_phase(phase: Option<DrawnPhase>, span: Span, text: &mut Vec<u8>) -> Result<(), AllocError>
    requires { span.x ≤ 2 ^ 40 }
    ensures { OnOk result (text.new.items ≡ text.old.items ++ phase_shape phase span) }
{
    let Some(phase) = phase else {
        return Ok(());
    };
    let area = Area {
        x: span.x,
        y: PHASES,
        width: span.width,
        height: PHASE_HEIGHT,
    };
    push_rect(phase.words(), area, text)?;
    push_phase_label(phase, span, text)
}

/// Where a phase ends: where the next one begins.
fn until_phase(total: AxisPosition, rest: &[PhaseChange]) -> AxisPosition
    ensures { result ≡ until_phase total rest.now }
{
    match rest {
        [] => total,
        [next, ..] => next.at,
    }
}

/// Appends the phases of a transaction.
fn push_phases(
    total: AxisPosition,
    phases: &[PhaseChange],
    text: &mut Vec<u8>,
) -> Result<(), AllocError>
    ensures { OnOk result (text.new.items ≡ text.old.items ++ phases_text total phases.now) }
{
    let mut rest = phases;
    'phases: while let [change, others @ ..] = rest {
        let span = span_of(total, change.at, until_phase(total, others));
        push_phase(change.phase, span, text)?;
        rest = others;
    }
    Ok(())
}

/// Appends a gap. It is 1 pixel high at least.
#[tactic(auto, unfolding(crate::specs::Lanes::gap_text))]
fn push_gap(
    size: u64,
    end: u64,
    span: Span,
    gap: OctetRange,
    text: &mut Vec<u8>,
) -> Result<(), AllocError>
    ensures { OnOk result (text.new.items ≡ text.old.items ++ gap_text size end span gap) }
{
    if gap.0 >= end {
        return Ok(());
    }
    let low = level_of(BAND_HEIGHT, gap.0, size).min(27);
    let high = level_of(BAND_HEIGHT, gap.1.min(end), size).max(low + 1);
    let area = Area {
        x: span.x,
        y: 48 - high,
        width: span.width,
        height: high - low,
    };
    push_rect(b"gap", area, text)
}

/// Appends gaps.
fn push_gaps(
    size: u64,
    end: u64,
    span: Span,
    gaps: &[OctetRange],
    text: &mut Vec<u8>,
) -> Result<(), AllocError>
    ensures { OnOk result (text.new.items ≡ text.old.items ++ flat_map (gap_text size end span) gaps.now) }
{
    for gap in gaps {
        push_gap(size, end, span, *gap, text)?;
    }
    Ok(())
}

/// Appends the octets of a file that are there up to an offset.
#[tactic(auto, unfolding(crate::specs::Lanes::end_text))]
fn push_end(size: u64, end: u64, span: Span, text: &mut Vec<u8>) -> Result<(), AllocError>
    ensures { OnOk result (text.new.items ≡ text.old.items ++ end_text size end span) }
{
    if end == 0 {
        return Ok(());
    }
    let high = level_of(BAND_HEIGHT, end, size).max(1);
    let area = Area {
        x: span.x,
        y: 48 - high,
        width: span.width,
        height: high,
    };
    push_rect(b"file", area, text)
}

/// Appends what was received of a file.
#[tactic(auto, unfolding(crate::specs::Lanes::received_text))]
fn push_received(
    size: u64,
    span: Span,
    received: &Received,
    text: &mut Vec<u8>,
) -> Result<(), AllocError>
    ensures { OnOk result (text.new.items ≡ text.old.items ++ received_text size span received.now) }
{
    let area = Area {
        x: span.x,
        y: BAND,
        width: span.width,
        height: u64::from(BAND_HEIGHT),
    };
    push_rect(b"band", area, text)?;
    push_end(size, received.end, span, text)?;
    push_gaps(size, received.end, span, &received.gaps, text)
}

/// Where a change of a file ends: where the next one begins.
fn until_file(total: AxisPosition, rest: &[FileChange]) -> AxisPosition
    ensures { result ≡ until_file total rest.now }
{
    match rest {
        [] => total,
        [next, ..] => next.at,
    }
}

/// Appends what is there of a file.
fn push_file(
    size: u64,
    span: Span,
    change: &FileChange,
    text: &mut Vec<u8>,
) -> Result<(), AllocError>
    ensures { OnOk result (text.new.items ≡ text.old.items ++ file_text size span change.now.received) }
{
    match &change.received {
        None => Ok(()),
        Some(received) => push_received(size, span, received, text),
    }
}

/// Appends how a file fills.
fn push_files(
    total: AxisPosition,
    size: u64,
    files: &[FileChange],
    text: &mut Vec<u8>,
) -> Result<(), AllocError>
    ensures { OnOk result (text.new.items ≡ text.old.items ++ files_text total size files.now) }
{
    let mut rest = files;
    'files: while let [change, others @ ..] = rest {
        let span = span_of(total, change.at, until_file(total, others));
        push_file(size, span, change, text)?;
        rest = others;
    }
    Ok(())
}

/// Appends the name of a transaction.
#[tactic(auto, unfolding(crate::specs::Lanes::id_text))]
pub(crate) fn push_id(id: TransactionId, text: &mut Vec<u8>) -> Result<(), AllocError>
    ensures { OnOk result (text.new.items ≡ text.old.items ++ id_text id) }
{
    push_labelled(b"", id.source, text)?;
    push_labelled(b"/", id.number, text)
}

/// Appends the name of a transaction at the left of its lane: in two lines, and smaller, where it is long.
#[tactic(auto, unfolding(crate::specs::Lanes::title_text))]
fn push_title(id: TransactionId, text: &mut Vec<u8>) -> Result<(), AllocError>
    ensures { OnOk result (text.new.items ≡ text.old.items ++ title_text id) }
{
    if digits_of(id.source) + digits_of(id.number) > 12 {
        push_number(b"plain", Point { x: 10, y: 14 }, b"", id.source, text)?;
        return push_number(b"plain", Point { x: 10, y: 27 }, b"/", id.number, text);
    }
    open_text(b"id", Point { x: 10, y: 22 }, text)?;
    push_id(id, text)?;
    close_text(text)
}

/// Appends the name of a lane, and of its file, with its size.
#[tactic(auto, unfolding(crate::specs::Lanes::lane_name_text))]
fn push_name(lane: &Lane, text: &mut Vec<u8>) -> Result<(), AllocError>
    ensures { OnOk result (text.new.items ≡ text.old.items ++ lane_name_text lane.now) }
{
    let Some(id) = lane.id else {
        return push_label(b"id", Point { x: 10, y: 22 }, b"no transaction", text);
    };
    push_title(id, text)?;
    push_label(b"plain", Point { x: 10, y: 40 }, &lane.file, text)?;
    push_number(
        b"plain",
        Point { x: 10, y: 54 },
        b"octets: ",
        lane.size,
        text,
    )
}

/// Appends the beginning of a lane: where it is, and the line above it.
#[tactic(auto, unfolding(crate::specs::Lanes::lane_opening))]
fn open_lane(total: AxisPosition, index: u32, text: &mut Vec<u8>) -> Result<(), AllocError>
    ensures { OnOk result (text.new.items ≡ text.old.items ++ lane_opening total index) }
{
    push_labelled(b"<g transform=\"translate(0,", top_of(index), text)?;
    text.extend_from_slice(b")\">\n")?;
    push_line(Point { x: 0, y: 0 }, right_of(total) + MARGIN, text)
}

/// The top of a lane.
#[tactic(auto, unfolding(crate::specs::Lanes::top_of))]
pub(crate) fn top_of(lane: u32) -> u64
    ensures value { result ≡ top_of lane }
    ensures most { result ≤ 2 ^ 40 }
{
    TOP + LANE * u64::from(lane)
}

/// Appends a lane.
#[tactic(auto, unfolding(crate::specs::Lanes::lane_text))]
fn push_lane(total: AxisPosition, lane: &Lane, text: &mut Vec<u8>) -> Result<(), AllocError>
    ensures { OnOk result (text.new.items ≡ text.old.items ++ lane_text total lane.now) }
{
    open_lane(total, lane.index, text)?;
    push_name(lane, text)?;
    push_files(total, lane.size, &lane.files, text)?;
    push_phases(total, &lane.phases, text)?;
    push_marks(total, &lane.marks, text)?;
    text.extend_from_slice(b"</g>\n")
}

/// Appends lanes.
pub(crate) fn push_lanes(
    total: AxisPosition,
    lanes: &[Lane],
    text: &mut Vec<u8>,
) -> Result<(), AllocError>
    ensures { OnOk result (text.new.items ≡ text.old.items ++ flat_map (lane_text total) lanes.now) }
{
    for lane in lanes {
        push_lane(total, lane, text)?;
    }
    Ok(())
}
