//! The blocks of the filestore, below the lanes of a picture.

ghost use Rattle.std.specs.Prelude.{◌≡◌, ◌++◌, OnOk, flat_map};
ghost use Rattle.cfdp_draw.specs.Blocks.{amount, blocks_text, colour_text, level_text, line_opening, blocks_meaning, path_text, scale_text, step_text};

use crate::axis::{AxisPosition, LEFT, level_of, right_of, x_of};
use crate::chart::{Blocks, Chart, Moment};
use crate::lanes::MARGIN;
use crate::shapes::{Area, Point, push_label, push_line, push_number, push_rect};
use crate::words::push_labelled;
use std::alloc::AllocError;

/// How high the blocks are.
pub(crate) const HEIGHT: u32 = 80;

/// Where no block is, below the lanes.
pub(crate) const BASE: u64 = 114;

/// Which of the two lines of the blocks.
#[derive(Clone, Copy)]
pub(crate) enum Line {
    /// The blocks in use.
    Used,
    /// These and those that are reserved.
    Taken,
}

/// The beginning of a line, with its class.
#[tactic(auto, unfolding(crate::specs::Blocks::line_opening))]
fn line_opening(line: Line) -> &'static [u8]
    ensures { result.now ≡ line_opening line }
{
    match line {
        Line::Used => b"<path class=\"used\" d=\"M150 114",
        Line::Taken => b"<path class=\"reserved\" d=\"M150 114",
    }
}

/// How many blocks a line shows.
#[tactic(auto, unfolding(crate::specs::Blocks::amount))]
fn amount(line: Line, blocks: Blocks) -> u64
    ensures { result ≡ amount line blocks }
{
    match line {
        Line::Used => u64::from(blocks.used),
        Line::Taken => u64::from(blocks.used) + u64::from(blocks.reserved),
    }
}

/// Appends how high a line is from here on.
#[tactic(auto, unfolding(crate::specs::Blocks::level_text))]
fn push_level(line: Line, size: u32, blocks: Blocks, text: &mut Vec<u8>) -> Result<(), AllocError>
    ensures { OnOk result (text.new.items ≡ text.old.items ++ level_text line size blocks) }
{
    let high = level_of(HEIGHT, amount(line, blocks), u64::from(size));
    push_labelled(b"V", BASE - high, text)
}

/// Appends a step of a line: it goes to a moment, and from there on it is as high as the blocks are after it.
#[tactic(auto, unfolding(crate::specs::Blocks::step_text))]
fn push_step(
    line: Line,
    total: AxisPosition,
    size: u32,
    moment: Moment,
    text: &mut Vec<u8>,
) -> Result<(), AllocError>
    ensures { OnOk result (text.new.items ≡ text.old.items ++ step_text line total size moment) }
{
    push_labelled(b"H", x_of(total, moment.at), text)?;
    push_level(line, size, moment.blocks, text)
}

/// Appends the steps of a line.
fn push_steps(
    line: Line,
    total: AxisPosition,
    size: u32,
    moments: &[Moment],
    text: &mut Vec<u8>,
) -> Result<(), AllocError>
    ensures { OnOk result (text.new.items ≡ text.old.items ++ flat_map (step_text line total size) moments.now) }
{
    for moment in moments {
        push_step(line, total, size, *moment, text)?;
    }
    Ok(())
}

/// Appends a line of the blocks.
#[tactic(auto, unfolding(crate::specs::Blocks::path_text))]
fn push_path(line: Line, chart: &Chart, text: &mut Vec<u8>) -> Result<(), AllocError>
    ensures { OnOk result (text.new.items ≡ text.old.items ++ path_text line chart.now) }
{
    text.extend_from_slice(line_opening(line))?;
    push_level(line, chart.size, chart.first, text)?;
    push_steps(line, chart.here, chart.size, &chart.moments, text)?;
    push_labelled(b"H", right_of(chart.here), text)?;
    text.extend_from_slice(b"V114z\"/>\n")
}

/// Appends what the blocks are measured by: the size of the filestore is the upper line.
#[tactic(auto, unfolding(crate::specs::Blocks::scale_text))]
fn push_scale(total: AxisPosition, size: u32, text: &mut Vec<u8>) -> Result<(), AllocError>
    ensures { OnOk result (text.new.items ≡ text.old.items ++ scale_text total size) }
{
    push_label(b"plain", Point { x: 10, y: 15 }, b"time", text)?;
    push_line(Point { x: LEFT, y: 34 }, right_of(total), text)?;
    push_line(Point { x: LEFT, y: BASE }, right_of(total), text)?;
    push_number(
        b"end",
        Point { x: 144, y: 38 },
        b"of ",
        u64::from(size),
        text,
    )?;
    push_number(b"end", Point { x: 144, y: 118 }, b"", 0, text)
}

/// Appends a line's colour, and what it means.
#[tactic(auto, unfolding(crate::specs::Blocks::colour_text))]
fn push_colour(words: &[u8], y: u32, text: &mut Vec<u8>) -> Result<(), AllocError>
    ensures { OnOk result (text.new.items ≡ text.old.items ++ colour_text words.now y) }
{
    let y = u64::from(y);
    let area = Area {
        x: 10,
        y,
        width: 12,
        height: 10,
    };
    push_rect(words, area, text)?;
    push_label(b"plain", Point { x: 27, y: y + 9 }, words, text)
}

/// Appends what the lines mean, and the most blocks that were taken.
#[tactic(auto, unfolding(crate::specs::Blocks::blocks_meaning))]
fn push_meaning(most: u32, text: &mut Vec<u8>) -> Result<(), AllocError>
    ensures { OnOk result (text.new.items ≡ text.old.items ++ blocks_meaning most) }
{
    push_label(b"id", Point { x: 10, y: 52 }, b"blocks", text)?;
    push_colour(b"used", 60, text)?;
    push_colour(b"reserved", 76, text)?;
    push_number(
        b"plain",
        Point { x: 10, y: 103 },
        b"both, at most: ",
        u64::from(most),
        text,
    )
}

/// Appends the blocks of the filestore, below the lanes.
#[tactic(auto, unfolding(crate::specs::Blocks::blocks_text))]
pub(crate) fn push_blocks(chart: &Chart, bottom: u64, text: &mut Vec<u8>) -> Result<(), AllocError>
    ensures { OnOk result (text.new.items ≡ text.old.items ++ blocks_text chart.now bottom) }
{
    push_labelled(b"<g transform=\"translate(0,", bottom, text)?;
    text.extend_from_slice(b")\">\n")?;
    push_line(Point { x: 0, y: 0 }, right_of(chart.here) + MARGIN, text)?;
    push_path(Line::Taken, chart, text)?;
    push_path(Line::Used, chart, text)?;
    push_scale(chart.here, chart.size, text)?;
    push_meaning(chart.most, text)?;
    text.extend_from_slice(b"</g>\n")
}
