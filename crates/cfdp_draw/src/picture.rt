//! A whole picture.

ghost use Rattle.std.specs.Prelude.{◌≡◌, ◌≤◌, ◌^◌, ◌++◌, OnOk};
ghost use Rattle.cfdp_draw.specs.Picture.{bottom_of, height_of, picture_text, plot_text};

use crate::axis::right_of;
use crate::blocks::{BASE, push_blocks};
use crate::chart::{Chart, Lane, MOST_LANES};
use crate::lanes::{LANE, MARGIN, TOP, push_lanes};
use crate::legend::{open_picture, push_legend};
use crate::notes::{LINE, lines_of, push_notes, push_pointers};
use crate::times::push_times;
use std::alloc::AllocError;

/// Where the lanes end.
#[tactic(auto, unfolding(crate::specs::Picture::bottom_of))]
fn bottom_of(lanes: &[Lane]) -> u64
    ensures value { result ≡ bottom_of lanes.now }
    ensures most { result ≤ 5988 }
{
    TOP + LANE * lanes.len().min(MOST_LANES) as u64
}

/// How high a picture is.
#[tactic(auto, unfolding(crate::specs::Picture::height_of))]
fn height_of(chart: &Chart) -> u64
    ensures { result ≡ height_of chart.now }
{
    bottom_of(&chart.lanes) + BASE + LINE * lines_of(&chart.notes) + 52
}

/// Appends what is above the notes.
#[tactic(auto, unfolding(crate::specs::Picture::plot_text))]
fn push_plot(chart: &Chart, text: &mut Vec<u8>) -> Result<(), AllocError>
    ensures { OnOk result (text.new.items ≡ text.old.items ++ plot_text chart.now) }
{
    let bottom = bottom_of(&chart.lanes);
    push_times(chart.here, bottom, &chart.moments, text)?;
    push_lanes(chart.here, &chart.lanes, text)?;
    push_pointers(chart.here, &chart.notes, text)?;
    push_blocks(chart, bottom, text)
}

impl Chart {
    /// Appends the picture, in SVG 1.1: its octets are ASCII, and it needs no other file. It is 1,200 pixels
    /// wide, or wider where its moments do not fit.
    ///
    /// # Errors
    ///
    /// [`AllocError`] when out of memory: a part of the picture may have been appended. Cost: the octets of the
    /// picture.
    #[tactic(auto, unfolding(crate::specs::Picture::picture_text))]
    pub fn write(&self, text: &mut Vec<u8>) -> Result<(), AllocError>
        ensures { OnOk result (text.new.items ≡ text.old.items ++ picture_text self.now) }
    {
        open_picture(
            right_of(self.here) + MARGIN,
            height_of(self),
            &self.title,
            text,
        )?;
        push_legend(text)?;
        push_plot(self, text)?;
        push_notes(self, bottom_of(&self.lanes) + BASE + 14, text)?;
        text.extend_from_slice(b"</svg>\n")
    }
}
