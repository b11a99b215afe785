//! The times of a picture.

ghost use Rattle.std.specs.Prelude.{◌≡◌, ◌≤◌, ◌^◌, ◌++◌, OnOk, length, decimal, min, Option, None};
ghost use Rattle.cfdp_draw.specs.Times.{free_after, is_time_written, time_text, times_text};

use crate::axis::{AxisPosition, x_of};
use crate::blocks::BASE;
use crate::chart::Moment;
use crate::lanes::TOP;
use crate::shapes::{Point, push_grid, push_number};
use crate::words::digits_of;
use std::alloc::AllocError;

/// Where the next time may be after the one at `x`.
#[tactic(auto, unfolding(crate::specs::Times::free_after))]
fn free_after(x: u64, time: u64) -> u64
    requires { x ≤ 2 ^ 40 }
    ensures { result ≡ free_after x time }
{
    x + 7 * digits_of(time) + 10
}

/// Whether the time of a moment is written at `x`: it is another one than the last, and there is room.
#[tactic(auto, unfolding(crate::specs::Times::is_time_written))]
fn is_time_written(free: u64, last: Option<u64>, x: u64, time: u64) -> bool
    ensures { result ≡ is_time_written free last x time }
{
    let other = match last {
        None => true,
        Some(last) => last != time,
    };
    other && free <= x
}

/// Appends a time below the lanes, and a line from there to their top.
#[tactic(auto, unfolding(crate::specs::Times::time_text))]
fn push_time(bottom: u64, x: u64, time: u64, text: &mut Vec<u8>) -> Result<(), AllocError>
    requires { bottom ≤ 2 ^ 40 }
    ensures { OnOk result (text.new.items ≡ text.old.items ++ time_text bottom x time) }
{
    push_grid(Point { x, y: TOP }, bottom + BASE, text)?;
    push_number(b"plain", Point { x, y: bottom + 15 }, b"", time, text)
}

/// Appends the times of moments, where there is room for them.
pub(crate) fn push_times(
    total: AxisPosition,
    bottom: u64,
    moments: &[Moment],
    text: &mut Vec<u8>,
) -> Result<(), AllocError>
    requires { bottom ≤ 2 ^ 40 }
    ensures { OnOk result (text.new.items ≡ text.old.items ++ times_text total bottom 0 None moments.now) }
{
    let mut free = 0;
    let mut last = None;
    let mut rest = moments;
    'times: while let [moment, others @ ..] = rest {
        let x = x_of(total, moment.at);
        if is_time_written(free, last, x, moment.time) {
            push_time(bottom, x, moment.time, text)?;
            free = free_after(x, moment.time);
            last = Some(moment.time);
        }
        rest = others;
    }
    Ok(())
}
