//! Where things are in a picture, in pixels.

ghost use Rattle.std.specs.Prelude.{◌≡◌, ◌≤◌, ◌^◌};
ghost use Rattle.cfdp_draw.specs.Axis.{has_data_words, has_words, level_of, pitch, axis_end, room, x_of};

/// Where the time axis begins.
pub(crate) const LEFT: u64 = 150;

/// How long the time axis is at least.
pub(crate) const AXIS: u64 = 1_020;

/// How wide a mark with its kind in words is.
pub(crate) const WORDED: u64 = 80;

/// How wide a mark with a letter is.
pub(crate) const LETTERED: u64 = 16;

/// How wide a moment is at least where marks have words.
pub(crate) const MOMENT: u64 = 6;

/// A position on the time axis.
#[derive(Clone, Copy, Debug, PartialEq, Eq)]
pub struct AxisPosition {
    /// How many moments are before it.
    pub moments: u32,
    /// How many wide marks are before it, side by side.
    pub wide_marks: u32,
}

/// Whether there is room for the kind of each mark in words.
#[tactic(auto, unfolding(crate::specs::Axis::has_words))]
pub(crate) fn has_words(total: AxisPosition) -> bool
    ensures { result ≡ has_words total }
{
    WORDED * u64::from(total.wide_marks) + MOMENT * u64::from(total.moments) <= AXIS
}

/// How wide a mark is, of all that a picture has.
#[tactic(auto, unfolding(crate::specs::Axis::pitch))]
fn pitch(total: AxisPosition) -> u64
    ensures value { result ≡ pitch total }
    ensures most { result ≤ 80 }
{
    if has_words(total) { WORDED } else { LETTERED }
}

/// What is left for the moments.
#[tactic(auto, unfolding(crate::specs::Axis::room))]
fn room(total: AxisPosition) -> u32
    ensures { result ≡ room total }
{
    let left = AXIS.saturating_sub(pitch(total) * u64::from(total.wide_marks));
    (left as u32).max(total.moments)
}

/// Whether there is room for the words of File Data PDUs too.
#[tactic(auto, unfolding(crate::specs::Axis::has_data_words))]
pub(crate) fn has_data_words(total: AxisPosition) -> bool
    ensures { result ≡ has_data_words total }
{
    has_words(total) && WORDED * u64::from(total.moments) <= u64::from(room(total))
}

/// The end of the time axis.
#[tactic(auto, unfolding(crate::specs::Axis::axis_end))]
pub(crate) fn right_of(total: AxisPosition) -> u64
    ensures value { result ≡ axis_end total }
    ensures most { result ≤ 2 ^ 40 }
{
    LEFT + pitch(total) * u64::from(total.wide_marks) + u64::from(room(total))
}

/// Where a position is, of an axis with `total`.
#[tactic(auto, unfolding(crate::specs::Axis::x_of))]
pub(crate) fn x_of(total: AxisPosition, at: AxisPosition) -> u64
    ensures value { result ≡ x_of total at }
    ensures most { result ≤ 2 ^ 40 }
{
    let wide_marks = u64::from(at.wide_marks.min(total.wide_marks));
    let moments = level_of(room(total), u64::from(at.moments), u64::from(total.moments));
    LEFT + pitch(total) * wide_marks + moments
}

/// How high a part of a whole is, where the whole is `height`. What is more than the whole counts as the whole.
#[tactic(auto, unfolding(crate::specs::Axis::level_of))]
pub(crate) fn level_of(height: u32, part: u64, whole: u64) -> u64
    ensures value { result ≡ level_of height part whole }
    ensures within { result ≤ height }
{
    if whole == 0 {
        return 0;
    }
    (u128::from(height) * u128::from(part.min(whole)) / u128::from(whole)) as u64
}
