//! What is true of every picture.

ghost use Rattle.cfdp_draw.specs.Axis.{StaysInside, TimeGoesRight};
ghost use Rattle.cfdp_draw.specs.Words.{EscapedIsHarmless};

/// What is later is not further left.
pub fn time_goes_right()
    ensures { TimeGoesRight }
{}

/// Each position is between the ends of the time axis.
pub fn stays_inside()
    ensures { StaysInside }
{}
/// Text that is shown begins and ends no element of XML, and no value of one. Its octets are visible ASCII
/// characters and spaces.
pub fn escaped_is_harmless()
    ensures { EscapedIsHarmless }
{}
