//! What is true of each script that comes over a bad link. These functions do nothing: their contracts are the laws.

ghost use Rattle.cfdp_disturb.specs.Laws.{EachComes, OthersPart, QuietIsSame};

/// Where nothing is lost, repeated or swapped, the lines are the same.
pub fn quiet_is_same()
    ensures { QuietIsSame }
{}

/// A line that is no PDU line comes once, and no PDU line passes it: what is before it comes before it, and what is
/// after it comes after it, each as if it were alone.
pub fn others_part()
    ensures { OthersPart }
{}

/// Each PDU line comes as often as was drawn for it, 0, 1 or 2 times, and each other line once. No line is changed, and
/// none is added.
pub fn each_comes()
    ensures { EachComes }
{}
