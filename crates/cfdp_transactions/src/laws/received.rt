//! What is true of received octets, and of the ranges and the staged list in which they are kept.

ghost use Rattle.cfdp_transactions.specs.ReceivedLaws.{FirstStays, GreatestEnd, GapsAreMissing, GapsAreRuns, FewGaps};
ghost use Rattle.cfdp_transactions.specs.PieceLaws.{PiecesAreRanges, GapsAreBetween, WholeHasNone, RangeIsAdded, RangesKeep, StagedAreKept};

/// An octet of file data that comes again does not replace the one received first.
pub fn first_stays()
    ensures { FirstStays }
{}

/// What is received reaches to the greatest end.
pub fn greatest_end()
    ensures { GreatestEnd }
{}

/// The gaps hold exactly the offsets below the limit that were not received.
pub fn gaps_are_missing()
    ensures { GapsAreMissing }
{}

/// No gap is empty, they are in order, and none touches the next.
pub fn gaps_are_runs()
    ensures { GapsAreRuns }
{}

/// There is at most one gap more than there are pieces.
pub fn few_gaps()
    ensures { FewGaps }
{}

/// Octets that are kept in n separate ranges have n pieces.
pub fn pieces_are_ranges()
    ensures { PiecesAreRanges }
{}

/// Their gaps are what lies between the ranges.
pub fn gaps_are_between()
    ensures { GapsAreBetween }
{}

/// All octets up to a size are there exactly where the list is so long and nothing lies between.
pub fn whole_has_none()
    ensures { WholeHasNone }
{}

/// A range that is added joins what it touches: the ranges stay separate and in order, and hold
/// their offsets and its own.
pub fn range_is_added()
    ensures { RangeIsAdded }
{}

/// Octets that come are kept by writing those whose offsets lie in no range yet, and then adding
/// theirs.
pub fn ranges_keep()
    ensures { RangesKeep }
{}

/// What is staged is the list itself, where it has zeros between the ranges.
pub fn staged_are_kept()
    ensures { StagedAreKept }
{}
