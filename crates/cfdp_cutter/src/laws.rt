//! What is true of each stream that is cut into PDUs. These functions do nothing: their contracts are the laws.

ghost use Rattle.cfdp_cutter.specs.Laws.{EachIsWhole, LittleIsKept, NoneIsLost, PiecesDoNotMatter};

/// How a stream is split into pieces does not matter.
pub fn pieces_do_not_matter()
    ensures { PiecesDoNotMatter }
{}

/// No octet is lost, and none comes twice.
pub fn none_is_lost()
    ensures { NoneIsLost }
{}

/// Each PDU that is cut off is one by its own header, and none is left.
pub fn each_is_whole()
    ensures { EachIsWhole }
{}

/// What begins a PDU that is not whole is shorter than the longest PDU.
pub fn little_is_kept()
    ensures { LittleIsKept }
{}
