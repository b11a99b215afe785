//! What is true of the checksum, whatever computes it. Each function does nothing: its contract is the law.

ghost use Rattle.cfdp_checksum.specs.Laws.{OffsetsAddUp, OnlyWordOffsetsCount, PartsAreReplaced, PiecesAddUp, ZerosAddNothing};

/// The checksum of two pieces is the sum modulo 2^32 of theirs, where the second begins at a multiple of four: so a
/// file can be summed in pieces.
pub fn pieces_add_up()
    ensures { PiecesAddUp }
{}

/// The checksum of two pieces is the sum modulo 2^32 of theirs, each summed at its own offset: so octets can be added
/// at the end of a file, wherever it ends.
pub fn offsets_add_up()
    ensures { OffsetsAddUp }
{}

/// Only the position in a word of four counts of the offset of a piece.
pub fn only_word_offsets_count()
    ensures { OnlyWordOffsetsCount }
{}

/// Zeros after some octets add nothing to their sum.
pub fn zeros_add_nothing()
    ensures { ZerosAddNothing }
{}

/// A part of a file that is replaced takes its own sum off the file's checksum, and the new part adds its sum, each at
/// the offset of the part.
pub fn parts_are_replaced()
    ensures { PartsAreReplaced }
{}
