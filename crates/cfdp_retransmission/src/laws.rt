//! What is true of the procedures. These functions do nothing: their contracts are the laws.

ghost use Rattle.cfdp_retransmission.specs.Finishing.{SentAtMostLimit, NoneAfterTheEnd, SentApart, EndsInTime};
ghost use Rattle.cfdp_retransmission.specs.Naks.{AsksForAll, EachIsShort, AreSideBySide, EachIsWithin, FewNaks};
ghost use Rattle.cfdp_retransmission.specs.Coming.{AnsweredIsWhole, AnsweredInOrder, AskedOnce, NotAsked};
ghost use Rattle.cfdp_retransmission.specs.Rounds.{WholeAfterLosses};

/// A Finished PDU is sent at most `limit` times, the first time included.
pub fn sent_at_most()
    ensures { SentAtMostLimit }
{}

/// After its acknowledgement it is not sent again.
pub fn none_after_the_end()
    ensures { NoneAfterTheEnd }
{}

/// From each sending to the next, at least the interval passes.
pub fn sent_apart()
    ensures { SentApart }
{}

/// After `limit` moments, each at least the interval after the one before, it no longer waits.
pub fn ends_in_time()
    ensures { EndsInTime }
{}

/// The NAK PDUs of a sequence together have the segment requests of the sequence, in order, each once.
pub fn asks_for_all()
    ensures { AsksForAll }
{}

/// No NAK PDU has more requests than are allowed in one.
pub fn each_is_short()
    ensures { EachIsShort }
{}

/// The scopes of the NAK PDUs are side by side, from the beginning of the whole scope to its end.
pub fn are_side_by_side()
    ensures { AreSideBySide }
{}

/// Each request is within the scope of its NAK PDU.
pub fn each_is_within()
    ensures { EachIsWithin }
{}

/// A sequence has at least one NAK PDU, and no more than its requests need.
pub fn few_naks()
    ensures { FewNaks }
{}

/// Where the pieces that come have each octet that was missing, and none of them is passed over, nothing is missing
/// after them.
pub fn answered_is_whole()
    ensures { AnsweredIsWhole }
{}

/// No piece is passed over where each begins at offset 0 or right after an octet that was received. So then nothing is
/// missing.
pub fn answered_in_order()
    ensures { AnsweredInOrder }
{}

/// Each offset below the limit that is missing is in exactly one request of the sequence.
pub fn asked_once()
    ensures { AskedOnce }
{}

/// No other offset is in a request.
pub fn not_asked()
    ensures { NotAsked }
{}

/// A sender answers each NAK PDU that it gets, in the order of its requests, over a channel that loses PDUs. A round
/// loses the pieces that are lost, and 1 more if NAK PDUs of its sequence are lost, however many: at most the PDUs that
/// are lost. After one round more than is lost in all, nothing is missing. One round more is needed where 32 parts are
/// there without the octet at offset 0.
pub fn whole_after_losses()
    ensures { WholeAfterLosses }
{}
