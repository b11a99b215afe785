//! What is true of the receiver, whatever comes. These functions do nothing: their contracts are the laws.

ghost use Rattle.cfdp_receiver.specs.Laws.{HandsOn, HeadlineHolds, FewEvents, FewPdus, AcknowledgedOnce, OthersStay, UnrecognizedIsTrue, TerminatedIsTrue, ClosedIsOver, FinishedOnly, NoneAgain, NotBegunAnew, RememberedStays, AtMostOnce, AllOrNone, NaksAsk, ExactlyMissing, EndsStayThere, NaksAskOnceIn, NaksAskOnce, FewNakPdus, FewRequests, ServedOnce, KnownIsEntry, AnsweredIsDelivered, SessionsAreDistinct, SentAtMost, NoneAfterAck, EntriesStay, OthersKeepEntries, WorkKeepsOthers, SourcesAreApart};
ghost use Rattle.cfdp_receiver.specs.Sent.{OnlyTheLast};
ghost use Rattle.cfdp_receiver.specs.Moments.{TicksAreCounted, LeftStays, NotTakenStays, TakenElse, MovedAlways};

/// The world of a receiver is the core's own run of the events that its inputs handed on.
pub fn hands_on()
    ensures { HandsOn }
{}

/// What is promised of the core over every list of events holds of the receiver over every list of inputs.
pub fn headline_holds()
    ensures { HeadlineHolds }
{
    cfdp_transactions::laws::next_is_sound();
    cfdp_transactions::laws::next_is_promised();
}

/// An input hands on two events at most.
pub fn few_events()
    ensures { FewEvents }
{}

/// An answer has one ACK PDU at most, and one Keep Alive or Finished PDU at most.
pub fn few_pdus()
    ensures { FewPdus }
{}

/// An EOF PDU in acknowledged mode is acknowledged once, with its condition code and the status of its transaction
/// after it. The only one that is not is one without a fault, of a transaction that has no session and is not closed
/// and remembered, while there are 64 sessions, or while 16 other sources have a place.
pub fn acknowledged_once()
    ensures { AcknowledgedOnce }
{}

/// The sessions of all transactions but the one that an input is about stay as they are.
pub fn others_stay()
    ensures { OthersStay }
{}

/// An input leaves what is remembered of all sources but that of the transaction that it is about: no transaction of
/// one source ever pushes out a name of another, and only the request to forget all names drops one of those.
pub fn sources_are_apart()
    ensures { SourcesAreApart }
{}

/// An ACK PDU says 'unrecognized' of no transaction that ever had a session here.
pub fn unrecognized_is_true()
    ensures { UnrecognizedIsTrue }
{}

/// A Metadata PDU of a transaction that is closed and remembered, or is over, or waits for the acknowledgement of its
/// Finished PDU, is not handed to the core: its requests are not performed again.
pub fn none_again()
    ensures { NoneAgain }
{}

/// A Metadata PDU of a transaction that the core knows leaves the core as it is: its table and the filestore.
pub fn not_begun_anew()
    ensures { NotBegunAnew }
{}

/// A Metadata PDU of a transaction that is remembered leaves the core as it is, in each state that a receiver comes to.
pub fn remembered_stays()
    ensures { RememberedStays }
{}

/// Over an entity that begins without transactions: a transaction is remembered if it is closed and not yet forgotten,
/// or has a session that holds no EOF PDU (while it holds one, the first Metadata PDU is still to come). While it is
/// remembered, its Metadata PDU leaves the core as it is, so its requests are not performed a second time.
pub fn at_most_once()
    ensures { AtMostOnce }
{
    cfdp_transactions::laws::only_take_removes();
    cfdp_transactions::laws::take_removes();
    cfdp_transactions::laws::next_is_sound();
    cfdp_transactions::laws::next_is_promised();
}

/// Over an entity that begins without transactions: of each transaction that is over every item of its list was
/// performed, the install included, or none was. No cancel, timer or limit leaves half of a list.
pub fn all_or_none()
    ensures { AllOrNone }
{
    cfdp_transactions::laws::only_take_removes();
    cfdp_transactions::laws::take_removes();
    cfdp_transactions::laws::next_is_sound();
    cfdp_transactions::laws::next_is_promised();
}

/// An ACK PDU says 'terminated' only of a transaction that had a session here.
pub fn terminated_is_true()
    ensures { TerminatedIsTrue }
{}

/// A transaction that is closed and remembered has no session.
pub fn closed_is_over()
    ensures { ClosedIsOver }
{}

/// A Finished PDU is sent when an outcome is taken, and again when its timer expires below the limit, and at no other
/// input.
pub fn finished_only()
    ensures { FinishedOnly }
{}

/// Events of other transactions leave a transaction's entry in the core as it is.
pub fn entries_stay()
    ensures { EntriesStay }
{
    cfdp_transactions::laws::next_is_sound();
    cfdp_transactions::laws::next_is_promised();
}

/// An input that is about one transaction leaves the entries of all others in the core as they are.
pub fn others_keep_entries()
    ensures { OthersKeepEntries }
{
    cfdp_transactions::laws::next_is_sound();
    cfdp_transactions::laws::next_is_promised();
}

/// An item that is performed leaves the entries of all transactions in the core as they are, but that of the
/// transaction whose item it is.
pub fn work_keeps_others()
    ensures { WorkKeepsOthers }
{
    cfdp_transactions::laws::next_is_sound();
    cfdp_transactions::laws::next_is_promised();
}

/// No two sessions have one name.
pub fn are_apart()
    ensures { SessionsAreDistinct }
{}

/// The Finished PDU of a transaction is sent at most as often as the ACK limit says, the first time included, unless
/// the limit is ignored.
pub fn sent_at_most()
    ensures { SentAtMost }
{}

/// An ACK PDU of a Finished PDU closes a transaction that waits for it. After that, as long as the transaction is
/// remembered, no Finished PDU of it is sent.
pub fn none_after_ack()
    ensures { NoneAfterAck }
{}

/// All NAK PDUs of an answer are one sequence, for the session in acknowledged mode that the input is about. If the
/// session holds an EOF PDU, they ask for the Metadata PDU and the whole file. If the core knows the transaction, they
/// ask for all its gaps; after a File Data PDU in immediate mode only for gaps that begin after all that was there
/// before.
pub fn naks_ask()
    ensures { NaksAsk }
{}

/// A sequence for the gaps of a transaction, from offset 0 or right after an octet that was received, has each offset
/// that is missing from there on in exactly one request, and no other offset.
pub fn exactly_missing()
    ensures { ExactlyMissing }
{}

/// The octet before the end of all that was received of a transaction is there, and stays there whatever comes.
pub fn ends_stay_there()
    ensures { EndsStayThere }
{}

/// The NAK PDUs of an answer ask for each octet that is missing exactly once and for no other, and for the Metadata PDU
/// exactly if none came. For a File Data PDU this asks of the state that the octet before the end of all that was
/// received is there, as it always is in a [`crate::Receiver`] ([`crate::Receiver::whole`]).
pub fn naks_ask_once_in()
    ensures { NaksAskOnceIn }
{}

/// Over an entity that begins without transactions: the NAK PDUs of an answer ask for each octet that is missing
/// exactly once and for no other, and for the Metadata PDU exactly if none came. After a File Data PDU what is asked
/// for follows all that was there before.
pub fn naks_ask_once()
    ensures { NaksAskOnce }
{}

/// A NAK sequence has no more PDUs than its requests need.
pub fn few_nak_pdus()
    ensures { FewNakPdus }
{}

/// A sequence for the gaps of a transaction has 33 requests at most.
pub fn few_requests()
    ensures { FewRequests }
{}

/// At one moment each timer that is due is served once: from one expiry to the next, fewer are due.
pub fn served_once()
    ensures { ServedOnce }
{
    cfdp_transactions::laws::next_is_sound();
    cfdp_transactions::laws::next_is_promised();
}

/// Over an entity that begins without transactions, a session is known exactly where the core has an entry of its name.
pub fn known_is_entry()
    ensures { KnownIsEntry }
{
    cfdp_transactions::laws::only_take_removes();
    cfdp_transactions::laws::take_removes();
    cfdp_transactions::laws::next_is_sound();
    cfdp_transactions::laws::next_is_promised();
}

/// Once every octet that was missing has come, and no piece was passed over, the file of a transaction that waits for
/// it is complete, or its checksum is wrong.
pub fn answered_is_delivered()
    ensures { AnsweredIsDelivered }
{}

/// No timer is due later because the receiver's own time goes on by at most 2^32 - 1 ticks in a call.
pub fn ticks_are_counted()
    ensures { TicksAreCounted }
{}

/// Moving the driver's clock, back or ahead, leaves each timer as much time as it had.
pub fn left_stays()
    ensures { LeftStays }
{}

/// The driver's clock can be moved to every moment.
pub fn moved_always()
    ensures { MovedAlways }
{}

/// An input whose moment is too far ahead changes nothing, not even the latest moment.
pub fn not_taken_stays()
    ensures { NotTakenStays }
{}

/// Every other input is taken, and without a limit each is.
pub fn taken_else()
    ensures { TakenElse }
{}

/// An answer is the last one until the next turn. Then [`Receiver::write`](crate::Receiver::write) refuses it.
pub fn only_the_last()
    ensures { OnlyTheLast }
{}
