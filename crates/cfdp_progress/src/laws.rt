//! What is true of a transaction from its EOF PDU on. These functions do nothing: their contracts are the laws. A file
//! is *delivered* when all its octets are there: it is then complete, or its checksum is wrong.

ghost use Rattle.cfdp_progress.specs.Awaiting.{AwaitingAwaits, AnsweredTurns, StaysDelivered};
ghost use Rattle.cfdp_progress.specs.Closing.{ClosedAfterLosses};
ghost use Rattle.cfdp_progress.specs.Concluding.{ConcludedWhenDone, FinishedIsSent, FinishedIsSentAlone};
ghost use Rattle.cfdp_progress.specs.HeldRounds.{MetadataComes, ClosedFromHeld};
ghost use Rattle.cfdp_progress.specs.InAll.{ClosedInAll};
ghost use Rattle.cfdp_progress.specs.NakRounds.{DeliveredAfterRounds, DeliveredAfterLosses};

/// Of an entity that began without transactions, whatever came: where an entry of the core is in Awaiting, its session
/// is known, its EOF PDU came with a size that its file may have, and octets below that size are missing.
pub fn awaiting_awaits()
    ensures { AwaitingAwaits }
{
    cfdp_transactions::laws::take_removes();
    cfdp_transactions::laws::next_is_sound();
    cfdp_transactions::laws::next_is_promised();
    cfdp_receiver::laws::known_is_entry();
}

/// A file waits for octets, and inputs come. Neither its sender nor the user cancels it, and its NAK limit is not
/// reached, or is ignored. Once every octet that was missing has come, and no piece was passed over, the file is
/// delivered: after some of the inputs, at the latest after all of them.
pub fn answered_turns()
    ensures { AnsweredTurns }
{
    cfdp_transactions::laws::next_is_sound();
    cfdp_transactions::laws::next_is_promised();
    cfdp_retransmission::laws::answered_is_whole();
}

/// Its entry stays so while each input is a File Data PDU or touches another transaction, and no item of it is
/// performed.
pub fn stays_delivered()
    ensures { StaysDelivered }
{
    cfdp_transactions::laws::next_is_sound();
    cfdp_transactions::laws::next_is_promised();
}

/// A file waits for octets. A round begins when its NAK timer expires below the limit: NAK PDUs ask for what is
/// missing, a sender answers each that it gets, in the order of its requests, and a channel loses pieces and NAK PDUs.
/// No other piece comes but those of one more answer to the same requests.
/// A round loses the pieces that are lost, and 1 more if NAK PDUs are lost, however many: at most the PDUs that are
/// lost. After one round more than is lost in all, at the latest, the file is delivered. One round more is needed where
/// 32 parts are there without the octet at offset 0.
pub fn delivered_after_rounds()
    ensures { DeliveredAfterRounds }
{
    cfdp_transactions::laws::next_is_sound();
    cfdp_transactions::laws::next_is_promised();
    cfdp_retransmission::laws::whole_after_losses();
}

/// Like [`delivered_after_rounds`], from the first NAK PDUs on. They are sent when the EOF PDU comes and octets are
/// missing; or, where the Metadata PDU comes after it, they are those that asked for the Metadata PDU. If the NAK limit
/// is above what is lost in all, and the round more where it is needed, then it is not reached before.
pub fn delivered_after_losses()
    ensures { DeliveredAfterLosses }
{
    cfdp_transactions::laws::next_is_sound();
    cfdp_transactions::laws::next_is_promised();
    cfdp_retransmission::laws::whole_after_losses();
}

/// A transaction takes no file data any more: its file was delivered, or it has none and its EOF PDU came, or it ended
/// otherwise. Any inputs may come. When no transaction has an item to be performed any more, and none has an outcome to
/// be handed out, one of these inputs has handed out the outcome of this transaction.
pub fn concluded_when_done()
    ensures { ConcludedWhenDone }
{
    cfdp_transactions::laws::next_is_sound();
    cfdp_transactions::laws::next_is_promised();
}

/// In acknowledged mode, the input that hands out the outcome of a transaction also sends its Finished PDU, unless the
/// transaction was abandoned. The session then waits for the acknowledgement, with no expiry counted.
pub fn finished_is_sent()
    ensures { FinishedIsSent }
{}

/// The same holds of a transaction of which the core kept no entry. It ended while its EOF PDU was held: by a limit, by
/// a cancel, or by an EOF PDU with a condition.
pub fn finished_is_sent_alone()
    ensures { FinishedIsSentAlone }
{}

/// A Finished PDU was sent, and its session waits for the acknowledgement. A round begins when its ACK timer expires
/// below the limit, and the same octets are sent again. The sender acknowledges each Finished PDU that it gets. After
/// one round more than PDUs are lost, that of the first Finished PDU included, the session is closed, and its name is
/// remembered. If the ACK limit is above what is lost, and no expiry was counted before, then it is not reached.
pub fn closed_after_losses()
    ensures { ClosedAfterLosses }
{}

/// From the EOF PDU until the session is closed, where octets are missing when it comes. A round begins with the EOF
/// PDU, or when the timer of the session expires; all items are performed, and all outcomes handed out, before it ends.
/// The sender answers NAK PDUs in the order of their requests, and acknowledges Finished PDUs. The channel loses
/// pieces, NAK PDUs, Finished PDUs and acknowledgements; NAK PDUs that it loses in one round count as 1. If both limits
/// are above what is lost in all, the session is closed after one round more than that, at the latest. One round more
/// is needed where 32 parts are there without the octet at offset 0.
pub fn closed_in_all()
    ensures { ClosedInAll }
{
    cfdp_transactions::laws::only_take_removes();
    cfdp_transactions::laws::take_removes();
    cfdp_transactions::laws::next_is_sound();
    cfdp_transactions::laws::next_is_promised();
    cfdp_retransmission::laws::whole_after_losses();
}

/// An EOF PDU comes before its Metadata PDU and begins a session that holds it. A round begins with that EOF PDU, or
/// when the NAK timer of the session expires below its limit: the first NAK PDU asks for the Metadata PDU, and a sender
/// that gets it sends the Metadata PDU. The channel may lose either PDU. After one more round than those in which it
/// lost one, at the latest, the Metadata PDU has come. If the NAK limit is above the number of those rounds, it is not
/// reached before.
pub fn metadata_comes()
    ensures { MetadataComes }
{}

/// From such an EOF PDU until the session is closed. A round in which the first NAK PDU or the Metadata PDU is lost
/// counts as 1. Once the Metadata PDU comes, and octets are missing, what is lost counts as in [`closed_in_all`]. No
/// NAK PDU is sent then: the sender goes on with its answer to the NAK PDUs that asked for the Metadata PDU, which
/// asked for the whole file, too. The session is closed, at the latest, after one round more than is lost in all. This
/// needs a NAK limit above what is lost before the Metadata PDU comes, and above what is lost after it. It also needs
/// an ACK limit above the latter. No second round more is needed, since nothing of the file is there when its Metadata
/// PDU comes.
pub fn closed_from_held()
    ensures { ClosedFromHeld }
{
    cfdp_transactions::laws::only_take_removes();
    cfdp_transactions::laws::take_removes();
    cfdp_transactions::laws::next_is_sound();
    cfdp_transactions::laws::next_is_promised();
    cfdp_retransmission::laws::whole_after_losses();
}
