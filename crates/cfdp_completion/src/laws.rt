//! What is true of uploads at their receiver. These functions do nothing: their contracts are the laws.

ghost use Rattle.cfdp_completion.specs.Delivering.{AdmittedIsComplete, FileIsKept, InOrderStaysFew, OctetsAreEvents};

/// The octets of the PDUs of an upload, in the order in which they are sent, are its events.
pub fn octets_are_events()
    ensures { OctetsAreEvents }
{}

/// What is kept after all pieces of an upload came is its file, whatever their order.
pub fn file_is_kept()
    ensures { FileIsKept }
{}

/// Let the Metadata PDU of an upload with a file be admitted, let nothing else come between its PDUs, and let no more
/// than 32 separate pieces be kept at any time. Then the upload is complete once its PDUs came: each File Data PDU is
/// stored, the checksum is right, and its items are performed next. That none of these fails is the headline of
/// `cfdp_transactions`.
pub fn admitted_is_complete()
    ensures { AdmittedIsComplete }
{}

/// Pieces that come from the first to the last are never more than one piece.
pub fn in_order_stays_few()
    ensures { InOrderStaysFew }
{}
