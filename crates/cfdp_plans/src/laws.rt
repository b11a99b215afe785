//! What is true of names in a plan, and of the lines of PDUs. These functions do nothing: their contracts are the laws.

ghost use Rattle.cfdp_plans.specs.Laws.{PduLineIsRead, PrintedIsRead};

/// What a listing prints of a path is read as the same octets.
pub fn printed_is_read()
    ensures { PrintedIsRead }
{}

/// The words of the line of a PDU are `pdu` and one of hexadecimal digits, which spells the octets of the PDU.
pub fn pdu_line_is_read()
    ensures { PduLineIsRead }
{}
