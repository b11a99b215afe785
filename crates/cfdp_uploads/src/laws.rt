//! What is true of the PDUs of an upload. These functions do nothing: their contracts are the laws.

ghost use Rattle.cfdp_uploads.specs.Laws.{ReadBack, PartsOfFile, WholeFile};

/// The octets of each PDU of an upload spell it: a reader of PDUs gives exactly the Metadata, the pieces and the EOF.
pub fn uploads_read_back()
    ensures { ReadBack }
{}

/// Each piece that is sent is a part of the file, at its offset.
pub fn pieces_are_parts()
    ensures { PartsOfFile }
{}

/// Each octet of the file is in a piece that is sent.
pub fn pieces_are_the_file()
    ensures { WholeFile }
{}
