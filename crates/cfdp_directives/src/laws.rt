//! What is true of the grammar. These functions do nothing: their contracts are the laws.

ghost use Rattle.cfdp_directives.specs.Laws.{AckReadsBack, NakReadsBack, MostRequestsFit, PromptReadsBack, KeepAliveReadsBack};

/// An ACK PDU that is written is read as its header and value.
pub fn ack_reads_back()
    ensures { AckReadsBack }
{}

/// A NAK PDU that is written is read as its header, its scope and its requests.
pub fn nak_reads_back()
    ensures { NakReadsBack }
{}

/// A NAK PDU's data field has at most 65,535 octets exactly where it has no more requests than `most_requests` says.
pub fn most_requests_fit()
    ensures { MostRequestsFit }
{}

/// A Prompt PDU that is written is read as its header and value.
pub fn prompt_reads_back()
    ensures { PromptReadsBack }
{}

/// A Keep Alive PDU that is written is read as its header and value.
pub fn keep_alive_reads_back()
    ensures { KeepAliveReadsBack }
{}
