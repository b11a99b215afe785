//! Reading an ACK, Prompt or Keep Alive PDU.

ghost use Rattle.cfdp_tlv.specs.Reading.{Answers};
ghost use Rattle.cfdp_directives.specs.Reading.{directive_in, directive_spelled};

use crate::ack::read_ack;
use crate::keep_alive::read_keep_alive;
use crate::prompt::read_prompt;
use crate::{Ack, KeepAlive, Prompt};
use cfdp_pdus::directive::{ACK, KEEP_ALIVE, PROMPT};
use cfdp_pdus::{Header, PduFault, read_start};

/// An ACK, Prompt or Keep Alive PDU, with its header.
#[derive(Clone, Copy, Debug, PartialEq, Eq)]
pub enum Directive {
    /// An ACK PDU.
    Ack(Header, Ack),
    /// A Prompt PDU.
    Prompt(Header, Prompt),
    /// A Keep Alive PDU.
    KeepAlive(Header, KeepAlive),
}

/// A data field.
#[tactic(auto, unfolding(crate::specs::Reading::directive_in))]
fn read_field(header: Header, field: &[u8]) -> Result<Directive, PduFault>
    ensures { Answers (λ directive. directive) result (directive_in header field.now) }
{
    let [code, rest @ ..] = field else {
        return Err(PduFault::LengthMismatch);
    };
    match *code {
        ACK => Ok(Directive::Ack(header, read_ack(rest)?)),
        PROMPT => Ok(Directive::Prompt(header, read_prompt(rest)?)),
        KEEP_ALIVE => Ok(Directive::KeepAlive(header, read_keep_alive(header.large, rest)?)),
        _ => Err(PduFault::BadDirective),
    }
}

/// The ACK, Prompt or Keep Alive PDU that the octets spell (CCSDS 727.0-B-5 §5.2.4, §5.2.7, §5.2.8). Takes no memory.
///
/// Spare bits and the directive subtype code are passed over. Cost: constant.
///
/// # Errors
///
/// The faults of a header come first, as `cfdp_pdus::read_start` gives them. Then, in the data field: `BadDirective`
/// for file data, `LengthMismatch` for no directive code, `BadDirective` for another code, also that of a NAK PDU,
/// and `LengthMismatch` for another length than the PDU has.
#[tactic(auto, unfolding(crate::specs::Reading::directive_spelled))]
pub fn read_directive(octets: &[u8]) -> Result<Directive, PduFault>
    ensures exact { Answers (λ directive. directive) result (directive_spelled octets.now) }
{
    let start = read_start(octets)?;
    if start.file_data {
        return Err(PduFault::BadDirective);
    }
    read_field(start.header, start.field)
}
