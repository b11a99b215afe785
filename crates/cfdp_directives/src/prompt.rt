//! The Prompt PDU, by which a file's sender asks its receiver for an answer.

ghost use Rattle.std.specs.Prelude.{◌≡◌, ◌≤◌, ◌+◌, ◌++◌, ◌↔◌, length, vec_len, IfErr, IfSome, IfNone, OnOk, OnErr, OnSome, IsOk, IsSome};
ghost use Rattle.std.specs.Vec.{vec_capacity};
ghost use Rattle.cfdp_tlv.specs.Reading.{Answers};
ghost use Rattle.cfdp_pdus.specs.Canonical.{IsHeader};
ghost use Rattle.cfdp_pdus.specs.declared.fault.WriteFault.TheVariants.{Memory};
ghost use Rattle.cfdp_pdus.specs.BufferParts.{filled};
ghost use Rattle.cfdp_directives.specs.Reading.{prompt_at};
ghost use Rattle.cfdp_directives.specs.Spelling.{prompt_field, prompt_pdu};

use crate::put::{put_pdu, write_pdu};
use cfdp_pdus::{Header, PduFault, WriteFault, bit, directive};

/// What a Prompt PDU asks for (CCSDS 727.0-B-5 §5.2.7).
#[derive(Clone, Copy, Debug, PartialEq, Eq)]
pub enum Prompt {
    /// A NAK PDU: what is missing of the file.
    Nak,
    /// A Keep Alive PDU: how much of the file has come.
    KeepAlive,
}

impl Prompt {
    /// The data field.
    #[tactic(auto, unfolding(crate::specs::Spelling::prompt_field))]
    fn field(self) -> [u8; 2]
        ensures { result ≡ prompt_field self }
    {
        let flags = match self {
            Prompt::Nak => 0,
            Prompt::KeepAlive => 128,
        };
        [directive::PROMPT, flags]
    }
}

/// The data field of a Prompt PDU, after its directive code.
#[tactic(auto, unfolding(crate::specs::Reading::prompt_at))]
pub(crate) fn read_prompt(octets: &[u8]) -> Result<Prompt, PduFault>
    ensures { Answers (λ prompt. prompt) result (prompt_at octets.now) }
{
    let [flags] = octets else {
        return Err(PduFault::LengthMismatch);
    };
    Ok(if bit(*flags, 7) {
        Prompt::KeepAlive
    } else {
        Prompt::Nak
    })
}

/// Writes a Prompt PDU (CCSDS 727.0-B-5 §5.2.7) to the front of a buffer, and returns its length in octets; the rest
/// of the buffer stays. Returns `None`, and writes nothing, exactly where the buffer is too short. Takes no memory.
///
/// Cost: the octets that it writes.
#[tactic(auto, unfolding(crate::specs::Spelling::prompt_field))]
pub fn put_prompt(header: &Header, prompt: Prompt, out: &mut [u8]) -> Option<usize>
    requires { IsHeader header.now }
    ensures fits { IsSome result ↔ (length (prompt_pdu header.now prompt) ≤ length out.old) }
    ensures len { IfSome result (λ len. len ≡ length (prompt_pdu header.now prompt)) }
    ensures written { OnSome result (out.new ≡ filled (prompt_pdu header.now prompt) out.old) }
    ensures unchanged { IfNone result (out.new ≡ out.old) }
{
    put_pdu(header, &prompt.field(), out)
}

/// Appends a Prompt PDU (CCSDS 727.0-B-5 §5.2.7).
///
/// The only fault is `Memory`. Cost: the octets that it appends, and one growth of the vector at most.
#[tactic(auto, unfolding(crate::specs::Spelling::prompt_field))]
pub fn write_prompt(header: &Header, prompt: Prompt, out: &mut Vec<u8>) -> Result<(), WriteFault>
    requires { IsHeader header.now }
    ensures ok { OnOk result (out.new.items ≡ out.old.items ++ prompt_pdu header.now prompt) }
    ensures faults { IfErr result (λ fault. fault ≡ Memory) }
    ensures err { OnErr result (out.new.items ≡ out.old.items) }
    // Where there is room for it, no memory is asked for.
    ensures room { vec_len out.old + length (prompt_pdu header.now prompt) ≤ vec_capacity out.old → IsOk result }
    ensures capacity { vec_capacity out.old ≤ vec_capacity out.new }
{
    write_pdu(header, &prompt.field(), out)
}
