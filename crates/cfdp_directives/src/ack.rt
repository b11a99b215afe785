//! The ACK PDU, which acknowledges an EOF or a Finished PDU.

ghost use Rattle.std.specs.Prelude.{◌≡◌, ◌≤◌, ◌+◌, ◌<◌, ◌++◌, ◌↔◌, length, vec_len, IfErr, IfSome, IfNone, OnOk, OnErr, OnSome, IsOk, IsSome};
ghost use Rattle.std.specs.Vec.{vec_capacity};
ghost use Rattle.cfdp_tlv.specs.Reading.{Answers};
ghost use Rattle.cfdp_pdus.specs.Canonical.{IsHeader};
ghost use Rattle.cfdp_pdus.specs.declared.fault.WriteFault.TheVariants.{Memory};
ghost use Rattle.cfdp_pdus.specs.BufferParts.{filled};
ghost use Rattle.cfdp_directives.specs.Reading.{ack_at, status_code, status_coded};
ghost use Rattle.cfdp_directives.specs.Spelling.{IsSizedAck, ack_field, ack_pdu};

use crate::put::{put_pdu, write_pdu};
use cfdp_pdus::{Header, PduFault, WriteFault, directive};

/// What an entity knows of a transaction (CCSDS 727.0-B-5 §5.2.4).
#[derive(Clone, Copy, Debug, PartialEq, Eq)]
pub enum TransactionStatus {
    /// It is not active now, and may have been active.
    Undefined,
    /// It is active.
    Active,
    /// It was active, and is over.
    Terminated,
    /// It was never active.
    Unrecognized,
}

impl TransactionStatus {
    /// Its two bits, 0 to 3.
    pub fn code(self) -> u8
        ensures { result ≡ status_code self }
    {
        match self {
            TransactionStatus::Undefined => 0,
            TransactionStatus::Active => 1,
            TransactionStatus::Terminated => 2,
            TransactionStatus::Unrecognized => 3,
        }
    }

    /// The status of two bits.
    pub fn of_code(code: u8) -> TransactionStatus
        requires { code < 4 }
        ensures { result ≡ status_coded code }
    {
        match code {
            0 => TransactionStatus::Undefined,
            1 => TransactionStatus::Active,
            2 => TransactionStatus::Terminated,
            _ => TransactionStatus::Unrecognized,
        }
    }
}

/// What an ACK PDU says (CCSDS 727.0-B-5 §5.2.4).
#[derive(Clone, Copy, Debug, PartialEq, Eq)]
pub struct Ack {
    /// The directive code of the PDU that is acknowledged, 0 to 15: [`directive::EOF`] or [`directive::FINISHED`].
    pub directive: u8,
    /// The condition code of that PDU, 0 to 15.
    pub condition: u8,
    /// What is known of the transaction.
    pub status: TransactionStatus,
}

impl Ack {
    /// The data field.
    #[tactic(auto, unfolding(crate::specs::Spelling::ack_field))]
    fn field(self) -> [u8; 3]
        requires { IsSizedAck self }
        ensures { result ≡ ack_field self }
    {
        let kind = 16 * self.directive + u8::from(self.directive == directive::FINISHED);
        let state = 16 * self.condition + self.status.code();
        [directive::ACK, kind, state]
    }
}

/// The data field of an ACK PDU, after its directive code.
#[tactic(auto, unfolding(crate::specs::Reading::ack_at))]
pub(crate) fn read_ack(octets: &[u8]) -> Result<Ack, PduFault>
    ensures { Answers (λ ack. ack) result (ack_at octets.now) }
{
    let [kind, state] = octets else {
        return Err(PduFault::LengthMismatch);
    };
    Ok(Ack {
        directive: *kind >> 4,
        condition: *state >> 4,
        status: TransactionStatus::of_code(*state % 4),
    })
}

/// Writes an ACK PDU (CCSDS 727.0-B-5 §5.2.4) to the front of a buffer, and returns its length in octets; the rest of
/// the buffer stays. Returns `None`, and writes nothing, exactly where the buffer is too short. Takes no memory.
///
/// Cost: the octets that it writes.
#[tactic(auto, unfolding(crate::specs::Spelling::ack_field))]
pub fn put_ack(header: &Header, ack: Ack, out: &mut [u8]) -> Option<usize>
    requires header { IsHeader header.now }
    requires sized { IsSizedAck ack }
    ensures fits { IsSome result ↔ (length (ack_pdu header.now ack) ≤ length out.old) }
    ensures len { IfSome result (λ len. len ≡ length (ack_pdu header.now ack)) }
    ensures written { OnSome result (out.new ≡ filled (ack_pdu header.now ack) out.old) }
    ensures unchanged { IfNone result (out.new ≡ out.old) }
{
    put_pdu(header, &ack.field(), out)
}

/// Appends an ACK PDU (CCSDS 727.0-B-5 §5.2.4).
///
/// The only fault is `Memory`. Cost: the octets that it appends, and one growth of the vector at most.
#[tactic(auto, unfolding(crate::specs::Spelling::ack_field))]
pub fn write_ack(header: &Header, ack: Ack, out: &mut Vec<u8>) -> Result<(), WriteFault>
    requires header { IsHeader header.now }
    requires sized { IsSizedAck ack }
    ensures ok { OnOk result (out.new.items ≡ out.old.items ++ ack_pdu header.now ack) }
    ensures faults { IfErr result (λ fault. fault ≡ Memory) }
    ensures err { OnErr result (out.new.items ≡ out.old.items) }
    // Where there is room for it, no memory is asked for.
    ensures room { vec_len out.old + length (ack_pdu header.now ack) ≤ vec_capacity out.old → IsOk result }
    ensures capacity { vec_capacity out.old ≤ vec_capacity out.new }
{
    write_pdu(header, &ack.field(), out)
}
