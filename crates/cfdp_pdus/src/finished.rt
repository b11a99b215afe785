//! The Finished PDU, which informs the sender how a transaction went.

ghost use Rattle.std.specs.Prelude.{◌≡◌, ◌≤◌, ◌<◌, ◌+◌, ◌⊎◌, ◌↔◌, ◌++◌, length, vec_len, min, true, false, IfErr, OnOk, OnErr, IsErrOf, IsOk};
ghost use Rattle.std.specs.List.{flat_map, list_all};
ghost use Rattle.std.specs.Vec.{vec_capacity};
ghost use Rattle.cfdp_pdus.specs.Equality.{same_codes};
ghost use Rattle.cfdp_tlv.specs.Reading.{Answers, Gives};
ghost use Rattle.cfdp_pdus.specs.code.Reading.{only_judged};
ghost use Rattle.cfdp_pdus.specs.First.{finished_at};
ghost use Rattle.cfdp_pdus.specs.Canonical.{IsHeader, IsSizedFinished, pdu_octets, finished_field, finished_fits, response_field, is_short_response};
ghost use Rattle.cfdp_pdus.specs.declared.fault.PduFault.TheVariants.{Memory as OutOfMemory};
ghost use Rattle.cfdp_pdus.specs.declared.fault.WriteFault.TheVariants.{TooLong, Memory};

use crate::directive::FINISHED;
use crate::field::{count_responses, read_outcome};
use crate::number::bit;
use crate::put::{MAX_FIELD_LEN, fault_len, header_len, push_fault, push_header};
use crate::tlv_values::{are_short, fields_len, push_fields};
use crate::{Header, PduFault, WriteFault};
use cfdp_tlv::FilestoreResponse;
use std::alloc::Global;
use std::marker::Model;

/// A Finished PDU's data field (CCSDS 727.0-B-5 §5.2.3).
#[derive(Debug, Drop)]
pub struct Finished {
    /// The condition code, 0 to 15.
    pub condition: u8,
    /// The delivery code: data incomplete, and not complete.
    pub incomplete: bool,
    /// The file status, 0 to 3: one of [`crate::file_status`].
    pub file_status: u8,
    /// The filestore responses, in order.
    pub responses: Vec<FilestoreResponse>,
    /// The fault location: the entity at which the transaction was ended.
    pub fault: Option<u64>,
}

impl Model for Finished {
    ghost use Rattle.cfdp_pdus.specs.Values.{FinishedFields};

    ghost Value = { FinishedFields };

    ghost view = { λ f. record {
      condition = f.condition;
      incomplete = f.incomplete;
      file_status = f.file_status;
      responses = f.responses.items;
      fault = f.fault;
    } };
}

impl PartialEq for Finished {
    ghost use Rattle.cfdp_pdus.specs.Equality.{same_finished};
    ghost use Rattle.cfdp_pdus.specs.code.Equality.{finished_per};

    ghost eq = { same_finished };

    ghost laws = { finished_per };

    fn eq(&self, other: &Finished) -> bool {
        have_same_codes(self, other)
            && self.responses == other.responses
            && self.fault == other.fault
    }
}

impl Eq for Finished {
    ghost use Rattle.cfdp_pdus.specs.code.Equality.{finished_equiv};

    ghost laws = { finished_equiv };
}

/// Whether both have the same condition, delivery code and file status.
#[tactic(auto, unfolding(crate::specs::Equality::same_codes))]
fn have_same_codes(a: &Finished, b: &Finished) -> bool
    ensures { result ≡ same_codes a.now b.now }
{
    a.condition == b.condition && a.incomplete == b.incomplete && a.file_status == b.file_status
}

/// A Finished PDU's data field after its directive code.
#[tactic(auto, unfolding(crate::specs::First::finished_at))]
pub fn read_finished(alloc: Global, octets: &[u8]) -> Result<Finished, PduFault>
    ensures { Gives OutOfMemory (λ finished. finished) result (finished_at octets.now) }
{
    let [flags, rest @ ..] = octets else {
        return Err(PduFault::LengthMismatch);
    };
    let (responses, fault) = read_outcome(alloc, rest)?;
    Ok(Finished {
        condition: *flags >> 4,
        incomplete: bit(*flags, 2),
        file_status: *flags % 4,
        responses,
        fault,
    })
}

/// That the octets are a Finished PDU's data field after its directive code. Takes no memory.
#[tactic(auto, unfolding(crate::specs::First::finished_at))]
pub fn check_finished(octets: &[u8]) -> Result<(), PduFault>
    ensures { Answers (λ good. good) result (only_judged (finished_at octets.now)) }
{
    let [_, rest @ ..] = octets else {
        return Err(PduFault::LengthMismatch);
    };
    count_responses(rest)?;
    Ok(())
}

/// How many octets the data field has, or `usize::MAX` where that is too little.
#[tactic(auto, unfolding(crate::specs::Canonical::finished_field))]
fn field_len(header: &Header, finished: &Finished) -> usize
    requires { IsHeader header.now }
    ensures { result ≡ min (length (finished_field header.now finished.now)) usize.MAX }
{
    let location = fault_len(finished.fault, header.id_len);
    let responses = fields_len(&finished.responses);
    responses.saturating_add(location).saturating_add(2)
}

/// Whether each length fits its field.
#[tactic(auto, unfolding(crate::specs::Canonical::finished_fits))]
fn fits(header: &Header, finished: &Finished) -> bool
    requires { IsHeader header.now }
    ensures { result ≡ finished_fits header.now finished.now }
{
    are_short(&finished.responses) && field_len(header, finished) <= MAX_FIELD_LEN
}

/// Appends the data field. It cannot fail, since there is room for it.
#[tactic(auto, unfolding(crate::specs::Canonical::finished_field))]
fn push_field(out: &mut Vec<u8>, header: &Header, finished: &Finished)
    requires header { IsHeader header.now }
    requires sized { IsSizedFinished header.now finished.now }
    requires short { list_all is_short_response finished.now.responses ≡ true }
    requires room { vec_len out.old + length (finished_field header.now finished.now) ≤ vec_capacity out.old }
    ensures items { out.new.items ≡ out.old.items ++ finished_field header.now finished.now }
    ensures capacity { vec_capacity out.old ≤ vec_capacity out.new }
{
    let delivery = 4 * u8::from(finished.incomplete);
    out.push_reserved(FINISHED);
    out.push_reserved(16 * finished.condition + delivery + finished.file_status);
    push_fields(out, &finished.responses);
    push_fault(out, finished.fault, header.id_len);
}

/// Appends a Finished PDU, with its responses and then its fault location, which has the header's
/// entity ID length (CCSDS 727.0-B-5 §5.2.3).
///
/// The faults are `TooLong`, where a response's value has more than 255 octets or the data field more
/// than 65,535, and `Memory`.
/// Cost: the octets that it appends, and one growth of the vector at most.
#[tactic(auto, unfolding(crate::specs::Canonical::finished_fits))]
pub fn write_finished(
    header: &Header,
    finished: &Finished,
    out: &mut Vec<u8>,
) -> Result<(), WriteFault>
    requires header { IsHeader header.now }
    requires sized { IsSizedFinished header.now finished.now }
    ensures ok { OnOk result (out.new.items ≡ out.old.items
        ++ pdu_octets false header.now (finished_field header.now finished.now)) }
    ensures too_long { IsErrOf result TooLong ↔ (finished_fits header.now finished.now ≡ false) }
    ensures faults { IfErr result (λ fault. (fault ≡ TooLong) ⊎ (fault ≡ Memory)) }
    ensures err { OnErr result (out.new.items ≡ out.old.items) }
    // Where there is room for it, memory isn't asked for.
    ensures room { finished_fits header.now finished.now ≡ true → vec_len out.old
        + length (pdu_octets false header.now (finished_field header.now finished.now)) ≤ vec_capacity out.old →
        IsOk result }
    ensures capacity { vec_capacity out.old ≤ vec_capacity out.new }
{
    if !fits(header, finished) {
        return Err(WriteFault::TooLong);
    }
    let len = field_len(header, finished);
    out.reserve(header_len(header) + len)?;
    push_header(out, false, header, len as u16);
    push_field(out, header, finished);
    Ok(())
}
