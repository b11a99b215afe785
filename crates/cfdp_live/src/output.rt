//! What a live receiving entity has made of its inputs.

ghost use Rattle.std.specs.Prelude.{◌≡◌, ◌++◌, ◌∷◌, ◌||◌, ◌≤◌, [], false, length, map, max, true, OnOk};
ghost use Rattle.std.specs.List.{list_any};
ghost use Rattle.cfdp_actions.specs.Listed.{vector_octets};
ghost use Rattle.cfdp_receiver.specs.declared.indication.Became.TheVariants.{Replied};
ghost use Rattle.cfdp_receiver.specs.StateMachine.{answer_in, is_last};
ghost use Rattle.cfdp_receiver.specs.Sent.{as_sent, longest_sealed, pdus_of};
ghost use Rattle.cfdp_reports.specs.Reports.{indication_lines};
ghost use Rattle.cfdp_live.specs.Living.{Out, made_of_answer, is_end, nothing, refusal_line, with_more};
ghost use Rattle.cfdp_live.specs.code.Living.{with_sent};

use cfdp_receiver::{Answer, Became, Indication, Receiver};
use cfdp_reports::push_indications;
use cfdp_status::TransactionId;
use cfdp_texts::write_reply;
use cfdp_transactions::Reply;
use std::alloc::{AllocError, Global};
use std::marker::Model;

/// Whether a transaction finished or was abandoned.
fn is_end(indication: Indication) -> bool
    ensures { result ≡ is_end indication }
{
    match indication {
        Indication::TransactionFinished(_, _) | Indication::Abandoned(_, _) => true,
        Indication::MetadataRecv(_, _)
        | Indication::FileSegmentRecv(_, _, _)
        | Indication::EofRecv(_)
        | Indication::Fault(_, _) => false,
    }
}

/// Whether an answer says that a transaction ended.
fn has_end(answer: &Answer) -> bool
    ensures { result ≡ list_any is_end answer.now.indications }
{
    match answer.indication() {
        None => false,
        Some(indication) => is_end(indication),
    }
}

/// Appends the line of a reply that refuses a transaction, and nothing for another one.
fn push_if_refused(
    alloc: Global,
    id: TransactionId,
    reply: &Reply,
    text: &mut Vec<u8>,
) -> Result<(), AllocError>
    ensures { OnOk result (text.new.items ≡ text.old.items ++ refusal_line (Replied id reply.now)) }
{
    match reply {
        Reply::Refused(_) => write_reply(alloc, id, reply, text),
        _ => Ok(()),
    }
}

/// Appends the line of a refusal, if what became of an input is one.
fn push_refusal(alloc: Global, became: &Became, text: &mut Vec<u8>) -> Result<(), AllocError>
    ensures { OnOk result (text.new.items ≡ text.old.items ++ refusal_line became.now) }
{
    match became {
        Became::Replied(id, reply) => push_if_refused(alloc, *id, reply, text),
        Became::Nothing | Became::NotOurs | Became::TooFarAhead | Became::Said(_, _) => Ok(()),
    }
}

/// The PDUs that are to be sent, the lines of indications and refusals, and whether a transaction ended: what a live
/// receiving entity has made since this was cleared.
#[derive(Drop)]
pub struct Output {
    pdus: Vec<Vec<u8>>,
    lines: Vec<u8>,
    has_ended: bool,
}

impl Model for Output {
    ghost use Rattle.cfdp_actions.specs.Listed.{vector_octets};
    ghost use Rattle.cfdp_live.specs.Living.{Out};

    ghost Value = { Out };

    ghost view = { λ o. record { sent = vector_octets o.pdus.items; reported = o.lines.items; ended = o.has_ended } };
}

impl Output {
    /// Nothing yet. Takes no memory.
    pub fn new(alloc: Global) -> Output
        ensures { result ≡ nothing }
    {
        Output {
            pdus: Vec::new(alloc),
            lines: Vec::new(alloc),
            has_ended: false,
        }
    }

    /// The octets of the PDUs that are to be sent, in order, each with its CRC if it has one.
    pub fn pdus(&self) -> &[Vec<u8>]
        ensures { vector_octets result.now ≡ self.now.sent }
    {
        &self.pdus
    }

    /// The lines of indications and of refusals of transactions, in order, as `cfdp run` writes them.
    pub fn lines(&self) -> &[u8]
        ensures { result.now ≡ self.now.reported }
    {
        &self.lines
    }

    /// Whether a transaction finished or was abandoned, so that the filestore may have changed.
    pub fn has_ended(&self) -> bool
        ensures { result ≡ self.now.ended }
    {
        self.has_ended
    }

    /// All was written: nothing is left.
    pub fn clear(&mut self)
        ensures { self.new ≡ nothing }
    {
        self.pdus.clear();
        self.lines.clear();
        self.has_ended = false;
    }

    /// Appends a PDU.
    fn push_pdu(&mut self, alloc: Global, octets: &[u8]) -> Result<(), AllocError>
        ensures { OnOk result (self.new ≡ with_sent self.old (octets.now ∷ [])) }
    {
        let pdu = Vec::from_slice(alloc, octets)?;
        Ok(self.pdus.push(pdu)?)
    }

    /// Appends the PDUs of an answer. `room` is where each PDU is made: the call writes over what is in it.
    fn push_pdus(
        &mut self,
        alloc: Global,
        receiver: &Receiver,
        answer: &Answer,
        room: &mut [u8],
    ) -> Result<(), AllocError>
        requires last { is_last receiver.now answer.now ≡ true }
        requires enough { max longest_sealed receiver.now.state.mib.longest_nak ≤ length room.old }
        ensures { OnOk result (self.new ≡ with_sent self.old
            (map (as_sent receiver.now.state.mib) (pdus_of receiver.now answer.now))) }
    {
        for number in 0..answer.pdu_count() {
            let Ok(len) = receiver.write(answer, number, room) else {
                unreachable!()
            };
            self.push_pdu(alloc, &room[..len])?;
        }
        Ok(())
    }

    /// Appends what was answered to the last input of a receiver. `room` is where each PDU is made: the call writes
    /// over what is in it.
    pub(crate) fn push(
        &mut self,
        alloc: Global,
        receiver: &Receiver,
        answer: &Answer,
        room: &mut [u8],
    ) -> Result<(), AllocError>
        requires last { is_last receiver.now answer.now ≡ true }
        requires enough { max longest_sealed receiver.now.state.mib.longest_nak ≤ length room.old }
        ensures { OnOk result (self.new ≡ with_more self.old
            (made_of_answer receiver.now.state.mib (answer_in receiver.now answer.now))) }
    {
        self.push_pdus(alloc, receiver, answer, room)?;
        push_indications(answer, &mut self.lines)?;
        push_refusal(alloc, answer.became(), &mut self.lines)?;
        self.has_ended = self.has_ended || has_end(answer);
        Ok(())
    }
}
