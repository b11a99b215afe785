//! The PDUs of an answer are written.

ghost use Rattle.std.specs.Prelude.{◌≡◌, ◌≤◌, drop, length, map, slice_get, take, IfErr, IfOk, OnErr, None, Some};
ghost use Rattle.std.specs.Option.{option_map};
ghost use Rattle.cfdp_receiver.specs.StateMachine.{StateMachineFields, finished_for};
ghost use Rattle.cfdp_receiver.specs.declared.receiver.NotWritten.TheVariants.{NoMore, TooShort};
ghost use Rattle.cfdp_receiver.specs.Sent.{IsNotWritten, pdus_of};
ghost use Rattle.cfdp_receiver.specs.code.Sent.{after_ack, after_naks, nak_octets};
ghost use Rattle.cfdp_retransmission.specs.Naks.{naks};
ghost use Rattle.cfdp_transactions.specs.Writable.{longest_finished};

use crate::NotWritten;
use crate::answer::{Answer, NakSequence};
use crate::state_machine::StateMachine;
use cfdp_directives::{NakRange, put_ack, put_keep_alive, put_nak};
use cfdp_retransmission::{NakPart, next_nak};

/// What a writer answers where a PDU is there.
fn written(len: Option<usize>) -> Result<usize, NotWritten>
    ensures ok { IfOk result (λ n. len ≡ Some n) }
    ensures err { IfErr result (λ why. (len ≡ None) × (why ≡ TooShort)) }
{
    len.ok_or(NotWritten::TooShort)
}

/// The NAK PDU with this number of a sequence that [`next_nak`] cuts, if there is one.
fn nth_part<'a>(
    requests: &'a [NakRange],
    low: u64,
    high: u64,
    most: usize,
    number: usize,
) -> Option<NakPart<'a>>
    requires { 1 ≤ most }
    ensures { slice_get (naks most low high requests.now) number
        ≡ option_map (λ part. record { scope = part.scope; requests = part.requests.now }) result }
{
    let part = next_nak(requests, low, high, most);
    if number == 0 {
        return Some(part);
    }
    if part.rest.is_empty() {
        return None;
    }
    nth_part(part.rest, part.scope.1, high, most, number - 1)
}

impl NakSequence {
    /// How many PDUs it has: one at least.
    pub(crate) fn count(&self) -> usize
        ensures value { result ≡ length self.now }
        ensures few { result ≤ 33 }
    {
        1 + self.requests.len().saturating_sub(1) / self.most
    }

    /// Writes the PDU with this number.
    fn put(&self, number: usize, out: &mut [u8]) -> Result<usize, NotWritten>
        ensures ok { IfOk result (λ len. slice_get (map nak_octets self.now) number ≡ Some (take len out.new)) }
        ensures room { IfOk result (λ len. len ≤ length out.old) }
        ensures rest { IfOk result (λ len. drop len out.new ≡ drop len out.old) }
        ensures err { IfErr result (IsNotWritten 0 (slice_get (map nak_octets self.now) number) (length out.old)) }
        ensures enough { longest_finished ≤ length out.old → IfErr result (λ why. why ≡ NoMore) }
        ensures unchanged { OnErr result (out.new ≡ out.old) }
    {
        let Some(part) = nth_part(&self.requests, self.low, self.high, self.most, number) else {
            return Err(NotWritten::NoMore);
        };
        written(put_nak(&self.header, part.scope, part.requests, out))
    }
}

impl Answer {
    /// How many PDUs it has, 36 at most: one ACK PDU, 33 NAK PDUs, one Keep Alive PDU and one Finished PDU.
    pub fn pdu_count(&self) -> usize
        ensures value { (M : StateMachineFields) → result ≡ length (pdus_of M self.now) }
        ensures few { result ≤ 36 }
    {
        usize::from(self.ack.is_some())
            + match &self.naks {
                None => 0,
                Some(naks) => naks.count(),
            }
            + usize::from(self.keep_alive.is_some())
            + usize::from(self.finished.is_some())
    }
}

impl StateMachine {
    /// Writes the PDU with this number of an answer, without a CRC.
    pub(crate) fn put(
        &self,
        answer: &Answer,
        number: usize,
        out: &mut [u8],
    ) -> Result<usize, NotWritten>
        ensures ok { IfOk result (λ len. slice_get (pdus_of self.now answer.now) number ≡ Some (take len out.new)) }
        ensures room { IfOk result (λ len. len ≤ length out.old) }
        ensures rest { IfOk result (λ len. drop len out.new ≡ drop len out.old) }
        ensures err { IfErr result (IsNotWritten 0 (slice_get (pdus_of self.now answer.now) number) (length out.old)) }
        ensures enough { longest_finished ≤ length out.old → IfErr result (λ why. why ≡ NoMore) }
        ensures unchanged { OnErr result (out.new ≡ out.old) }
    {
        let Some((header, ack)) = &answer.ack else {
            return self.put_after_ack(answer, number, out);
        };
        if number == 0 {
            return written(put_ack(header, *ack, out));
        }
        self.put_after_ack(answer, number - 1, out)
    }

    /// Writes the PDU with this number of those after an ACK PDU.
    fn put_after_ack(
        &self,
        answer: &Answer,
        number: usize,
        out: &mut [u8],
    ) -> Result<usize, NotWritten>
        ensures ok { IfOk result (λ len. slice_get (after_ack self.now answer.now) number ≡ Some (take len out.new)) }
        ensures room { IfOk result (λ len. len ≤ length out.old) }
        ensures rest { IfOk result (λ len. drop len out.new ≡ drop len out.old) }
        ensures err { IfErr result (IsNotWritten 0 (slice_get (after_ack self.now answer.now) number)
            (length out.old)) }
        ensures enough { longest_finished ≤ length out.old → IfErr result (λ why. why ≡ NoMore) }
        ensures unchanged { OnErr result (out.new ≡ out.old) }
    {
        let Some(naks) = &answer.naks else {
            return self.put_after_naks(answer, number, out);
        };
        let count = naks.count();
        if number < count {
            return naks.put(number, out);
        }
        self.put_after_naks(answer, number - count, out)
    }

    /// Writes the PDU with this number of those after NAK PDUs.
    fn put_after_naks(
        &self,
        answer: &Answer,
        number: usize,
        out: &mut [u8],
    ) -> Result<usize, NotWritten>
        ensures ok { IfOk result (λ len. slice_get (after_naks self.now answer.now) number ≡ Some (take len out.new)) }
        ensures room { IfOk result (λ len. len ≤ length out.old) }
        ensures rest { IfOk result (λ len. drop len out.new ≡ drop len out.old) }
        ensures err { IfErr result (IsNotWritten 0 (slice_get (after_naks self.now answer.now) number)
            (length out.old)) }
        ensures enough { longest_finished ≤ length out.old → IfErr result (λ why. why ≡ NoMore) }
        ensures unchanged { OnErr result (out.new ≡ out.old) }
    {
        let Some((header, keep_alive)) = &answer.keep_alive else {
            return self.put_finished(answer, number, out);
        };
        if number == 0 {
            return written(put_keep_alive(header, *keep_alive, out));
        }
        self.put_finished(answer, number - 1, out)
    }

    /// Writes the Finished PDU of an answer, if there is one; `left` is 0 where it is asked for.
    fn put_finished(
        &self,
        answer: &Answer,
        left: usize,
        out: &mut [u8],
    ) -> Result<usize, NotWritten>
        ensures ok { IfOk result (λ len. slice_get (map (finished_for self.now) answer.now.finished) left
            ≡ Some (take len out.new)) }
        ensures room { IfOk result (λ len. len ≤ length out.old) }
        ensures rest { IfOk result (λ len. drop len out.new ≡ drop len out.old) }
        ensures err { IfErr result (IsNotWritten 0 (slice_get (map (finished_for self.now) answer.now.finished) left)
            (length out.old)) }
        ensures enough { longest_finished ≤ length out.old → IfErr result (λ why. why ≡ NoMore) }
        ensures unchanged { OnErr result (out.new ≡ out.old) }
    {
        let Some(id) = answer.finished else {
            return Err(NotWritten::NoMore);
        };
        if left > 0 {
            return Err(NotWritten::NoMore);
        }
        let octets = self.finished_octets(id);
        if out.len() < octets.len() {
            return Err(NotWritten::TooShort);
        }
        out[..octets.len()].copy_from_slice(octets);
        Ok(octets.len())
    }
}
