//! A receiver and its last answer.

ghost use Rattle.std.specs.Prelude.{◌≡◌, ◌≤◌, ◌<◌, ◌^◌, ℕ, List, max, length, drop, take, slice_get, IfErr, IfOk, IsOk, OnErr, OnOk, None, Some};
ghost use Rattle.cfdp_receiver.specs.Due.{first_due, first_over};
ghost use Rattle.cfdp_receiver.specs.Handing.{own_time};
ghost use Rattle.cfdp_receiver.specs.Heard.{IsDropped};
ghost use Rattle.cfdp_receiver.specs.StateMachine.{has_come, is_any_due};
ghost use Rattle.cfdp_receiver.specs.Sent.{IsNotWritten, as_sent, crc_len, longest_sealed};
ghost use Rattle.cfdp_receiver.specs.State.{CancelAsked, ClockMoved, Expire, Finish, ForgetAsked, Work};
ghost use Rattle.cfdp_receiver.specs.declared.receiver.NotWritten.TheVariants.{NoMore};
ghost use Rattle.cfdp_reception.specs.Reception.{Hears, Turned, pdus_in};

use cfdp_entity::Entity;
use cfdp_receiver::{Answer, Dropped, NotWritten, Receiver};
use cfdp_status::TransactionId;
use std::alloc::{AllocError, Global};
use std::marker::Model;

/// A [`Receiver`] that keeps its answer to the last input, so that the PDUs of that answer can be written one by one.
///
/// Contracts see the receiver's state and the answer: none before the first input.
#[derive(Drop)]
pub struct Reception {
    receiver: Receiver,
    answer: Option<Answer>,
}

impl Model for Reception {
    ghost use Rattle.std.specs.Coded.{codes};
    ghost use Rattle.cfdp_transactions.specs.code.CoreFields.{nodes_code};
    ghost use Rattle.std.specs.Prelude.{◌≡◌, true, IfSome};
    ghost use Rattle.cfdp_receiver.specs.StateMachine.{is_last};
    ghost use Rattle.cfdp_reception.specs.Reception.{ReceptionFields};

    ghost Value = { ReceptionFields };

    ghost coded = { Prim.hlevel (codes, nodes_code) };

    ghost view = { λ r. record { machine = r.receiver; answer = r.answer } };

    // So that a PDU of it can be written.
    ghost invariant = { λ r. IfSome r.answer (λ a. is_last r.receiver a ≡ true) };
}

impl Reception {
    /// A receiver that has answered nothing yet. Cost: constant.
    pub fn new(receiver: Receiver) -> Reception
        ensures { result ≡ record { machine = receiver; answer = None } }
    {
        Reception {
            receiver,
            answer: None,
        }
    }

    /// Takes the octets of one PDU that came. The call may change them, since it takes a CRC off in place: do not use
    /// them after it. See [`Receiver::receive`], also for the cost.
    ///
    /// # Errors
    ///
    /// Why they were dropped; or out of memory, for a Metadata PDU alone. The receiver is as before, and so is the
    /// answer.
    pub fn receive(&mut self, alloc: Global, now: u64, octets: &mut [u8]) -> Result<(), Dropped>
        ensures ok { OnOk result (Hears now octets.old self.old self.new) }
        ensures err { IfErr result (IsDropped now octets.old) }
        ensures unchanged { OnErr result (self.new ≡ self.old) }
    {
        let answer = self.receiver.receive(alloc, now, octets)?;
        self.answer = Some(answer);
        Ok(())
    }

    /// Time has passed: the first timer that is due is served. See [`Receiver::expire`], also for the cost.
    pub fn expire(&mut self, now: u64)
        ensures { Turned self.old self.new (Expire now) }
    {
        self.answer = Some(self.receiver.expire(now));
    }

    /// The next item of the first transaction that has one is performed. See [`Receiver::work`], also for the cost.
    pub fn work(&mut self, now: u64)
        ensures { Turned self.old self.new (Work now) }
    {
        self.answer = Some(self.receiver.work(now));
    }

    /// The outcome of the first transaction that is over is taken. See [`Receiver::finish`], also for the cost.
    ///
    /// # Errors
    ///
    /// [`AllocError`] when out of memory, where a transaction is over: all is as before.
    pub fn finish(&mut self, alloc: Global, now: u64) -> Result<(), AllocError>
        ensures ok { OnOk result (Turned self.old self.new (Finish now)) }
        ensures lean { first_over self.old.machine.state.world self.old.machine.state.sessions ≡ None → IsOk result }
        ensures unchanged { OnErr result (self.new ≡ self.old) }
    {
        let answer = self.receiver.finish(alloc, now)?;
        self.answer = Some(answer);
        Ok(())
    }

    /// The user cancels a transaction. See [`Receiver::cancel`], also for the cost.
    pub fn cancel(&mut self, now: u64, id: TransactionId)
        ensures { Turned self.old self.new (CancelAsked now id) }
    {
        self.answer = Some(self.receiver.cancel(now, id));
    }

    /// The names of the transactions that were closed last are forgotten. See [`Receiver::forget_closed`], also for the
    /// cost.
    pub fn forget_closed(&mut self)
        ensures { Turned self.old self.new ForgetAsked }
    {
        self.answer = Some(self.receiver.forget_closed());
    }

    /// The driver's clock was set, back or ahead: its moment is this one by now. See [`Receiver::move_clock`], also for
    /// the cost.
    pub fn move_clock(&mut self, now: u64)
        ensures { Turned self.old self.new (ClockMoved now) }
    {
        self.answer = Some(self.receiver.move_clock(now));
    }

    /// The moment from which on a timer is due. See [`Receiver::deadline`], also for the cost.
    pub fn deadline(&self) -> Option<u64>
        ensures { (now : ℕ) → now < 2 ^ 64 → has_come result now
            ≡ is_any_due (first_due (record self.now.machine.state { now = own_time self.now.machine.state now })
            self.now.machine.state.sessions) }
    {
        self.receiver.deadline()
    }

    /// The answer to the last input. Costs nothing.
    pub fn answer(&self) -> &Option<Answer>
        ensures { result.now ≡ self.now.answer }
    {
        &self.answer
    }

    /// How many PDUs the answer to the last input has, 36 at most. Cost: constant.
    pub fn pdu_count(&self) -> usize
        ensures value { result ≡ length (pdus_in self.now) }
        ensures few { result ≤ 36 }
    {
        match &self.answer {
            None => 0,
            Some(answer) => answer.pdu_count(),
        }
    }

    /// Writes the PDU with this number of the answer to the last input. See [`Receiver::write`], also for the cost.
    ///
    /// # Errors
    ///
    /// [`NotWritten::NoMore`] where the answer has no such PDU, or there is no answer yet; else
    /// [`NotWritten::TooShort`].
    pub fn write(&self, number: usize, out: &mut [u8]) -> Result<usize, NotWritten>
        ensures ok { IfOk result (λ len. (octets : List ℕ) × (slice_get (pdus_in self.now) number ≡ Some octets)
            × (as_sent self.now.machine.state.mib octets ≡ take len out.new)) }
        ensures room { IfOk result (λ len. len ≤ length out.old) }
        ensures rest { IfOk result (λ len. drop len out.new ≡ drop len out.old) }
        ensures err { IfErr result (IsNotWritten (crc_len self.now.machine.state.mib)
            (slice_get (pdus_in self.now) number) (length out.old)) }
        ensures enough { max longest_sealed self.now.machine.state.mib.longest_nak ≤ length out.old →
            IfErr result (λ why. why ≡ NoMore) }
        ensures unchanged { OnErr result (out.new ≡ out.old) }
    {
        match &self.answer {
            None => Err(NotWritten::NoMore),
            Some(answer) => self.receiver.write(answer, number, out),
        }
    }

    /// The entity, for what it says of transactions, and for its filestore. Costs nothing.
    pub fn entity(&self) -> &Entity
        ensures { result.now ≡ self.now.machine.state.world }
    {
        self.receiver.entity()
    }
}
