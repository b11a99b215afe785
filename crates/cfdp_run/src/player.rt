//! A receiving entity to which inputs come. After a PDU, after a cancel and after each timer that is served, all work
//! is done and each outcome is taken.

ghost use Rattle.std.specs.Prelude.{◌≡◌, ◌≤◌, ◌++◌, ◌∷◌, [], ℕ, List, Ok, true, false, length, max, IfOk, OnOk};
ghost use Rattle.cfdp_receiver.specs.Heard.{heard};
ghost use Rattle.cfdp_receiver.specs.StateMachine.{answer_in, is_last};
ghost use Rattle.cfdp_receiver.specs.Sent.{longest_sealed};
ghost use Rattle.cfdp_receiver.specs.State.{CancelAsked, ClockMoved, Expire, Finish, Work};
ghost use Rattle.cfdp_receiver.specs.Turning.{turn};
ghost use Rattle.cfdp_reports.specs.Reports.{answer_text};
ghost use Rattle.cfdp_transactions.specs.MostSettled.{most_settled};
ghost use Rattle.cfdp_run.specs.Playing.{Plays, after_turn, after_turns, heard_inputs, heard_text, is_nothing, most_timers, passing, settled_after, settling};

use cfdp_pdus::PduFault;
use cfdp_receiver::{Answer, Became, Dropped, Receiver};
use cfdp_reports::{NotReported, dropped_line, push_answer};
use cfdp_status::TransactionId;
use cfdp_transactions::MOST_SETTLED;
use std::alloc::{AllocError, Global};

/// How many timers are served at most at one moment: two for each of 64 sessions, and one that finds none due.
pub const MOST_TIMERS: usize = 129;

/// A receiving entity, and room for a PDU that it sends.
#[derive(Drop)]
pub struct Player {
    receiver: Receiver,
    room: Vec<u8>,
    ghost enough: { max longest_sealed receiver.state.mib.longest_nak ≤ length room.items },
}

impl Player {
    /// Over a receiver.
    ///
    /// # Errors
    ///
    /// [`AllocError`] when out of memory: the receiver is dropped.
    pub fn new(alloc: Global, receiver: Receiver) -> Result<Player, AllocError>
        ensures { IfOk result (λ player. player.receiver ≡ receiver) }
    {
        let longest = receiver.longest();
        let room = vec![in alloc; 0u8; longest]?;
        Ok(Player { receiver, room })
    }

    /// The receiver. Costs nothing.
    pub fn receiver(&self) -> &Receiver
        ensures { result.now ≡ self.now.receiver }
    {
        &self.receiver
    }

    /// Appends what was answered to the last input.
    fn write(
        &mut self,
        alloc: Global,
        answer: &Answer,
        text: &mut Vec<u8>,
    ) -> Result<(), AllocError>
        requires { is_last self.old.receiver answer.now ≡ true }
        ensures same { self.new.receiver ≡ self.old.receiver }
        ensures ok { OnOk result (text.new.items ≡ text.old.items
            ++ answer_text self.old.receiver.state.mib (answer_in self.old.receiver answer.now)) }
    {
        match push_answer(alloc, &self.receiver, answer, &mut self.room, text) {
            Ok(()) => Ok(()),
            Err(NotReported::Memory) => Err(AllocError),
            Err(NotReported::TooShort | NotReported::NotLast) => unreachable!(),
        }
    }

    /// The next item is performed.
    fn work(&mut self, alloc: Global, now: u64, text: &mut Vec<u8>) -> Result<(), AllocError>
        ensures { OnOk result (Plays self.old.receiver.state
            (Work now ∷ []) self.new.receiver.state text.old.items text.new.items) }
    {
        let answer = self.receiver.work(now);
        self.write(alloc, &answer, text)
    }

    /// The next outcome is taken.
    fn finish(&mut self, alloc: Global, now: u64, text: &mut Vec<u8>) -> Result<(), AllocError>
        ensures { OnOk result (Plays self.old.receiver.state
            (Finish now ∷ []) self.new.receiver.state text.old.items text.new.items) }
    {
        let answer = self.receiver.finish(alloc, now)?;
        self.write(alloc, &answer, text)
    }

    /// All items are performed and all outcomes taken.
    fn settle(&mut self, alloc: Global, now: u64, text: &mut Vec<u8>) -> Result<(), AllocError>
        ensures { OnOk result (Plays self.old.receiver.state
            (settling most_settled now self.old.receiver.state) self.new.receiver.state text.old.items text.new.items) }
    {
        'inputs: for _ in 0..MOST_SETTLED {
            if self.receiver.has_work() {
                self.work(alloc, now, text)?;
            } else if self.receiver.has_outcome() {
                self.finish(alloc, now, text)?;
            } else {
                return Ok(());
            }
        }
        Ok(())
    }

    /// What was answered to an input is written, and all is settled after it.
    fn follow(
        &mut self,
        alloc: Global,
        now: u64,
        answer: &Answer,
        text: &mut Vec<u8>,
    ) -> Result<(), AllocError>
        requires { is_last self.old.receiver answer.now ≡ true }
        ensures { OnOk result ((lines : List ℕ) × (lines ≡ answer_text self.old.receiver.state.mib
            (answer_in self.old.receiver answer.now))
            × Plays self.old.receiver.state (settling most_settled now self.old.receiver.state) self.new.receiver.state
            (text.old.items ++ lines) text.new.items) }
    {
        self.write(alloc, answer, text)?;
        self.settle(alloc, now, text)
    }

    /// The user cancels a transaction, and all is settled.
    ///
    /// # Errors
    ///
    /// [`AllocError`] when out of memory. Cost: that of the calls of `Receiver` that it makes.
    pub fn cancel(
        &mut self,
        alloc: Global,
        now: u64,
        id: TransactionId,
        text: &mut Vec<u8>,
    ) -> Result<(), AllocError>
        ensures { OnOk result (Plays self.old.receiver.state
            (settled_after now self.old.receiver.state (CancelAsked now id)) self.new.receiver.state text.old.items
            text.new.items) }
    {
        let answer = self.receiver.cancel(now, id);
        self.follow(alloc, now, &answer, text)
    }

    /// The driver's clock was set: its moment is this one by now. It writes nothing, and nothing is due by it.
    ///
    /// # Errors
    ///
    /// [`AllocError`] when out of memory. Cost: that of [`Receiver::move_clock`].
    pub fn move_clock(
        &mut self,
        alloc: Global,
        now: u64,
        text: &mut Vec<u8>,
    ) -> Result<(), AllocError>
        ensures { OnOk result (Plays self.old.receiver.state
            (ClockMoved now ∷ []) self.new.receiver.state text.old.items text.new.items) }
    {
        let answer = self.receiver.move_clock(now);
        self.write(alloc, &answer, text)
    }

    /// A timer that is due is served, and all is settled. Returns whether none was due.
    fn expire(&mut self, alloc: Global, now: u64, text: &mut Vec<u8>) -> Result<bool, AllocError>
        ensures idle { IfOk result (λ idle. idle ≡ is_nothing
            (turn self.old.receiver.state (Expire now)).1.became) }
        ensures none { result ≡ Ok true → Plays self.old.receiver.state
            (Expire now ∷ []) self.new.receiver.state text.old.items text.new.items }
        ensures some { result ≡ Ok false → Plays self.old.receiver.state
            (settled_after now self.old.receiver.state (Expire now)) self.new.receiver.state text.old.items
            text.new.items }
    {
        let answer = self.receiver.expire(now);
        if let Became::Nothing | Became::TooFarAhead = answer.became() {
            self.write(alloc, &answer, text)?;
            return Ok(true);
        }
        self.follow(alloc, now, &answer, text)?;
        Ok(false)
    }

    /// Time passes: each timer that is due is served, and all is settled after each.
    ///
    /// # Errors
    ///
    /// [`AllocError`] when out of memory. Cost: that of the calls of `Receiver` that it makes.
    pub fn pass(&mut self, alloc: Global, now: u64, text: &mut Vec<u8>) -> Result<(), AllocError>
        ensures { OnOk result (Plays self.old.receiver.state
            (passing most_timers now self.old.receiver.state) self.new.receiver.state text.old.items text.new.items) }
    {
        'timers: for _ in 0..MOST_TIMERS {
            if self.expire(alloc, now, text)? {
                return Ok(());
            }
        }
        Ok(())
    }

    /// Takes the octets of one PDU that came, and settles all. Where they are dropped, a line says why, and nothing
    /// else is done. The call may change them, since it takes a CRC off in place: do not use them after it.
    ///
    /// # Errors
    ///
    /// [`AllocError`] when out of memory. Cost: that of the calls of `Receiver` that it makes.
    pub fn receive(
        &mut self,
        alloc: Global,
        now: u64,
        octets: &mut [u8],
        text: &mut Vec<u8>,
    ) -> Result<(), AllocError>
        ensures state { OnOk result (self.new.receiver.state
            ≡ after_turns self.old.receiver.state (heard_inputs now self.old.receiver.state (heard now octets.old))) }
        ensures text { OnOk result (text.new.items ≡ text.old.items
            ++ heard_text now self.old.receiver.state (heard now octets.old)) }
    {
        match self.receiver.receive(alloc, now, octets) {
            Ok(answer) => self.follow(alloc, now, &answer, text),
            Err(Dropped::Pdu(PduFault::Memory)) => Err(AllocError),
            Err(dropped) => text.extend_from_slice(dropped_line(dropped)),
        }
    }
}
