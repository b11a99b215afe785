//! A live receiving entity.

ghost use Rattle.std.specs.Prelude.{◌≡◌, ◌≢◌, ◌≤◌, ◌∷◌, [], length, true, false, max, Ok, IfOk, OnOk};
ghost use Rattle.cfdp_receiver.specs.Heard.{heard};
ghost use Rattle.cfdp_receiver.specs.StateMachine.{answer_in, is_last};
ghost use Rattle.cfdp_receiver.specs.Sent.{longest_sealed};
ghost use Rattle.cfdp_receiver.specs.State.{Expire, Finish, Work};
ghost use Rattle.cfdp_receiver.specs.Turning.{turn};
ghost use Rattle.cfdp_transactions.specs.MostSettled.{most_settled};
ghost use Rattle.cfdp_run.specs.Playing.{heard_inputs, is_nothing, most_timers, passing, settled_after, settling};
ghost use Rattle.cfdp_live.specs.Living.{MakesOut, made_of_answer, with_more};

use crate::output::Output;
use cfdp_pdus::PduFault;
use cfdp_receiver::{Answer, Became, Dropped, Receiver};
use cfdp_run::MOST_TIMERS;
use cfdp_transactions::MOST_SETTLED;
use std::alloc::{AllocError, Global};

/// A receiving entity to which octets and the present time come. After a PDU, and after each timer that is served, all
/// work is done and each outcome is taken. It has no stream, no clock and no file: what it makes is appended to an
/// [`Output`].
#[derive(Drop)]
pub struct Live {
    receiver: Receiver,
    room: Vec<u8>,
    ghost enough: { max longest_sealed receiver.state.mib.longest_nak ≤ length room.items },
}

impl Live {
    /// Over a receiver.
    ///
    /// # Errors
    ///
    /// [`AllocError`] when out of memory: the receiver is dropped.
    pub fn new(alloc: Global, receiver: Receiver) -> Result<Live, AllocError>
        ensures { IfOk result (λ live. live.receiver ≡ receiver) }
    {
        let longest = receiver.longest();
        let room = vec![in alloc; 0u8; longest]?;
        Ok(Live { receiver, room })
    }

    /// The receiver, for its deadline and its filestore. Costs nothing.
    pub fn receiver(&self) -> &Receiver
        ensures { result.now ≡ self.now.receiver }
    {
        &self.receiver
    }

    /// Appends what was answered to the last input.
    fn push(
        &mut self,
        alloc: Global,
        answer: &Answer,
        output: &mut Output,
    ) -> Result<(), AllocError>
        requires { is_last self.old.receiver answer.now ≡ true }
        ensures same { self.new.receiver ≡ self.old.receiver }
        ensures ok { OnOk result (output.new ≡ with_more output.old
            (made_of_answer self.old.receiver.state.mib (answer_in self.old.receiver answer.now))) }
    {
        output.push(alloc, &self.receiver, answer, &mut self.room)
    }

    /// The next item is performed.
    fn work(&mut self, alloc: Global, now: u64, output: &mut Output) -> Result<(), AllocError>
        ensures { OnOk result (MakesOut self.old.receiver.state
            (Work now ∷ []) self.new.receiver.state output.old output.new) }
    {
        let answer = self.receiver.work(now);
        self.push(alloc, &answer, output)
    }

    /// The next outcome is taken.
    fn finish(&mut self, alloc: Global, now: u64, output: &mut Output) -> Result<(), AllocError>
        ensures { OnOk result (MakesOut self.old.receiver.state
            (Finish now ∷ []) self.new.receiver.state output.old output.new) }
    {
        let answer = self.receiver.finish(alloc, now)?;
        self.push(alloc, &answer, output)
    }

    /// All items are performed and all outcomes taken.
    fn settle(&mut self, alloc: Global, now: u64, output: &mut Output) -> Result<(), AllocError>
        ensures { OnOk result (MakesOut self.old.receiver.state
            (settling most_settled now self.old.receiver.state) self.new.receiver.state output.old output.new) }
    {
        'inputs: for _ in 0..MOST_SETTLED {
            if self.receiver.has_work() {
                self.work(alloc, now, output)?;
            } else if self.receiver.has_outcome() {
                self.finish(alloc, now, output)?;
            } else {
                return Ok(());
            }
        }
        Ok(())
    }

    /// What was answered to an input is appended, and all is settled after it.
    fn follow(
        &mut self,
        alloc: Global,
        now: u64,
        answer: &Answer,
        output: &mut Output,
    ) -> Result<(), AllocError>
        requires { is_last self.old.receiver answer.now ≡ true }
        ensures { OnOk result (MakesOut self.old.receiver.state
            (settling most_settled now self.old.receiver.state) self.new.receiver.state
            (with_more output.old (made_of_answer self.old.receiver.state.mib (answer_in self.old.receiver answer.now)))
            output.new) }
    {
        self.push(alloc, answer, output)?;
        self.settle(alloc, now, output)
    }

    /// A timer that is due is served, and all is settled. Returns whether none was due.
    fn expire(&mut self, alloc: Global, now: u64, output: &mut Output) -> Result<bool, AllocError>
        ensures idle { IfOk result (λ idle. idle ≡ is_nothing
            (turn self.old.receiver.state (Expire now)).1.became) }
        ensures none { result ≡ Ok true → MakesOut self.old.receiver.state
            (Expire now ∷ []) self.new.receiver.state output.old output.new }
        ensures some { result ≡ Ok false → MakesOut self.old.receiver.state
            (settled_after now self.old.receiver.state (Expire now)) self.new.receiver.state output.old output.new }
    {
        let answer = self.receiver.expire(now);
        if let Became::Nothing | Became::TooFarAhead = answer.became() {
            self.push(alloc, &answer, output)?;
            return Ok(true);
        }
        self.follow(alloc, now, &answer, output)?;
        Ok(false)
    }

    /// Time passes: each timer that is due is served, and all is settled after each. None is due where the receiver's
    /// deadline has not come.
    ///
    /// # Errors
    ///
    /// [`AllocError`] when out of memory: a part of what was to be done is done. Cost: that of the calls of `Receiver`
    /// that it makes.
    pub fn pass(&mut self, alloc: Global, now: u64, output: &mut Output) -> Result<(), AllocError>
        ensures { OnOk result (MakesOut self.old.receiver.state
            (passing most_timers now self.old.receiver.state) self.new.receiver.state output.old output.new) }
    {
        'timers: for _ in 0..MOST_TIMERS {
            if self.expire(alloc, now, output)? {
                return Ok(());
            }
        }
        Ok(())
    }

    /// Takes the octets of one PDU that came, and settles all. Where they are dropped, nothing changes. The call may
    /// change them, since it takes a CRC off in place: do not use them after it.
    ///
    /// # Errors
    ///
    /// [`AllocError`] when out of memory: a part of what was to be done is done. Cost: that of the calls of `Receiver`
    /// that it makes.
    pub fn receive(
        &mut self,
        alloc: Global,
        now: u64,
        octets: &mut [u8],
        output: &mut Output,
    ) -> Result<(), AllocError>
        ensures { OnOk result (MakesOut self.old.receiver.state
            (heard_inputs now self.old.receiver.state (heard now octets.old)) self.new.receiver.state output.old
            output.new) }
    {
        match self.receiver.receive(alloc, now, octets) {
            Ok(answer) => self.follow(alloc, now, &answer, output),
            Err(Dropped::Pdu(PduFault::Memory)) => Err(AllocError),
            Err(_) => Ok(()),
        }
    }
}
