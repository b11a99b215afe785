//! A receiver that is handed one input after the other, about one transaction, with the text of its last answer.
//! An input that is out of memory has changed nothing, and is handed in again. Nothing but the
//! receiver asks for memory once it is made.

use cfdp_actions::Protected;
use cfdp_directives::{NakRange, TransactionStatus};
use cfdp_entity::Entity;
use cfdp_pdus::PduFault;
use cfdp_receiver::{Answer, Dropped, Handler, Mib, NakMode, NotMade, Receiver, Retries, Watch};
use cfdp_reports::{NotReported, dropped_line, push_answer};
use cfdp_sessions::Stage;
use cfdp_status::TransactionId;
use cfdp_transactions::{Config, Phase};
use std::alloc::{AllocError, Global};

/// Three expiries of 10 ticks each, and then the transaction is cancelled.
const RETRIES: Retries = Retries {
    interval: 10,
    limit: 3,
    at_limit: Handler::Cancel,
};

/// What is set where a script sets nothing else.
const MIB: Mib = Mib {
    ack: RETRIES,
    nak: RETRIES,
    check: Watch {
        interval: 10,
        at_limit: Handler::Cancel,
    },
    inactivity: Watch {
        interval: 100,
        at_limit: Handler::Cancel,
    },
    keep_alive: None,
    nak_mode: NakMode::Deferred,
    has_crc: false,
    longest_nak: 65_535,
    most_ahead: None,
};

/// The longest PDU that comes.
const LONGEST: usize = 512;

/// What comes, or is asked for.
#[derive(Clone, Copy)]
pub(super) enum Input {
    Metadata,
    /// The octets 4 to 7.
    Data,
    /// All octets.
    AllData,
    Eof,
    /// With condition 15.
    EofCancel,
    AckEof,
    AckFinished,
    PromptNak,
    PromptKeepAlive,
    Nak,
    KeepAlive,
    Finished,
    /// These octets, in acknowledged mode.
    Pdu(&'static str),
    /// A timer is served at each of these moments: what is due is of the last.
    Time(&'static [u64]),
    Work,
    Finish,
    Cancel,
    Forget,
    /// That many other transactions begin.
    Others(u8),
    /// That many other transactions of a source, 250 at most, begin, are cancelled, and are closed.
    Closed(u8, u8),
    /// A transaction of each of that many other sources begins.
    Sources(u8),
    /// A transaction of each of that many other sources begins, is cancelled, and is closed.
    Places(u8),
}

impl Input {
    /// Its name, for a test that fails.
    pub(super) fn name(self) -> &'static str {
        match self {
            Input::Metadata => "Metadata",
            Input::Data => "Data",
            Input::AllData => "AllData",
            Input::Eof => "Eof",
            Input::EofCancel => "EofCancel",
            Input::AckEof => "AckEof",
            Input::AckFinished => "AckFinished",
            Input::PromptNak => "PromptNak",
            Input::PromptKeepAlive => "PromptKeepAlive",
            Input::Nak => "Nak",
            Input::KeepAlive => "KeepAlive",
            Input::Finished => "Finished",
            Input::Pdu(_) => "Pdu",
            Input::Time(_) => "Time",
            Input::Work => "Work",
            Input::Finish => "Finish",
            Input::Cancel => "Cancel",
            Input::Forget => "Forget",
            Input::Others(_) => "Others",
            Input::Closed(_, _) => "Closed",
            Input::Sources(_) => "Sources",
            Input::Places(_) => "Places",
        }
    }
}

/// The transaction that all inputs are about.
const ID: TransactionId = TransactionId {
    source: 1,
    number: 5,
};

/// The octets of the PDU that comes, in acknowledged mode.
fn octets_of(input: Input) -> Option<&'static str> {
    Some(match input {
        Input::Metadata => "20000a0001050207400000000f01730166",
        Input::Data => "300008000105020000000404050607",
        Input::AllData => "3000130001050200000000000102030405060708090a0b0c0d0e",
        Input::Eof => "20000a000105020400181c20150000000f",
        Input::EofCancel => "20000d0001050204f0181c20150000000f060101",
        Input::AckEof => "200003000105020640f1",
        Input::AckFinished => "20000300010502065102",
        Input::PromptNak => "200002000105020900",
        Input::PromptKeepAlive => "200002000105020980",
        Input::Nak => "20000900010502080000000000000000",
        Input::KeepAlive => "200005000105020c00000000",
        Input::Finished => "200002000105020502",
        Input::Pdu(spelled) => spelled,
        _ => return None,
    })
}

/// What a receiver answers to questions, without memory: its timers, work and outcomes, what it says of the
/// transaction and of the filestore.
#[derive(Clone, Copy, PartialEq, Eq)]
struct ActorView {
    deadline: Option<u64>,
    has_work: bool,
    has_outcome: bool,
    status: TransactionStatus,
    stage: Option<Stage>,
    /// How long the Finished PDU is that waits.
    finished: usize,
    phase: Option<Phase>,
    grant: Option<(u32, u32)>,
    progress: Option<u64>,
    reach: Option<u64>,
    /// How many gaps there are, and the first one.
    gaps: Option<(usize, NakRange)>,
    spare: u32,
}

/// A receiver, and the text of its last answer.
#[derive(Drop)]
pub(super) struct Actor {
    receiver: Receiver,
    is_acknowledged: bool,
    /// What was answered last.
    pub(super) text: Vec<u8>,
    /// For a PDU that is sent.
    room: Vec<u8>,
    /// The moment of the last input.
    moment: u64,
    /// How much later the next one is.
    stride: u64,
    /// Something had changed after a call that was out of memory.
    pub(super) has_changed: bool,
}

/// A receiver of this configuration, over an empty filestore.
fn made(alloc: Global, config: Config) -> Result<Result<Receiver, NotMade>, AllocError> {
    let entity = Entity::new(alloc, config)?;
    Ok(Receiver::new(alloc, MIB, entity).map_err(|unmade| unmade.why))
}

/// A receiver, made once more where it was out of memory. `None` of a configuration that is out of range.
pub(super) fn made_at_last(alloc: Global) -> Result<Option<Receiver>, AllocError> {
    for _ in 0..2 {
        let Ok(config) = Config::new(2, 64, 2_400, 2, 1_000, Protected::new()) else {
            return Ok(None);
        };
        match made(alloc, config)? {
            Ok(receiver) => return Ok(Some(receiver)),
            Err(NotMade::Memory) => {}
            Err(_) => return Ok(None),
        }
    }
    Err(AllocError)
}

impl Actor {
    /// A receiver without sessions, to which inputs come at moment 5, or each that many moments after the one before.
    pub(super) fn new(
        alloc: Global,
        is_acknowledged: bool,
        stride: u64,
    ) -> Result<Option<Actor>, AllocError> {
        let Some(receiver) = made_at_last(alloc)? else {
            return Ok(None);
        };
        let longest = receiver.longest();
        Ok(Some(Actor {
            receiver,
            is_acknowledged,
            text: Vec::with_capacity(alloc, 4_096)?,
            room: vec![in alloc; 0u8; longest]?,
            moment: 5,
            stride,
            has_changed: false,
        }))
    }

    /// What is seen now.
    fn seen(&self) -> ActorView {
        let receiver = &self.receiver;
        let session = receiver.session(ID);
        let core = receiver.entity().core();
        ActorView {
            deadline: receiver.deadline(),
            has_work: receiver.has_work(),
            has_outcome: receiver.has_outcome(),
            status: receiver.status(ID),
            stage: session.map(|session| session.stage),
            finished: session.map_or(0, |session| session.finished.len()),
            phase: core.phase(ID),
            grant: core.grant(ID),
            progress: core.progress(ID),
            reach: core.reach(ID),
            gaps: core.gaps(ID).map(|gaps| {
                let first = gaps.as_slice().first().copied().unwrap_or((0, 0));
                (gaps.as_slice().len(), first)
            }),
            spare: core.spare(),
        }
    }

    /// An input was out of memory, and it was handed in again, at the moment of the input before it. All was as
    /// before then, and its own moment was not noted: no timer runs from it.
    fn was_refused(&mut self, before: &ActorView, between: &ActorView) {
        let late = self.moment.saturating_add(self.stride);
        let is_noted = self
            .receiver
            .deadline()
            .is_some_and(|deadline| late <= deadline);
        self.has_changed = self.has_changed || between != before || is_noted;
    }

    /// Makes the text of an answer.
    fn write(&mut self, alloc: Global, answer: &Answer) -> Result<(), AllocError> {
        self.text.clear();
        match push_answer(
            alloc,
            &self.receiver,
            answer,
            &mut self.room,
            &mut self.text,
        ) {
            Ok(()) => Ok(()),
            Err(NotReported::TooShort) => self.text.extend_from_slice(b"too short\n"),
            Err(NotReported::NotLast) => self.text.extend_from_slice(b"not the last\n"),
            Err(NotReported::Memory) => Err(AllocError),
        }
    }

    /// Hands in octets, which are copied since the receiver may change them.
    fn hand_in(&mut self, alloc: Global, moment: u64, octets: &[u8]) -> Result<Answer, Dropped> {
        let mut copy = [0u8; LONGEST];
        match copy.get_mut(..octets.len()) {
            Some(copy) => {
                copy.copy_from_slice(octets);
                self.receiver.receive(alloc, moment, copy)
            }
            None => Err(Dropped::Pdu(PduFault::Truncated)),
        }
    }

    /// Like `hand_in`, once more where it was out of memory.
    fn hand_in_at_last(&mut self, alloc: Global, octets: &[u8]) -> Result<Answer, Dropped> {
        let before = self.seen();
        let next = self.moment.saturating_add(self.stride);
        match self.hand_in(alloc, next, octets) {
            Err(Dropped::Pdu(PduFault::Memory)) => {
                let between = self.seen();
                let heard = self.hand_in(alloc, self.moment, octets);
                self.was_refused(&before, &between);
                heard
            }
            heard => {
                self.moment = next;
                heard
            }
        }
    }

    /// Octets come.
    fn receive(&mut self, alloc: Global, octets: &[u8]) -> Result<(), AllocError> {
        match self.hand_in_at_last(alloc, octets) {
            Ok(answer) => self.write(alloc, &answer),
            Err(Dropped::Pdu(PduFault::Memory)) => Err(AllocError),
            Err(dropped) => self.text.extend_from_slice(dropped_line(dropped)),
        }
    }

    /// The outcome of the first transaction that is over is taken, once more where that was out of memory.
    fn finish(&mut self, alloc: Global) -> Result<(), AllocError> {
        let before = self.seen();
        let next = self.moment.saturating_add(self.stride);
        let answer = match self.receiver.finish(alloc, next) {
            Ok(answer) => {
                self.moment = next;
                answer
            }
            Err(_) => {
                let between = self.seen();
                let answer = self.receiver.finish(alloc, self.moment)?;
                self.was_refused(&before, &between);
                answer
            }
        };
        self.write(alloc, &answer)
    }

    /// A PDU comes, in the mode of the stage.
    fn hear(&mut self, alloc: Global, spelled: &str) -> Result<(), AllocError> {
        let mut room = [0u8; LONGEST];
        let Some(octets) = room.get_mut(..spelled.len() / 2) else {
            return Ok(());
        };
        if hex::decode_to_slice(spelled, octets).is_err() {
            return Ok(());
        }
        if let Some(first) = octets.first_mut() {
            if !self.is_acknowledged {
                *first |= 4;
            }
        }
        self.receive(alloc, octets)
    }

    /// The Metadata PDU of another transaction, without a file.
    fn hear_other(&mut self, alloc: Global, source: u8, number: u8) -> Result<(), AllocError> {
        self.receive(
            alloc,
            &[0x20, 0, 8, 0, source, number, 2, 7, 0x40, 0, 0, 0, 0, 0, 0],
        )
    }

    /// Another transaction begins, if it can, is cancelled, and is closed: whether it began.
    fn close_other(&mut self, alloc: Global, source: u8, number: u8) -> Result<bool, AllocError> {
        self.hear_other(alloc, source, number)?;
        let id = TransactionId {
            source: u64::from(source),
            number: u64::from(number),
        };
        let has_begun = self.receiver.session(id).is_some();
        self.receiver.cancel(self.moment, id);
        self.finish(alloc)?;
        self.receive(alloc, &[0x20, 0, 3, 0, source, number, 2, 6, 0x51, 0xf2])?;
        Ok(has_begun)
    }

    /// How many of 300 transactions of one source begin, each after the one before was closed. Their numbers have one
    /// octet, and come round.
    pub(super) fn begun_in_turn(&mut self, alloc: Global) -> Result<u16, AllocError> {
        let mut count = 0u16;
        for number in 0..300u16 {
            if self.close_other(alloc, 7, (number % 256) as u8)? {
                count = count.saturating_add(1);
            }
        }
        Ok(count)
    }

    /// A timer is served at each of the moments.
    fn pass(&mut self, alloc: Global, moments: &[u64]) -> Result<(), AllocError> {
        for moment in moments {
            self.moment = *moment;
            let answer = self.receiver.expire(*moment);
            self.write(alloc, &answer)?;
        }
        Ok(())
    }

    /// Takes an input.
    pub(super) fn take(&mut self, alloc: Global, input: Input) -> Result<(), AllocError> {
        self.text.clear();
        if let Some(spelled) = octets_of(input) {
            return self.hear(alloc, spelled);
        }
        let answer = match input {
            Input::Time(moments) => return self.pass(alloc, moments),
            Input::Others(count) => {
                for number in 0..count {
                    self.hear_other(alloc, 3, number)?;
                }
                return Ok(());
            }
            Input::Closed(source, count) => {
                for number in 0..count {
                    self.close_other(alloc, source, number.wrapping_add(6))?;
                }
                return Ok(());
            }
            Input::Places(count) => {
                for number in 0..count {
                    self.close_other(alloc, number.wrapping_add(10), 0)?;
                }
                return Ok(());
            }
            Input::Sources(count) => {
                for number in 0..count {
                    self.hear_other(alloc, number.wrapping_add(10), 0)?;
                }
                return Ok(());
            }
            Input::Forget => self.receiver.forget_closed(),
            Input::Work => self.receiver.work(self.moment),
            Input::Finish => return self.finish(alloc),
            _ => self.receiver.cancel(self.moment, ID),
        };
        self.write(alloc, &answer)
    }

    /// How far the transaction is, in a word.
    pub(super) fn stage(&self) -> &'static str {
        let Some(session) = self.receiver.session(ID) else {
            return match self.receiver.status(ID) {
                TransactionStatus::Terminated => "closed",
                TransactionStatus::Undefined => "undefined",
                _ => "none",
            };
        };
        match session.stage {
            Stage::Held(_) => "held",
            Stage::Over(_) => "over",
            Stage::Waiting => "waiting",
            Stage::Known => match self.receiver.entity().core().phase(ID) {
                Some(Phase::Receiving) => "receiving",
                Some(Phase::Awaiting(_)) => "awaiting",
                Some(Phase::Executing(_)) => "executing",
                _ => "over",
            },
        }
    }
}
