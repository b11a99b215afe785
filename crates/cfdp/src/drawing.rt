//! A picture of a script, collected a line at a time.

use crate::answers::{
    AnswerLine, Indicated, InputResult, first_became, first_word, is_among, read_answer,
};
use crate::drawn_pdu::{DrawnPdu, NamedFile, look_at as look_at_pdu};
use crate::drawn_state::{blocks_of, look_at as look_at_state};
use crate::fitting::{TextWidth, fitted};
use crate::notes::{is_bad_end, is_noted, push_became, push_cause, push_indication_note};
use cfdp_draw::{Blocks, Chart, Direction, Full, MOST_MOMENTS, MarkKind};
use cfdp_lines::{NEWLINE, decode_words};
use cfdp_receiver::Receiver;
use cfdp_run::{CommandFault, HeadProgress, RunCommand, default_mib, read_run_command};
use cfdp_run_script::RunScript;
use cfdp_status::TransactionId;
use std::alloc::{AllocError, Global};

/// The room for the title of a picture, which is bold.
const TITLE: TextWidth = TextWidth {
    width: 1_160,
    font: 18,
};

/// The room for the name of a file at the left of its lane.
const FILE: TextWidth = TextWidth {
    width: 136,
    font: 11,
};

/// The room for a note after its number, in pixels.
const NOTE: u64 = 1_150;

/// The room for why a run ended early, which is bold.
const ENDING: TextWidth = TextWidth {
    width: 1_030,
    font: 13,
};

/// The words of a timer that was served.
const SERVED: [&[u8]; 4] = [b"expired", b"kept-alive", b"ignored", b"faulted"];

/// The words of a PDU that was dropped.
const DROPPED: [&[u8]; 5] = [
    b"dropped",
    b"not-for-us",
    b"table-full",
    b"sources-full",
    b"unknown",
];

/// The replies to a Metadata PDU after which the transaction's file is the one that it names.
const NAMED: [&[u8]; 3] = [b"admitted", b"refused", b"faulted"];

/// What a line hands to the receiving entity.
#[derive(Drop)]
enum DrawnInput {
    /// Octets come.
    Came(Vec<u8>),
    /// The user cancels a transaction.
    Cancel(TransactionId),
    /// Time passes.
    Passed,
}

/// An input at a time.
#[derive(Drop)]
struct Timed {
    now: u64,
    input: DrawnInput,
}

/// What is said of a transaction at this moment.
#[derive(Drop)]
struct Noted {
    id: Option<TransactionId>,
    words: Vec<u8>,
}

/// A picture of a script after the lines so far.
#[derive(Drop)]
pub struct Drawing {
    chart: Chart,
    /// The transactions whose files were delivered.
    delivered: Vec<TransactionId>,
    /// What is noted at this moment.
    noted: Vec<Noted>,
    /// Which request would fail at this moment, and why, if that is known.
    cause: Vec<u8>,
    /// The greatest time so far.
    latest: u64,
}

/// What a line hands to the receiving entity, if it is such a line.
fn input_of(alloc: Global, line: &[u8]) -> Result<Option<Timed>, Full> {
    match read_run_command(alloc, line, default_mib(), HeadProgress::Playing) {
        Ok(Some(RunCommand::Receive { now, octets })) => Ok(Some(Timed {
            now,
            input: DrawnInput::Came(octets),
        })),
        Ok(Some(RunCommand::Cancel { now, id })) => Ok(Some(Timed {
            now,
            input: DrawnInput::Cancel(id),
        })),
        Ok(Some(RunCommand::Pass { now })) => Ok(Some(Timed {
            now,
            input: DrawnInput::Passed,
        })),
        Ok(_) | Err(CommandFault::Wrong(_)) => Ok(None),
        Err(CommandFault::Memory) => Err(Full::Memory),
    }
}

/// Whether a PDU was dropped.
fn is_dropped(became: InputResult<'_>) -> bool {
    became.id.is_none() || is_among(first_word(became.words), &DROPPED)
}

/// The kind of a mark of octets that came, which are a PDU of this kind if they are one.
fn kind_of(kind: MarkKind, became: InputResult<'_>) -> MarkKind {
    if became.id.is_none() && first_word(became.words) == b"dropped".as_slice() {
        MarkKind::NoPdu
    } else {
        kind
    }
}

/// Which way a PDU went that came.
fn direction_of(became: InputResult<'_>) -> Direction {
    if is_dropped(became) {
        Direction::Dropped
    } else {
        Direction::Came
    }
}

/// Whether the file of a Metadata PDU is that of its transaction from now on.
fn is_named(became: InputResult<'_>) -> bool {
    is_among(first_word(became.words), &NAMED)
}

/// How many digits a number has at most.
fn digits_of(number: u64) -> u64 {
    match number.checked_ilog10() {
        Some(log) => u64::from(log).saturating_add(1),
        None => 1,
    }
}

/// The room for the words of a note, after its time and its transaction.
fn room_for_note(time: u64, id: Option<TransactionId>) -> TextWidth {
    let digits = match id {
        Some(id) => digits_of(id.source).saturating_add(digits_of(id.number)),
        None => 0,
    };
    let before = digits.saturating_add(digits_of(time)).saturating_add(8);
    TextWidth {
        width: NOTE.saturating_sub(before.saturating_mul(7)),
        font: 11,
    }
}

impl Drawing {
    /// Before the first line of a script with a title.
    pub fn new(alloc: Global, title: &str, script: &RunScript) -> Result<Drawing, AllocError> {
        let title = fitted(alloc, title.as_bytes(), TITLE)?;
        let none = Blocks {
            used: 0,
            reserved: 0,
        };
        let mut drawing = Drawing {
            chart: Chart::new(alloc, title, 0, none),
            delivered: Vec::new(alloc),
            noted: Vec::new(alloc),
            cause: Vec::new(alloc),
            latest: 0,
        };
        drawing.begin(script);
        Ok(drawing)
    }

    /// The filestore is as it is now before the first input.
    fn begin(&mut self, script: &RunScript) {
        let entity = script.entity();
        self.chart.size = entity.core().config().blocks();
        self.chart.first = blocks_of(entity);
    }

    /// A line was carried out, which wrote this text.
    ///
    /// # Errors
    ///
    /// The picture has no room for what it did, or it is out of memory.
    pub fn line(
        &mut self,
        alloc: Global,
        line: &[u8],
        text: &[u8],
        script: &RunScript,
    ) -> Result<(), Full> {
        let Some(receiver) = script.receiver() else {
            self.begin(script);
            return Ok(());
        };
        match input_of(alloc, line)? {
            Some(timed) => self.moment(alloc, timed, text, receiver),
            None => Ok(()),
        }
    }

    /// An input was carried out, which wrote this text. What there is no room for is left out of the moment.
    fn moment(
        &mut self,
        alloc: Global,
        timed: Timed,
        text: &[u8],
        receiver: &Receiver,
    ) -> Result<(), Full> {
        if self.chart.here.moments >= MOST_MOMENTS {
            return Err(Full::Moments);
        }
        self.latest = self.latest.max(timed.now);
        let collected = self.collect(alloc, timed.input, text);
        self.see_all(alloc, receiver)?;
        self.chart
            .end_moment(self.latest, blocks_of(receiver.entity()))?;
        collected
    }

    /// Collects an input, and the lines that it wrote.
    fn collect(&mut self, alloc: Global, input: DrawnInput, text: &[u8]) -> Result<(), Full> {
        self.noted.clear();
        self.cause.clear();
        let serves = matches!(input, DrawnInput::Passed);
        self.input(alloc, input, text)?;
        for line in text.split(|octet| *octet == NEWLINE) {
            self.answer(alloc, serves, read_answer(line))?;
        }
        self.write_notes(alloc)
    }

    /// Collects an input.
    fn input(&mut self, alloc: Global, input: DrawnInput, text: &[u8]) -> Result<(), Full> {
        match input {
            DrawnInput::Came(octets) => self.came(alloc, octets, first_became(text)),
            DrawnInput::Cancel(id) => self.cancel(alloc, id),
            DrawnInput::Passed => Ok(()),
        }
    }

    /// A PDU came, or octets that are none.
    fn came(
        &mut self,
        alloc: Global,
        octets: Vec<u8>,
        became: InputResult<'_>,
    ) -> Result<(), Full> {
        let mut octets = octets;
        let DrawnPdu {
            id: _,
            kind,
            words,
            file,
        } = look_at_pdu(alloc, &mut octets)?;
        let kind = kind_of(kind, became);
        self.chart
            .mark(alloc, became.id, kind, direction_of(became), words)?;
        match file {
            Some(file) if is_named(became) => self.name_file(alloc, became, file),
            _ => Ok(()),
        }
    }

    /// A transaction has a file, and requests of which one may be why it is refused.
    fn name_file(
        &mut self,
        alloc: Global,
        became: InputResult<'_>,
        file: NamedFile,
    ) -> Result<(), Full> {
        push_cause(alloc, became.words, &file.requests, &mut self.cause)?;
        let name = fitted(alloc, &file.name, FILE)?;
        self.chart.name_file(alloc, became.id, name, file.size)
    }

    /// The user cancels a transaction.
    fn cancel(&mut self, alloc: Global, id: TransactionId) -> Result<(), Full> {
        let words = Vec::from_slice(alloc, b"the user cancels the transaction")?;
        self.chart
            .mark(alloc, Some(id), MarkKind::Cancel, Direction::Came, words)?;
        Ok(())
    }

    /// Collects a line that an input wrote. Whether timers are served by it.
    fn answer(&mut self, alloc: Global, serves: bool, answer: AnswerLine<'_>) -> Result<(), Full> {
        match answer {
            AnswerLine::Sent(digits) => self.sent(alloc, digits),
            AnswerLine::Indicated(indicated) => self.indicated(alloc, indicated),
            AnswerLine::Became(became) => {
                if serves {
                    self.timer(alloc, became)?;
                }
                self.became(alloc, became)
            }
            AnswerLine::Other => Ok(()),
        }
    }

    /// A PDU was sent.
    fn sent(&mut self, alloc: Global, digits: &[u8]) -> Result<(), Full> {
        let mut octets = Vec::new(alloc);
        if decode_words(digits, &mut octets).is_err() {
            return Err(Full::Memory);
        }
        let pdu = look_at_pdu(alloc, &mut octets)?;
        self.chart
            .mark(alloc, pdu.id, pdu.kind, Direction::Sent, pdu.words)?;
        Ok(())
    }

    /// A timer was served, if the words say so.
    fn timer(&mut self, alloc: Global, became: InputResult<'_>) -> Result<(), Full> {
        if !is_among(became.words, &SERVED) {
            return Ok(());
        }
        let mut words = Vec::from_slice(alloc, b"a timer: ")?;
        words.extend_from_slice(became.words)?;
        self.chart
            .mark(alloc, became.id, MarkKind::Timer, Direction::Came, words)?;
        Ok(())
    }

    /// The user is notified: of a fault, which is noted, or of something else.
    fn indicated(&mut self, alloc: Global, indicated: Indicated<'_>) -> Result<(), Full> {
        self.follow(indicated)?;
        if indicated.kind == b"fault".as_slice()
            || indicated.kind == b"abandoned".as_slice()
            || is_bad_end(indicated) && self.find_note(Some(indicated.id)).is_none()
        {
            let mut words = Vec::new(alloc);
            push_indication_note(indicated, &mut words)?;
            return self.note(alloc, Some(indicated.id), &words);
        }
        Ok(())
    }

    /// Follows whether the file of a transaction was delivered.
    fn follow(&mut self, indicated: Indicated<'_>) -> Result<(), Full> {
        if indicated.kind == b"metadata".as_slice() {
            self.forget(indicated.id);
        }
        if indicated.kind == b"finished".as_slice() && indicated.words.ends_with(b" complete 2") {
            self.delivered.push(indicated.id)?;
        }
        Ok(())
    }

    /// Where a transaction is among those whose files were delivered, if it is one.
    fn find_delivered(&self, id: TransactionId) -> Option<usize> {
        for (index, known) in self.delivered.iter().enumerate() {
            if *known == id {
                return Some(index);
            }
        }
        None
    }

    /// A transaction begins: a file that was delivered before is not its own.
    fn forget(&mut self, id: TransactionId) {
        if let Some(index) = self.find_delivered(id)
            && index < self.delivered.len()
        {
            self.delivered.swap_remove(index);
        }
    }

    /// What became of an input is noted, where it is refused, faulted or dropped: once where PDUs of a transaction are
    /// dropped for one reason, one after the other.
    fn became(&mut self, alloc: Global, became: InputResult<'_>) -> Result<(), Full> {
        if !is_noted(became.words) {
            return Ok(());
        }
        let mut words = Vec::new(alloc);
        push_became(became, &self.cause, &mut words)?;
        if is_dropped(became) && self.is_repeated(became.id, &words) {
            return Ok(());
        }
        self.note(alloc, became.id, &words)
    }

    /// Whether these words were noted last of a transaction, before this moment.
    fn is_repeated(&self, id: Option<TransactionId>, words: &[u8]) -> bool {
        let mut repeated = false;
        for note in &self.chart.notes {
            if note.id == id {
                repeated = note.words.as_slice() == words;
            }
        }
        repeated
    }

    /// The note of a transaction at this moment, if there is one.
    fn find_note(&self, id: Option<TransactionId>) -> Option<usize> {
        for (index, noted) in self.noted.iter().enumerate() {
            if noted.id == id {
                return Some(index);
            }
        }
        None
    }

    /// Something is said of a transaction at this moment. A lane has one note at a moment.
    fn note(&mut self, alloc: Global, id: Option<TransactionId>, words: &[u8]) -> Result<(), Full> {
        if let Some(index) = self.find_note(id) {
            if let Some(noted) = self.noted.get_mut(index) {
                noted.words.extend_from_slice(b"; ")?;
                noted.words.extend_from_slice(words)?;
            }
            return Ok(());
        }
        let words = Vec::from_slice(alloc, words)?;
        Ok(self.noted.push(Noted { id, words })?)
    }

    /// Writes the notes of this moment.
    fn write_notes(&mut self, alloc: Global) -> Result<(), Full> {
        for noted in &self.noted {
            let room = room_for_note(self.latest, noted.id);
            let words = fitted(alloc, &noted.words, room)?;
            self.chart.note(alloc, noted.id, self.latest, words)?;
        }
        Ok(())
    }

    /// Looks at each transaction that has a lane.
    fn see_all(&mut self, alloc: Global, receiver: &Receiver) -> Result<(), Full> {
        for index in 0..self.chart.lanes.len() {
            self.see(alloc, receiver, index)?;
        }
        Ok(())
    }

    /// Looks at the transaction of a lane.
    fn see(&mut self, alloc: Global, receiver: &Receiver, index: usize) -> Result<(), Full> {
        let Some(lane) = self.chart.lanes.get(index) else {
            return Ok(());
        };
        let Some(id) = lane.id else {
            return Ok(());
        };
        let delivered = match self.find_delivered(id) {
            Some(_) => Some(lane.size),
            None => None,
        };
        let seen = look_at_state(alloc, receiver, id, delivered)?;
        self.chart.see(alloc, Some(id), seen)
    }

    /// The run ends early, for this reason.
    pub fn end_early(&mut self, alloc: Global, why: &[u8]) -> Result<(), AllocError> {
        self.chart.ending = fitted(alloc, why, ENDING)?;
        Ok(())
    }

    /// Appends the picture.
    pub fn write(&self, text: &mut Vec<u8>) -> Result<(), AllocError> {
        self.chart.write(text)
    }
}
