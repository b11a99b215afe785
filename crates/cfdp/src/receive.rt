//! `cfdp receive`: a live receiving entity. PDUs come on standard input and go to standard output, one after the other;
//! indications go to standard error, and a folder holds what the filestore holds.

use crate::clock::MillisecondClock;
use crate::end::End;
use crate::folder::FolderNames;
use crate::input_thread::{InputPiece, Pieces};
use crate::mirror::Mirror;
use crate::setup::MibSetup;
use crate::{folder, judge, mirror, setup};
use cfdp_cutter::{CutFault, Cutter};
use cfdp_live::{Live, Output};
use cfdp_receiver::{NotMade, Receiver};
use std::alloc::Global;
use std::io;
use std::io::Write;
use std::rt::{Clock, Files, Runtime};
use std::sync::Wait;
use std::thread::Threads;

/// What the words of `receive` say.
#[derive(Clone, Copy)]
pub struct LiveOptions<'a> {
    /// The folder that holds what the filestore holds.
    pub into: &'a str,
    /// The file of the setup.
    pub mib: Option<&'a str>,
}

/// A live entity between its streams, and the folder of its filestore.
#[derive(Drop)]
struct LiveStation<'a, R> {
    rt: &'a R,
    running_clock: MillisecondClock,
    cutter: Cutter,
    /// How many octets came before the piece that is cut.
    taken: u64,
    live: Live,
    output: Output,
    mirror: Mirror<'a>,
}

/// The live entity of a setup, whose filestore has what the folder has.
fn live_of<R: AllocGlobal + Clone + Drop + Files + Input>(
    rt: &R,
    folder: &str,
    setup: &MibSetup,
) -> Result<Live, End> {
    let alloc = rt.alloc();
    let mut entity = judge::entity_of(alloc, &setup.entity)?;
    folder::put(rt, folder, FolderNames::Printed, &mut entity)?;
    match Receiver::new(alloc, setup.mib, entity) {
        Ok(receiver) => Ok(Live::new(alloc, receiver)?),
        Err(unmade) if unmade.why == NotMade::Memory => Err(End::Memory),
        Err(_) => Err(End::Plan(String::from_str(alloc, "the setup is out of range")?)),
    }
}

/// How the program ends where a stream goes on with an octet that begins no PDU.
fn lost(alloc: Global, offset: u64) -> End {
    format!(in alloc; "-: offset {offset}: no PDU begins here: expected version 1").map_or(
        End::Memory,
        End::Stream,
    )
}

/// How the program ends where a stream ends with a part of a PDU.
fn cut_off(alloc: Global, offset: u64, count: usize) -> End {
    format!(in alloc; "-: offset {offset}: the input ends after {count} octets of this PDU").map_or(
        End::Memory,
        End::Stream,
    )
}

/// Prints lines on standard error. Where that cannot be written, nothing is printed.
fn say<R: Eprint>(rt: &R, lines: &[u8]) {
    if let Ok(text) = str::from_utf8(lines) {
        if !text.is_empty() {
            let _ = eprint!(rt; "{text}");
        }
    }
}

/// Writes PDUs to standard output, each by itself, so that each can be a datagram of its own.
fn send<R: Print>(rt: &R, pdus: &[Vec<u8>]) -> Result<(), End> {
    for pdu in pdus {
        let Ok(()) = io::writer(rt).write_all(pdu) else {
            return Err(End::Unwritten);
        };
    }
    Ok(())
}

impl<'a, R: AllocGlobal + Clock + Eprint + Files + Print> LiveStation<'a, R> {
    /// Before the first octet.
    fn new(rt: &'a R, folder: &'a str, live: Live) -> Result<LiveStation<'a, R>, End> {
        let alloc = rt.alloc();
        let mirror = Mirror::new(alloc, folder, live.receiver().entity())?;
        Ok(LiveStation {
            rt,
            running_clock: MillisecondClock::start(rt)?,
            cutter: Cutter::new(alloc),
            taken: 0,
            live,
            output: Output::new(alloc),
            mirror,
        })
    }

    /// What the entity made of an input is handed out: first the folder changes, so that what is sent is true of it.
    fn hand_out(&mut self) -> Result<(), End> {
        if self.output.has_ended() {
            self.mirror.update(self.rt, self.live.receiver().entity())?;
        }
        say(self.rt, self.output.lines());
        let sent = send(self.rt, self.output.pdus());
        self.output.clear();
        sent
    }

    /// A PDU came.
    fn receive(&mut self, pdu: Vec<u8>) -> Result<(), End> {
        let mut pdu = pdu;
        let now = self.running_clock.now(self.rt);
        self.live
            .receive(self.rt.alloc(), now, &mut pdu, &mut self.output)?;
        self.hand_out()
    }

    /// The next PDU is cut off the front of a piece with this length, if it is whole.
    fn cut(&mut self, len: usize, rest: &mut &[u8]) -> Result<Option<Vec<u8>>, End> {
        match self.cutter.next(rest) {
            Ok(pdu) => Ok(pdu),
            Err(CutFault::Memory) => Err(End::Memory),
            Err(CutFault::Version) => {
                let count = len.saturating_sub(rest.len()) as u64;
                Err(lost(self.rt.alloc(), self.taken.saturating_add(count)))
            }
        }
    }

    /// Octets came.
    fn take(&mut self, octets: &[u8]) -> Result<(), End> {
        let mut rest = octets;
        for _ in 0..=octets.len() {
            let Some(pdu) = self.cut(octets.len(), &mut rest)? else {
                break;
            };
            self.receive(pdu)?;
        }
        self.taken = self.taken.saturating_add(octets.len() as u64);
        Ok(())
    }

    /// The input ended, which may be only after a whole PDU.
    fn end(&self) -> Result<(), End> {
        let count = self.cutter.len();
        if count == 0 {
            return Ok(());
        }
        let offset = self.taken.saturating_sub(count as u64);
        Err(cut_off(self.rt.alloc(), offset, count))
    }

    /// How many milliseconds there are until the first timer is due, if one runs.
    fn patience(&mut self) -> Option<u64> {
        let now = self.running_clock.now(self.rt);
        match self.live.receiver().deadline() {
            Some(deadline) => Some(deadline.saturating_sub(now)),
            None => None,
        }
    }

    /// Serves the timers that are due.
    fn pass(&mut self) -> Result<(), End> {
        if self.patience() != Some(0) {
            return Ok(());
        }
        let now = self.running_clock.now(self.rt);
        self.live.pass(self.rt.alloc(), now, &mut self.output)?;
        self.hand_out()
    }

    /// A piece of the input came, or did not come in time. Returns whether there may be more.
    fn follow(&mut self, piece: InputPiece) -> Result<bool, End> {
        match piece {
            InputPiece::Octets(octets) => self.take(&octets)?,
            InputPiece::Late => {}
            InputPiece::Ended => {
                self.end()?;
                return Ok(false);
            }
            InputPiece::Unread => return Err(End::Read),
            InputPiece::Memory => return Err(End::Memory),
        }
        self.pass()?;
        Ok(true)
    }
}

/// Goes on until the input ends.
fn serve<R: AllocGlobal + Clock + Eprint + Files + Print + Wait>(
    rt: &R,
    pieces: &Pieces,
    station: &mut LiveStation<'_, R>,
) -> Result<(), End> {
    for _ in rt.forever() {
        let patience = station.patience();
        let piece = pieces.next(rt, patience);
        if !station.follow(piece)? {
            return Ok(());
        }
    }
    Ok(())
}

/// The live entity that a run begins with: its setup is read, and then the folder, which is made if there is none.
fn begin<R: AllocGlobal + Clone + Drop + Files + Input>(
    rt: &R,
    options: LiveOptions<'_>,
) -> Result<Live, End> {
    let setup = setup::read(rt, options.mib)?;
    mirror::open(rt, options.into)?;
    live_of(rt, options.into, &setup)
}

/// Starts to read standard input, and receives until it ends.
fn receive_all<R: AllocGlobal + Runtime + Send + Threads + Wait + 'static>(
    rt: &R,
    station: &mut LiveStation<'_, R>,
) -> Result<(), End>
where
    R::Reader: Send + 'static,
{
    let pieces = Pieces::start(rt, rt.reader())?;
    serve(rt, &pieces, station)
}

/// Receives until standard input ends.
pub fn run<R: AllocGlobal + Runtime + Send + Threads + Wait + 'static>(
    rt: &R,
    options: LiveOptions<'_>,
) -> Result<(), End>
where
    R::Reader: Send + 'static,
{
    let live = begin(rt, options)?;
    let mut station = LiveStation::new(rt, options.into, live)?;
    receive_all(rt, &mut station)
}
