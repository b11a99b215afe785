//! Standard input, read by a thread of its own: it comes in pieces over a channel, so that who waits for one can stop
//! waiting at a deadline.

use crate::end::End;
use crate::input::PIECE;
use crossbeam_channel::{Receiver, RecvTimeoutError, Sender, bounded};
use std::alloc::Global;
use std::io::{ErrorKind, Read};
use std::rt::Clock;
use std::sync::Wait;
use std::thread;
use std::thread::Threads;
use std::time::Duration;

/// How many pieces are read before they are taken.
const AHEAD: usize = 16;

/// What comes next of standard input.
#[derive(Drop)]
pub enum InputPiece {
    /// Octets, of which there are some.
    Octets(Vec<u8>),
    /// It ended.
    Ended,
    /// Nothing came until the deadline.
    Late,
    /// It cannot be read.
    Unread,
    /// Out of memory.
    Memory,
}

/// The pieces of standard input.
#[derive(Drop)]
pub struct Pieces {
    inbox: Receiver<InputPiece, Global>,
}

/// Reads the next piece into the room, and copies it.
fn next_piece<I: Read>(alloc: Global, input: &mut I, room: &mut [u8]) -> InputPiece {
    match input.read(room) {
        Ok(0) => InputPiece::Ended,
        Ok(count) => {
            let octets = room.get(..count).unwrap_or(&[]);
            Vec::from_slice(alloc, octets).map_or(InputPiece::Memory, InputPiece::Octets)
        }
        Err(error) if error.kind() == ErrorKind::OutOfMemory => InputPiece::Memory,
        Err(_) => InputPiece::Unread,
    }
}

/// Sends a piece. Returns whether more is wanted: there is more, and somebody waits for it.
fn send<R: Wait>(rt: &R, outbox: &Sender<InputPiece, Global>, piece: InputPiece) -> bool {
    let is_last = !matches!(&piece, InputPiece::Octets(_));
    outbox.send(rt, piece).is_ok() && !is_last
}

/// Reads the input to its end, as long as somebody takes the pieces.
fn read_all<R: Wait, I: Read + Drop>(
    rt: &R,
    alloc: Global,
    mut input: I,
    outbox: &Sender<InputPiece, Global>,
) {
    let Ok(mut room) = vec![in alloc; 0_u8; PIECE] else {
        send(rt, outbox, InputPiece::Memory);
        return;
    };
    for _ in rt.forever() {
        let piece = next_piece(alloc, &mut input, &mut room);
        if !send(rt, outbox, piece) {
            break;
        }
    }
}

impl Pieces {
    /// Starts to read the input. The thread that does it is cut off where the program ends before its input.
    pub fn start<
        R: AllocGlobal + Clone + Drop + Send + Threads + Wait + 'static,
        I: Read + Drop + Send + 'static,
    >(rt: &R, input: I) -> Result<Pieces, End> {
        let alloc = rt.alloc();
        let (outbox, inbox) = bounded(alloc, AHEAD)?;
        let theirs = rt.clone()?;
        match thread::spawn(rt, move || read_all(&theirs, alloc, input, &outbox)) {
            Ok(_) => Ok(Pieces { inbox }),
            Err(_) => Err(End::Memory),
        }
    }

    /// Waits for the next piece, or at most for these milliseconds, if they are given.
    pub fn next<R: Clock + Wait>(&self, rt: &R, millis: Option<u64>) -> InputPiece {
        let Some(millis) = millis else {
            return self.inbox.recv(rt).unwrap_or(InputPiece::Unread);
        };
        match self.inbox.recv_timeout(rt, Duration::from_millis(millis)) {
            Ok(piece) => piece,
            Err(RecvTimeoutError::Timeout) => InputPiece::Late,
            Err(RecvTimeoutError::Disconnected) => InputPiece::Unread,
        }
    }
}
