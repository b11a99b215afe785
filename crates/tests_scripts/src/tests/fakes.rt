//! Readers and writers that fail, or are slow, or take nothing. They do not show their octets.
ghost use Rattle.std.specs.Prelude.{None, IfOk, length, ◌≤◌};

use cfdp_sim::{Failed, ScriptIn, ScriptOut};
use std::alloc::Global;
use std::io;

/// How many octets move at a call, and the number of the call that fails, counted from 0, if there is one.
#[derive(Clone, Copy)]
pub(super) struct Stream {
    pub(super) most: usize,
    pub(super) fails_at: Option<usize>,
}

impl Stream {
    /// No call fails.
    pub(super) fn sound(most: usize) -> Stream {
        Stream {
            most,
            fails_at: None,
        }
    }

    /// The call of this number fails.
    pub(super) fn failing(most: usize, call: usize) -> Stream {
        Stream {
            most,
            fails_at: Some(call),
        }
    }
}

/// Gives its octets a few at a call, and fails at a call, if the stream says so.
#[derive(Drop)]
pub(super) struct Reader<'a> {
    octets: &'a [u8],
    stream: Stream,
    calls: usize,
    failed: bool,
}

impl<'a> Reader<'a> {
    pub(super) fn new(octets: &'a [u8], stream: Stream) -> Self {
        Reader {
            octets,
            stream,
            calls: 0,
            failed: false,
        }
    }
}

/// Moves the first octets to the front of the buffer, at most this many, and returns how many.
fn fill(octets: &mut &[u8], most: usize, buffer: &mut [u8]) -> usize
    ensures { result ≤ length buffer.new }
{
    let count = buffer.len().min(most).min(octets.len());
    let (piece, rest) = octets.split_at(count);
    for (target, octet) in buffer.iter_mut().zip(piece) {
        *target = *octet;
    }
    *octets = rest;
    count
}

impl<'a> ScriptIn for Reader<'a> {
    ghost remaining = { λ s. None };

    ghost failed = { λ s. s.failed };

    fn read(&mut self, buffer: &mut [u8]) -> Result<usize, Failed> {
        if self.stream.fails_at == Some(self.calls) {
            self.failed = true;
            return Err(Failed);
        }
        self.calls = self.calls.saturating_add(1);
        Ok(fill(&mut self.octets, self.stream.most, buffer))
    }

    fn has_failed(&self) -> bool {
        self.failed
    }
}

/// Takes a few octets at a call, and fails at a call, if the stream says so.
#[derive(Drop)]
pub(super) struct Writer {
    pub(super) text: Vec<u8>,
    stream: Stream,
    calls: usize,
    failed: bool,
    /// Whether it failed since it ran out of memory for its own text.
    pub(super) refused: bool,
}

impl Writer {
    pub(super) fn new(alloc: Global, stream: Stream) -> Self {
        Writer {
            text: Vec::new(alloc),
            stream,
            calls: 0,
            failed: false,
            refused: false,
        }
    }
}

impl ScriptOut for Writer {
    ghost contents = { λ s. None };

    ghost failed = { λ s. s.failed };

    fn write(&mut self, octets: &[u8]) -> Result<usize, Failed> {
        let count = octets.len().min(self.stream.most.max(1));
        let (piece, _) = octets.split_at(count);
        if self.stream.fails_at == Some(self.calls) {
            self.failed = true;
            return Err(Failed);
        }
        if self.text.extend_from_slice(piece).is_err() {
            self.failed = true;
            self.refused = true;
            return Err(Failed);
        }
        self.calls = self.calls.saturating_add(1);
        Ok(count)
    }

    fn has_failed(&self) -> bool {
        self.failed
    }
}

/// What each call of std's reader or writer answers, in turn: this many octets, or an error.
#[derive(Clone, Copy)]
pub(super) enum Call {
    Moves,
    Nothing,
    Interrupted,
    Broken,
}

/// A reader and writer of std's that answers its calls so, and then as the last one.
#[derive(Drop)]
pub(super) struct Scripted<'a> {
    pub(super) calls: &'a [Call],
}

/// What a call returns for this many octets.
fn answer(call: Call, len: usize) -> io::Result<usize>
    ensures { IfOk result (λ n. n ≤ len) }
{
    match call {
        Call::Moves => Ok(len.min(1)),
        Call::Nothing => Ok(0),
        Call::Interrupted => Err(io::Error::from(io::ErrorKind::Interrupted)),
        Call::Broken => Err(io::Error::from(io::ErrorKind::BrokenPipe)),
    }
}

impl<'a> Scripted<'a> {
    fn next(&mut self) -> Call {
        match self.calls {
            [call, rest @ ..] => {
                self.calls = rest;
                *call
            }
            [] => Call::Nothing,
        }
    }
}

impl<'a> io::Read for Scripted<'a> {
    fn read(&mut self, buffer: &mut [u8]) -> io::Result<usize> {
        answer(self.next(), buffer.len())
    }
}

impl<'a> io::Write for Scripted<'a> {
    fn write(&mut self, octets: &[u8]) -> io::Result<usize> {
        answer(self.next(), octets.len())
    }

    fn flush(&mut self) -> io::Result<()> {
        Ok(())
    }
}
