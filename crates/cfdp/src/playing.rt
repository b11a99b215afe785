//! A script of an input, carried out a line at a time.

use crate::elapsed::Elapsed;
use crate::end::End;
use crate::input::PIECE;
use crate::put_files::PutFiles;
use cfdp_lines::{INPUT_LIMIT, NEWLINE};
use cfdp_run::{ScriptStop, push_wrong};
use cfdp_run_script::{RunScript, ScriptSession};
use cfdp_streams::{FromRead, ScriptIn};
use cfdp_texts::push_labelled;
use std::alloc::{AllocError, Global};
use std::io::Read;
use std::rt::{Clock, Files};
use std::time::Instant;

/// What became of octets of a script.
#[derive(Clone, Copy)]
enum ReadSoFar {
    /// They are a part of a line.
    Part,
    /// A line ended with them, and was carried out.
    Line,
    /// The script ended.
    Ended,
}

/// A script that is read from an input, and carried out a line at a time. Where that takes long, it says on standard
/// error how far it is.
#[derive(Drop)]
pub struct Playing<'a, R, I> {
    rt: &'a R,
    /// The name of the input in messages.
    name: &'a str,
    input: FromRead<I>,
    session: ScriptSession,
    /// Octets that were read. Those from `start` to `end` are not taken yet.
    buffer: Vec<u8>,
    start: usize,
    end: usize,
    /// How many octets more the input may have.
    left: usize,
    /// What was taken of the line that is being read.
    line: Vec<u8>,
    has_ended: bool,
    time_taken: Elapsed,
}

/// How the program ends where a script stops at the line with a number; `None` at `end`.
fn end_of(
    alloc: Global,
    name: &str,
    number: u64,
    stop: ScriptStop,
) -> Result<Option<End>, AllocError> {
    let mut said = String::from_str(alloc, name)?.into_bytes();
    push_labelled(b":", number, &mut said)?;
    said.extend_from_slice(b": ")?;
    match stop {
        ScriptStop::Ended => Ok(None),
        ScriptStop::Wrong(wrong) => {
            push_wrong(wrong, &mut said)?;
            Ok(Some(End::Script(said)))
        }
        ScriptStop::Unmet(line) => {
            said.extend_from_slice(b"expected ")?;
            said.extend_from_slice(&line)?;
            Ok(Some(End::Unmet(said)))
        }
        ScriptStop::Unread(file) => {
            said.extend_from_slice(&file)?;
            said.extend_from_slice(b": read failed")?;
            Ok(Some(End::Failed(said)))
        }
        ScriptStop::Memory => Ok(Some(End::Memory)),
    }
}

/// Hands octets to a session, and returns how many it took. It returns 0 where there are no octets, or where the number
/// of lines is the greatest u64.
fn hand_on<R: Files>(
    alloc: Global,
    session: &mut ScriptSession,
    files: &mut PutFiles<'_, R>,
    octets: &[u8],
    text: &mut Vec<u8>,
) -> Result<usize, ScriptStop> {
    if octets.is_empty() || session.number().checked_add(1).is_none() {
        return Ok(0);
    }
    session.take(alloc, files, octets, text)
}

/// Ends a session: a last line without a newline is carried out.
fn end_session<R: Files>(
    alloc: Global,
    session: &mut ScriptSession,
    files: &mut PutFiles<'_, R>,
    text: &mut Vec<u8>,
) -> Result<(), ScriptStop> {
    session.finish(alloc, files, text)
}

impl<'a, R: AllocGlobal + Clock + Eprint + Files, I: Read + Drop> Playing<'a, R, I> {
    /// Before the first line of an input, which has this name in messages.
    pub fn new(rt: &'a R, name: &'a str, input: I) -> Result<Playing<'a, R, I>, End> {
        let alloc = rt.alloc();
        Ok(Playing {
            rt,
            name,
            input: FromRead::new(input),
            session: ScriptSession::new(alloc)?,
            buffer: vec![in alloc; 0_u8; PIECE]?,
            start: 0,
            end: 0,
            left: INPUT_LIMIT,
            line: Vec::new(alloc),
            has_ended: false,
            time_taken: Elapsed::new(),
        })
    }

    /// The script after the lines so far.
    pub fn script(&self) -> &RunScript {
        self.session.script()
    }

    /// The line that was carried out last, without its newline.
    pub fn line(&self) -> &[u8] {
        self.line.strip_suffix(b"\n").unwrap_or(&self.line)
    }

    /// Reads the next octets. There are none at the end.
    fn refill(&mut self) -> Result<(), End> {
        let alloc = self.rt.alloc();
        let room = self.left.clamp(1, PIECE).min(self.buffer.len());
        let Ok(count) = self.input.read(&mut self.buffer[..room]) else {
            return Err(End::unread(alloc, self.name));
        };
        let Some(left) = self.left.checked_sub(count) else {
            return Err(End::unread(alloc, self.name));
        };
        self.left = left;
        self.start = 0;
        self.end = count;
        Ok(())
    }

    /// How the script goes on after this answer of the session.
    fn came_of(&mut self, answer: Result<usize, ScriptStop>) -> Result<ReadSoFar, End> {
        let count = match answer {
            Ok(count) => count,
            Err(stop) => {
                self.has_ended = true;
                let number = self.session.number();
                return match end_of(self.rt.alloc(), self.name, number, stop)? {
                    None => Ok(ReadSoFar::Ended),
                    Some(end) => Err(end),
                };
            }
        };
        let end = self.start.saturating_add(count);
        let taken = self.buffer.get(self.start..end).unwrap_or(&[]);
        self.line.extend_from_slice(taken)?;
        self.start = end;
        match self.line.last() {
            Some(&NEWLINE) => Ok(ReadSoFar::Line),
            _ => Ok(ReadSoFar::Part),
        }
    }

    /// Takes octets that were read up to the end of a line, or all of them.
    fn take(&mut self, text: &mut Vec<u8>) -> Result<ReadSoFar, End> {
        let octets = self.buffer.get(self.start..self.end).unwrap_or(&[]);
        let mut files = PutFiles::new(self.rt);
        let answer = hand_on(self.rt.alloc(), &mut self.session, &mut files, octets, text);
        self.came_of(answer)
    }

    /// The input ends here. A last line without a newline is carried out. Whether there is one.
    fn finish(&mut self, text: &mut Vec<u8>) -> Result<bool, End> {
        self.has_ended = true;
        let mut files = PutFiles::new(self.rt);
        match end_session(self.rt.alloc(), &mut self.session, &mut files, text) {
            Ok(()) => Ok(!self.line.is_empty()),
            Err(stop) => {
                self.came_of(Err(stop))?;
                Ok(false)
            }
        }
    }

    /// Prints how far the script is, where it is time to do that.
    fn tell(&mut self, since: Instant) {
        if let Some(seconds) = self.time_taken.add(self.rt, since) {
            let name = self.name;
            let line = self.session.number();
            // Where standard error cannot be written, nothing is said.
            let _ = eprintln!(self.rt; "cfdp: {name}: line {line} after {seconds} s");
        }
    }

    /// Carries out the next line, and replaces the text by what it writes. Returns false where there is no further
    /// line.
    pub fn next(&mut self, text: &mut Vec<u8>) -> Result<bool, End> {
        text.clear();
        self.line.clear();
        for _ in 0..u64::MAX {
            if self.has_ended {
                return Ok(false);
            }
            if self.start >= self.end {
                self.refill()?;
            }
            let begun = Instant::now(self.rt);
            if self.end == 0 {
                return self.finish(text);
            }
            let came = self.take(text)?;
            if let Ok(begun) = begun {
                self.tell(begun);
            }
            match came {
                ReadSoFar::Part => {}
                ReadSoFar::Line => return Ok(true),
                ReadSoFar::Ended => return Ok(false),
            }
        }
        Ok(false)
    }
}
