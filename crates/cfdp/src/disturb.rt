//! `cfdp disturb`: a script whose PDUs come over a bad link.

use crate::end::End;
use crate::input::{PIECE, unread};
use crate::show::print;
use cfdp_disturb::{Copies, Draw, Link, is_pdu_line};
use cfdp_lines::{INPUT_LIMIT, LINE_LIMIT, LineFault, OpenLine};
use rand_core::utils::NextWord;
use rand_pcg::Pcg32;
use std::alloc::Global;
use std::fs;
use std::io::Read;
use std::rt::Files;

/// How likely it is, in percent, that something happens to a PDU line.
#[derive(Clone, Copy)]
pub struct Odds {
    pub loss: u8,
    pub twice: u8,
    pub swap: u8,
}

/// The stream of PCG32 from which is drawn.
const STREAM: u64 = 54;

/// How the program ends where this line of a script with a name, counted from 1, is too long.
fn too_long(alloc: Global, name: &str, number: u64) -> End {
    format!(in alloc; "{name}:{number}: longer than {LINE_LIMIT} octets").map_or(
        End::Memory,
        End::Stream,
    )
}

/// The next number from 0 to 99.
fn percent(random: &mut Pcg32) -> u8 {
    let word: u32 = random.next_word();
    (u64::from(word) * 100 >> 32) as u8
}

/// What is drawn for a line: three numbers for a PDU line, in this order for its loss, for whether it comes twice, and
/// for a swap.
fn draw(random: &mut Pcg32, odds: Odds, line: &[u8]) -> Draw {
    if !is_pdu_line(line) {
        return Draw {
            copies: Copies::Once,
            swapped: false,
        };
    }
    let loss = percent(random);
    let twice = percent(random);
    let swap = percent(random);
    let copies = if loss < odds.loss {
        Copies::Lost
    } else if twice < odds.twice {
        Copies::Twice
    } else {
        Copies::Once
    };
    Draw {
        copies,
        swapped: swap < odds.swap,
    }
}

/// A link with what is drawn for its lines.
#[derive(Drop)]
struct DrawnLink {
    odds: Odds,
    random: Pcg32,
    link: Link,
    /// What is not written yet.
    text: Vec<u8>,
}

impl DrawnLink {
    /// Before the first line.
    fn new(alloc: Global, odds: Odds, seed: u64) -> DrawnLink {
        DrawnLink {
            odds,
            random: Pcg32::new(seed, STREAM),
            link: Link::new(),
            text: Vec::new(alloc),
        }
    }

    /// Writes what is held back.
    fn flush<R: Print>(&mut self, rt: &R) -> Result<(), End> {
        print(rt, &self.text)?;
        self.text.clear();
        Ok(())
    }

    /// Takes the next line, and writes what is held back if there is enough of it.
    fn take<R: AllocGlobal + Print>(&mut self, rt: &R, line: &[u8]) -> Result<(), End> {
        let draw = draw(&mut self.random, self.odds, line);
        self.link.take(rt.alloc(), line, draw, &mut self.text)?;
        if self.text.len() < PIECE {
            return Ok(());
        }
        self.flush(rt)
    }

    /// The script ends here.
    fn finish<R: Print>(&mut self, rt: &R) -> Result<(), End> {
        self.link.finish(&mut self.text)?;
        self.flush(rt)
    }
}

/// A script that is read.
#[derive(Drop)]
struct DisturbScript<'a> {
    /// Its name in messages.
    name: &'a str,
    /// The line that is being read, and its number, counted from 1.
    line: OpenLine,
    number: u64,
    link: DrawnLink,
}

impl<'a> DisturbScript<'a> {
    /// Before the first line.
    fn new(alloc: Global, name: &'a str, odds: Odds, seed: u64) -> DisturbScript<'a> {
        DisturbScript {
            name,
            line: OpenLine::new(alloc),
            number: 1,
            link: DrawnLink::new(alloc, odds, seed),
        }
    }

    /// How the program ends at the line that is being read.
    fn end_of(&self, alloc: Global, fault: LineFault) -> End {
        match fault {
            LineFault::Bad => too_long(alloc, self.name, self.number),
            LineFault::Memory => End::Memory,
        }
    }

    /// Takes the next octets.
    fn take<R: AllocGlobal + Print>(&mut self, rt: &R, octets: &[u8]) -> Result<(), End> {
        let mut rest = octets;
        'lines: loop {
            let end = match self.line.take(rest) {
                Ok(Some(end)) => end,
                Ok(None) => return Ok(()),
                Err(fault) => return Err(self.end_of(rt.alloc(), fault)),
            };
            let line = self.line.ended(rest, end);
            if line.len() > LINE_LIMIT {
                return Err(self.end_of(rt.alloc(), LineFault::Bad));
            }
            self.link.take(rt, line)?;
            self.line.clear();
            self.number = self.number.saturating_add(1);
            rest = &rest[end + 1..];
        }
    }

    /// The script ends here. A last line without a newline is a line, too.
    fn finish<R: AllocGlobal + Print>(&mut self, rt: &R) -> Result<(), End> {
        let line = self.line.octets();
        if !line.is_empty() {
            self.link.take(rt, line)?;
        }
        self.link.finish(rt)
    }
}

/// Takes all that an input has.
fn take_all<R: AllocGlobal + Print, I: Read + Drop>(
    rt: &R,
    input: I,
    script: &mut DisturbScript<'_>,
) -> Result<(), End> {
    let alloc = rt.alloc();
    let mut input = input;
    let mut room = vec![in alloc; 0_u8; PIECE]?;
    let mut total = 0_u64;
    for _ in 0..=INPUT_LIMIT as u64 {
        let count = match input.read(&mut room) {
            Ok(count) => count,
            Err(error) => return Err(unread(alloc, script.name, &error)),
        };
        if count == 0 {
            break;
        }
        total = total.saturating_add(count as u64);
        if total > INPUT_LIMIT as u64 {
            return Err(End::file(alloc, script.name, "longer than 268435456 octets"));
        }
        script.take(rt, room.get(..count).unwrap_or(&[]))?;
    }
    Ok(())
}

/// Writes what results from a script over a link.
fn disturb<R: AllocGlobal + Print, I: Read + Drop>(
    rt: &R,
    name: &str,
    input: I,
    odds: Odds,
    seed: u64,
) -> Result<(), End> {
    let mut script = DisturbScript::new(rt.alloc(), name, odds, seed);
    match take_all(rt, input, &mut script) {
        Ok(()) => script.finish(rt),
        Err(end) => {
            script.link.flush(rt)?;
            Err(end)
        }
    }
}

/// Writes what results from the script in a file, or of standard input without one, over a link with these odds. The
/// same comes for the same seed.
pub fn run<R: AllocGlobal + Files + Input + Print>(
    rt: &R,
    odds: Odds,
    seed: u64,
    path: Option<&str>,
) -> Result<(), End> {
    match path {
        None => disturb(rt, "-", rt.reader(), odds, seed),
        Some(path) => match fs::open(rt, path) {
            Ok(file) => disturb(rt, path, file, odds, seed),
            Err(error) => Err(unread(rt.alloc(), path, &error)),
        },
    }
}
