//! `cfdp show`: what PDUs say.

use crate::elapsed::{Elapsed, ProgressReport};
use crate::end::End;
use crate::found::{FoundPdu, Location};
use crate::input;
use cfdp_words::{Style, show};
use std::alloc::Global;
use std::io;
use std::io::Write;
use std::rt::{Clock, Files};
use std::time::Instant;

/// Prints octets to standard output.
pub fn print<R: Print>(rt: &R, octets: &[u8]) -> Result<(), End> {
    let mut out = io::writer(rt);
    match out.write_all(octets) {
        Ok(()) => Ok(()),
        Err(_) => Err(End::Write),
    }
}

/// The lines of a PDU: for people where it begins and what it says, else both in one JSON value.
fn block(alloc: Global, style: Style, found: &mut FoundPdu) -> Result<Vec<u8>, End> {
    let location = found.location;
    let said = show(alloc, style, &mut found.octets)?;
    let mut text = match (style, location) {
        (Style::Text, _) => format!(in alloc; "{location}: ")?,
        (Style::Json, Location::Line(number)) => format!(in alloc; "{{\"line\":{number},\"pdu\":")?,
        (Style::Json, Location::Offset(offset)) => format!(in alloc;
            "{{\"offset\":{offset},\"pdu\":"
        )?,
        (Style::Json, Location::Frame(number)) => format!(in alloc;
            "{{\"frame\":{number},\"pdu\":"
        )?,
    }
    .into_bytes();
    match style {
        Style::Text => text.extend_from_slice(&said)?,
        Style::Json => {
            text.extend_from_slice(said.strip_suffix(b"\n").unwrap_or(&said))?;
            text.extend_from_slice(b"}\n")?;
        }
    }
    Ok(text)
}

/// Prints what PDUs say. Where that takes long, it says on standard error how far it is.
fn show_all<R: AllocGlobal + Clock + Eprint + Print>(
    rt: &R,
    style: Style,
    name: &str,
    all: &mut [FoundPdu],
) -> Result<(), End> {
    let count = all.len();
    let mut time_taken = Elapsed::new();
    for (index, found) in all.iter_mut().enumerate() {
        let begun = Instant::now(rt);
        print(rt, &block(rt.alloc(), style, found)?)?;
        let progress = ProgressReport {
            done: index.saturating_add(1),
            count,
            what: "PDUs shown",
        };
        time_taken.tell(rt, begun, name, progress);
    }
    Ok(())
}

/// Prints what the PDUs of a file say, or of standard input without one.
pub fn run<R: AllocGlobal + Clock + Eprint + Files + Input + Print>(
    rt: &R,
    style: Style,
    path: Option<&str>,
) -> Result<(), End> {
    let alloc = rt.alloc();
    let name = path.unwrap_or("-");
    let octets = match input::read(rt, path) {
        Err(End::Read) => return Err(End::file(alloc, name, "cannot be read")),
        read => read?,
    };
    let mut contents = input::find(alloc, name, &octets)?;
    show_all(rt, style, name, &mut contents.all)?;
    contents.tell_left_out(rt, name);
    contents.end(alloc, name)
}
