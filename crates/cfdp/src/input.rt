//! The input of a command: a file, or standard input.

use crate::end::End;
use crate::found::InputPdus;
use crate::{hexadecimal, octets, pcap};
use std::alloc::Global;
use std::fs;
use std::io::{Error, ErrorKind, Read};
use std::rt::Files;

/// How many octets are read or written at once. A datagram has no more, so it is read whole.
pub const PIECE: usize = 65_536;

/// What is said of a capture in another format.
const PCAPNG: &str =
    "a pcapng capture: expected the pcap format, into which 'editcap -F pcap' converts it";

/// What a fault of reading is to the program.
pub fn end_of(error: &Error) -> End {
    match error.kind() {
        ErrorKind::OutOfMemory => End::Memory,
        _ => End::Read,
    }
}

/// What a fault of reading an input with a name is to the program.
pub fn unread(alloc: Global, name: &str, error: &Error) -> End {
    match end_of(error) {
        End::Read => End::file(alloc, name, "cannot be read"),
        end => end,
    }
}

/// All that an input has.
fn read_all<I: Read + Drop>(alloc: Global, input: I) -> Result<Vec<u8>, End> {
    let mut octets = Vec::new(alloc);
    let mut input = input;
    match input.read_to_end(&mut octets) {
        Ok(_) => Ok(octets),
        Err(error) => Err(end_of(&error)),
    }
}

/// All that a file has, or standard input without one.
pub fn read<R: AllocGlobal + Files + Input>(rt: &R, path: Option<&str>) -> Result<Vec<u8>, End> {
    match path {
        None => read_all(rt.alloc(), rt.reader()),
        Some(path) => match fs::open(rt, path) {
            Ok(file) => read_all(rt.alloc(), file),
            Err(error) => Err(end_of(&error)),
        },
    }
}

/// The PDUs of an input with a name: of a capture, in hexadecimal, or as octets.
pub fn find(alloc: Global, name: &str, input: &[u8]) -> Result<InputPdus, End> {
    if pcap::is_capture(input) {
        pcap::read(alloc, name, input)
    } else if hexadecimal::is_text(input) {
        Ok(InputPdus::of(hexadecimal::read(alloc, name, input)?))
    } else if pcap::is_pcapng(input) {
        Err(End::file(alloc, name, PCAPNG))
    } else {
        Ok(InputPdus::of(octets::read(alloc, input)?))
    }
}
