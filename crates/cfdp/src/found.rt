//! The PDUs that are found in an input.

use crate::end::End;
use std::alloc::Global;
use std::fmt;

/// Where in the input a PDU begins.
#[derive(Clone, Copy, Debug, PartialEq, Eq)]
pub enum Location {
    /// The line with this number, counted from 1.
    Line(u64),
    /// The octet at this offset.
    Offset(u64),
    /// The frame with this number, counted from 1, of a capture.
    Frame(u64),
}

impl fmt::Display for Location {
    fn fmt<W: fmt::Write>(&self, f: &mut fmt::Formatter<W>) -> fmt::Result {
        match self {
            Location::Line(number) => write!(f, "line {number}"),
            Location::Offset(offset) => write!(f, "offset {offset}"),
            Location::Frame(number) => write!(f, "frame {number}"),
        }
    }
}

/// The octets of a PDU, and where they begin.
#[derive(Drop)]
pub struct FoundPdu {
    pub location: Location,
    pub octets: Vec<u8>,
}

/// The PDUs of an input, and what is not shown of it.
#[derive(Drop)]
pub struct InputPdus {
    pub all: Vec<FoundPdu>,
    /// How many datagrams of a capture are cut.
    pub cut: u64,
    /// How many frames of a capture have a fragment of a datagram.
    pub fragments: u64,
    /// The number of the frame within which a capture ends, where it is cut.
    pub ends_within: Option<u64>,
}

impl InputPdus {
    /// Without any PDU.
    pub fn new(alloc: Global) -> InputPdus {
        InputPdus::of(Vec::new(alloc))
    }

    /// With these PDUs, and nothing else.
    pub fn of(all: Vec<FoundPdu>) -> InputPdus {
        InputPdus {
            all,
            cut: 0,
            fragments: 0,
            ends_within: None,
        }
    }

    /// Prints on standard error how many frames of a capture are left out, if there are any.
    pub fn tell_left_out<R: Eprint>(&self, rt: &R, name: &str) {
        // Where standard error cannot be written, nothing is said.
        if self.cut > 0 {
            let count = self.cut;
            let _ = eprintln!(rt; "cfdp: {name}: datagrams that are cut were left out: {count}");
        }
        if self.fragments > 0 {
            let count = self.fragments;
            let _ = eprintln!(rt; "cfdp: {name}: IP fragments were left out: {count}");
        }
    }

    /// How the program ends after the PDUs of an input with a name.
    pub fn end(&self, alloc: Global, name: &str) -> Result<(), End> {
        let Some(number) = self.ends_within else {
            return Ok(());
        };
        let what = format!(in alloc; "the capture ends within frame {number}")?;
        Err(End::stream(alloc, name, what.as_str()))
    }
}
