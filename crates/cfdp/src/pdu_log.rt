//! What is done beside the text of a script: its PDUs are reported in words, and captured.

use crate::capture::{Capture, CaptureDirection};
use crate::end::End;
use cfdp_lines::{LineFault, NEWLINE, decode_words};
use cfdp_run::{CommandFault, HeadProgress, RunCommand, default_mib, read_run_command};
use cfdp_words::{Style, show};
use std::alloc::{AllocError, Global};
use std::io::Write;

/// The fields of the header of each PDU that are not reported in words.
const NOT_SHOWN: [&[u8]; 8] = [
    b"Direction: ",
    b"CRC flag: ",
    b"Large file flag: ",
    b"Length of entity IDs: ",
    b"Length of transaction sequence number: ",
    b"Source entity ID: ",
    b"Transaction sequence number: ",
    b"Destination entity ID: ",
];

/// What a line writes whose time was too far ahead.
const TOO_FAR_AHEAD: &[u8] = b"time too-far-ahead\n";

/// Whether PDUs are reported in words, and where they are captured.
#[derive(Drop)]
pub struct PduLog<'a, F> {
    tells: bool,
    capture: Option<Capture<'a, F>>,
    /// The latest time so far: the greatest one since the clock was set, without those that were too far ahead.
    latest: u64,
}

/// The octets of a line `send HEX`; `None` of another line.
pub fn sent(alloc: Global, line: &[u8]) -> Result<Option<Vec<u8>>, AllocError> {
    let Some(digits) = line.strip_prefix(b"send ") else {
        return Ok(None);
    };
    let mut octets = Vec::new(alloc);
    match decode_words(digits, &mut octets) {
        Ok(()) => Ok(Some(octets)),
        Err(LineFault::Bad) => Ok(None),
        Err(LineFault::Memory) => Err(AllocError),
    }
}

/// Whether a field of a PDU is reported in words.
fn is_shown_field(field: &[u8]) -> bool {
    !field.is_empty() && !NOT_SHOWN.iter().any(|start| field.starts_with(start))
}

/// Appends what a PDU says, in one line. The call may change the octets, since it takes a CRC off in place.
pub fn push_fields(alloc: Global, octets: &mut [u8], out: &mut Vec<u8>) -> Result<(), AllocError> {
    let said = show(alloc, Style::Text, octets)?;
    for (index, line) in said.as_slice().split(|octet| *octet == NEWLINE).enumerate() {
        let field = line.strip_prefix(b"  ").unwrap_or(line);
        if !is_shown_field(field) {
            continue;
        }
        match index {
            0 => {}
            1 | 2 => out.extend_from_slice(b": ")?,
            _ => out.extend_from_slice(b"; ")?,
        }
        out.extend_from_slice(field)?;
    }
    Ok(())
}

/// Appends a line with what a PDU says.
fn push_words(
    alloc: Global,
    direction: CaptureDirection,
    octets: &mut [u8],
    out: &mut Vec<u8>,
) -> Result<(), AllocError> {
    out.extend_from_slice(match direction {
        CaptureDirection::Came => b"# came: ",
        CaptureDirection::Sent => b"# sent: ",
    })?;
    push_fields(alloc, octets, out)?;
    out.extend_from_slice(b"\n")
}

impl<'a, F: Write + Drop> PduLog<'a, F> {
    /// With a capture, if there is one.
    pub fn new(tells: bool, capture: Option<Capture<'a, F>>) -> PduLog<'a, F> {
        PduLog {
            tells,
            capture,
            latest: 0,
        }
    }

    /// Whether anything is done.
    pub fn is_on(&self) -> bool {
        self.tells || self.capture.is_some()
    }

    /// The capture.
    pub fn capture(&self) -> Option<&Capture<'a, F>> {
        self.capture.as_ref()
    }

    /// A PDU came or was sent.
    fn pdu(
        &mut self,
        alloc: Global,
        direction: CaptureDirection,
        octets: &mut [u8],
        out: &mut Vec<u8>,
    ) -> Result<(), End> {
        if let Some(capture) = &mut self.capture {
            capture.pdu(alloc, direction, self.latest, octets)?;
        }
        if self.tells {
            push_words(alloc, direction, octets, out)?;
        }
        Ok(())
    }

    /// A line is carried out, which may be an input.
    fn input(&mut self, alloc: Global, line: &[u8], out: &mut Vec<u8>) -> Result<(), End> {
        match read_run_command(alloc, line, default_mib(), HeadProgress::Playing) {
            Ok(Some(RunCommand::Receive { now, octets })) => {
                self.latest = self.latest.max(now);
                let mut octets = octets;
                self.pdu(alloc, CaptureDirection::Came, &mut octets, out)
            }
            Ok(Some(RunCommand::Cancel { now, id: _ } | RunCommand::Pass { now })) => {
                self.latest = self.latest.max(now);
                Ok(())
            }
            Ok(Some(RunCommand::SetClock { now })) => {
                self.latest = now;
                Ok(())
            }
            Ok(_) | Err(CommandFault::Wrong(_)) => Ok(()),
            Err(CommandFault::Memory) => Err(End::Memory),
        }
    }

    /// A line that was written is a PDU that was sent, if it is one.
    fn output(&mut self, alloc: Global, line: &[u8], out: &mut Vec<u8>) -> Result<(), End> {
        out.extend_from_slice(line)?;
        out.push(NEWLINE)?;
        match sent(alloc, line)? {
            None => Ok(()),
            Some(octets) => {
                let mut octets = octets;
                self.pdu(alloc, CaptureDirection::Sent, &mut octets, out)
            }
        }
    }

    /// A line was carried out, which wrote this text. Appends the text, with what its PDUs say.
    pub fn line(
        &mut self,
        alloc: Global,
        line: &[u8],
        text: &[u8],
        out: &mut Vec<u8>,
    ) -> Result<(), End> {
        let before = self.latest;
        self.input(alloc, line, out)?;
        if text == TOO_FAR_AHEAD {
            self.latest = before;
        }
        for written in text.split(|octet| *octet == NEWLINE) {
            if !written.is_empty() {
                self.output(alloc, written, out)?;
            }
        }
        Ok(())
    }
}
