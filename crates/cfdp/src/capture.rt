//! A capture of the PDUs of a script: UDP datagrams of IPv4, in the pcap format.

use crate::end::End;
use std::alloc::{AllocError, Global};
use std::io::Write;

/// The header of a capture: numbers with the least octet first, version 2.4, at most 65,535 octets a frame, and link
/// type 228, which is IPv4.
const HEADER: [u8; 24] = [
    0xd4, 0xc3, 0xb2, 0xa1, 2, 0, 4, 0, 0, 0, 0, 0, 0, 0, 0, 0, 0xff, 0xff, 0, 0, 228, 0, 0, 0,
];

/// How many octets a datagram has before its PDU.
const BEFORE: usize = 28;

/// The port of both ends.
const PORT: u16 = 4_560;

/// Whether a PDU came to the receiving entity, or was sent by it.
#[derive(Clone, Copy, Debug, PartialEq, Eq)]
pub enum CaptureDirection {
    Came,
    Sent,
}

impl CaptureDirection {
    /// The last octet of the address that a PDU comes from, and of the one that it goes to. Both are in 192.0.2.0/24.
    fn ends(self) -> (u8, u8) {
        match self {
            CaptureDirection::Came => (1, 2),
            CaptureDirection::Sent => (2, 1),
        }
    }
}

/// The checksum of the header of a datagram, in which it is 0.
fn checksum(header: &[u8; 20]) -> u16 {
    let mut sum = 0u32;
    for pair in header.chunks_exact(2) {
        if let [high, low] = pair {
            sum = sum.wrapping_add(u32::from(u16::from_be_bytes([*high, *low])));
        }
    }
    let sum = (sum & 0xffff) + (sum >> 16);
    !(((sum & 0xffff) + (sum >> 16)) as u16)
}

/// The header of a datagram of `len` octets.
fn datagram(direction: CaptureDirection, len: u16) -> [u8; 20] {
    let [high, low] = len.to_be_bytes();
    let (source, destination) = direction.ends();
    let mut header = [
        0x45,
        0,
        high,
        low,
        0,
        0,
        0x40,
        0,
        64,
        17,
        0,
        0,
        192,
        0,
        2,
        source,
        192,
        0,
        2,
        destination,
    ];
    let [high, low] = checksum(&header).to_be_bytes();
    header[10] = high;
    header[11] = low;
    header
}

/// How many octets the datagram of a PDU has; `None` where it has more than a datagram may have.
fn datagram_len(pdu: &[u8]) -> Option<u16> {
    u16::try_from(pdu.len().checked_add(BEFORE)?).ok()
}

/// Appends the frame of a PDU at a time, in seconds, whose datagram has `len` octets.
fn push_frame(
    direction: CaptureDirection,
    now: u64,
    pdu: &[u8],
    len: u16,
    out: &mut Vec<u8>,
) -> Result<(), AllocError> {
    let now = u32::try_from(now).unwrap_or(u32::MAX);
    out.extend_from_slice(&now.to_le_bytes())?;
    out.extend_from_slice(&[0; 4])?;
    out.extend_from_slice(&u32::from(len).to_le_bytes())?;
    out.extend_from_slice(&u32::from(len).to_le_bytes())?;
    out.extend_from_slice(&datagram(direction, len))?;
    out.extend_from_slice(&PORT.to_be_bytes())?;
    out.extend_from_slice(&PORT.to_be_bytes())?;
    out.extend_from_slice(&len.saturating_sub(20).to_be_bytes())?;
    out.extend_from_slice(&[0; 2])?;
    out.extend_from_slice(pdu)
}

/// The capture of a script, in a file.
#[derive(Drop)]
pub struct Capture<'a, F> {
    /// The name of the file.
    name: &'a str,
    file: F,
    /// How many PDUs no datagram has room for.
    left_out: u64,
}

impl<'a, F: Write + Drop> Capture<'a, F> {
    /// Begins a capture in a file with a name.
    pub fn new(alloc: Global, name: &'a str, file: F) -> Result<Capture<'a, F>, End> {
        let mut capture = Capture {
            name,
            file,
            left_out: 0,
        };
        capture.write(alloc, &HEADER)?;
        Ok(capture)
    }

    /// Writes octets to the file.
    fn write(&mut self, alloc: Global, octets: &[u8]) -> Result<(), End> {
        match self.file.write_all(octets) {
            Ok(()) => Ok(()),
            Err(_) => Err(End::unwritten(alloc, self.name)),
        }
    }

    /// Writes a PDU that came or was sent at a time. One of more than 65,507 octets is left out.
    pub fn pdu(
        &mut self,
        alloc: Global,
        direction: CaptureDirection,
        now: u64,
        pdu: &[u8],
    ) -> Result<(), End> {
        let Some(len) = datagram_len(pdu) else {
            self.left_out = self.left_out.saturating_add(1);
            return Ok(());
        };
        let mut frame = Vec::new(alloc);
        push_frame(direction, now, pdu, len, &mut frame)?;
        self.write(alloc, &frame)
    }

    /// Prints on standard error how many PDUs were left out, if there are any.
    pub fn tell_left_out<R: Eprint>(&self, rt: &R) {
        if self.left_out > 0 {
            let (name, count) = (self.name, self.left_out);
            // Where standard error cannot be written, nothing is said.
            let _ = eprintln!(rt;
                "cfdp: {name}: PDUs of more than 65507 octets were left out: {count}"
            );
        }
    }
}
