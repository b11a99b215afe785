//! The check value, and worked PDUs without and with their CRC.

ghost use Rattle.std.specs.Prelude.{◌<◌};

use cfdp_crc::{CrcFault, SealFault, crc16, seal, unseal};
use std::process::Abort;

/// A PDU without a CRC, and the same PDU with its CRC.
struct Row {
    name: &'static str,
    plain: &'static [u8],
    sealed: &'static [u8],
}

static ROWS: [Row; 4] = [
    Row {
        name: "Metadata",
        plain: b"\x20\x00\x0a\x00\x01\x05\x02\x07\x40\x00\x00\x00\x0f\x01\x73\x01\x66",
        sealed: b"\x22\x00\x0c\x00\x01\x05\x02\x07\x40\x00\x00\x00\x0f\x01\x73\x01\x66\x63\xcb",
    },
    Row {
        name: "EOF",
        plain: b"\x20\x00\x0a\x00\x01\x05\x02\x04\x00\x18\x1c\x20\x15\x00\x00\x00\x0f",
        sealed: b"\x22\x00\x0c\x00\x01\x05\x02\x04\x00\x18\x1c\x20\x15\x00\x00\x00\x0f\x85\x0d",
    },
    Row {
        name: "ACK of an EOF PDU",
        plain: b"\x28\x00\x03\x00\x01\x05\x02\x06\x40\x01",
        sealed: b"\x2a\x00\x05\x00\x01\x05\x02\x06\x40\x01\x20\x99",
    },
    Row {
        name: "NAK",
        plain: b"\x28\x00\x11\x00\x01\x05\x02\x08\x00\x00\x00\x00\x00\x00\x00\x0f\x00\x00\x00\x00\x00\x00\x00\x0f",
        sealed: b"\x2a\x00\x13\x00\x01\x05\x02\x08\x00\x00\x00\x00\x00\x00\x00\x0f\x00\x00\x00\x00\x00\x00\x00\x0f\x1f\
            \x66",
    },
];

/// The octets at the beginning of a buffer.
fn buffer_with(octets: &[u8]) -> [u8; 32] {
    let mut buffer = [0xee; 32];
    for (target, octet) in buffer.iter_mut().zip(octets) {
        *target = *octet;
    }
    buffer
}

/// Whether a buffer begins with the octets.
fn begins_with(buffer: &[u8], octets: &[u8]) -> bool {
    buffer.starts_with(octets)
}

/// What `unseal` returns of octets at the beginning of a buffer.
fn unsealed(buffer: &mut [u8; 32], len: usize) -> Result<usize, CrcFault> {
    match buffer.get_mut(..len) {
        Some(octets) => unseal(octets),
        None => Err(CrcFault::Truncated),
    }
}

/// What `seal` returns for the first `len` octets of a buffer.
fn sealed(buffer: &mut [u8; 32], len: usize) -> Result<usize, SealFault> {
    if len > 32 {
        return Err(SealFault::NoRoom);
    }
    seal(buffer, len)
}

impl Row {
    /// Whether the PDU with its CRC is unsealed to the plain one.
    fn is_unsealed(&self) -> bool {
        let mut buffer = buffer_with(self.sealed);
        unsealed(&mut buffer, self.sealed.len()) == Ok(self.plain.len())
            && begins_with(&buffer, self.plain)
    }

    /// Whether the plain PDU is sealed to the one with its CRC, and the octets after it stay.
    fn is_sealed(&self) -> bool {
        let mut buffer = buffer_with(self.plain);
        sealed(&mut buffer, self.plain.len()) == Ok(self.sealed.len())
            && begins_with(&buffer, self.sealed)
            && buffer.get(self.sealed.len()) == Some(&0xee)
    }

    /// Whether the PDU with one bit changed is refused. Without its CRC flag it is a PDU without a CRC.
    fn is_noticed(&self, at: usize, bit: u32) -> bool
        requires { bit < 8 }
    {
        let mut buffer = buffer_with(self.sealed);
        if let Some(octet) = buffer.get_mut(at) {
            *octet ^= 1 << bit;
        }
        let is_flag = at == 0 && bit == 1;
        unsealed(&mut buffer, self.sealed.len()).is_err() || is_flag
    }
}

#[test]
fn the_check_value(rt: HostRuntime) {
    assert!(rt; crc16(b"123456789") == 0x29b1, "nine digits");
    assert!(rt; crc16(b"") == 0xffff, "no octets");
}

#[test]
fn worked_pdus(rt: HostRuntime) {
    for row in &ROWS {
        assert!(rt; row.is_unsealed(), "{}: unsealed", row.name);
        assert!(rt; row.is_sealed(), "{}: sealed", row.name);
    }
}

/// Each bit of a row is changed in turn.
fn each_bit(rt: &impl Abort, row: &Row) {
    for at in 0..row.sealed.len() {
        for bit in 0..8u32 {
            assert!(rt;
                row.is_noticed(at, bit),
                "{}: bit {bit} of octet {at}",
                row.name
            );
        }
    }
}

#[test]
fn damage(rt: HostRuntime) {
    for row in &ROWS {
        each_bit(&rt, row);
    }
}

/// Octets, and why no CRC is added to them.
struct Refused {
    name: &'static str,
    octets: &'static [u8],
    fault: SealFault,
}

static REFUSED: [Refused; 5] = [
    Refused {
        name: "no octets",
        octets: b"",
        fault: SealFault::NotAPdu,
    },
    Refused {
        name: "an octet is missing",
        octets: b"\x28\x00\x03\x00\x01\x05\x02\x06\x40",
        fault: SealFault::NotAPdu,
    },
    Refused {
        name: "it has a CRC",
        octets: b"\x2a\x00\x05\x00\x01\x05\x02\x06\x40\x01\x20\x99",
        fault: SealFault::HasCrc,
    },
    Refused {
        name: "it has a CRC, and there is no room for another",
        octets: b"\x2a\x00\x18\x00\x01\x05\x02\x08\0\0\0\0\0\0\0\x0f\0\0\0\0\0\0\0\x0f\0\0\0\0\0\0\0",
        fault: SealFault::HasCrc,
    },
    Refused {
        name: "no room for a CRC",
        octets: b"\x28\x00\x18\x00\x01\x05\x02\x08\0\0\0\0\0\0\0\x0f\0\0\0\0\0\0\0\x0f\0\0\0\0\0\0\0",
        fault: SealFault::NoRoom,
    },
];

impl Refused {
    /// Whether the fault is reported, and the buffer is as before.
    fn is_refused_so(&self) -> bool {
        let mut buffer = buffer_with(self.octets);
        sealed(&mut buffer, self.octets.len()) == Err(self.fault)
            && buffer == buffer_with(self.octets)
    }
}

#[test]
fn refusals(rt: HostRuntime) {
    for refused in &REFUSED {
        assert!(rt; refused.is_refused_so(), "{}", refused.name);
    }
}
