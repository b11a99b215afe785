//! A slow reader of ACK, NAK, Prompt and Keep Alive PDUs, by the offsets at which the format puts things.

ghost use Rattle.std.specs.Prelude.{◌≡◌};
ghost use Rattle.cfdp_pdus.specs.Bits.{fss};

use cfdp_directives::*;
use cfdp_pdus::{Header, PduFault};

// The octet at an offset; 0 past the end.
fn octet(octets: &[u8], at: usize) -> u8 {
    match octets.get(at) {
        Some(octet) => *octet,
        None => 0,
    }
}

// The number in `len` octets from an offset on.
fn number(octets: &[u8], at: usize, len: usize) -> u64 {
    let mut number = 0u64;
    for at in at..at.wrapping_add(len) {
        number = number
            .wrapping_mul(256)
            .wrapping_add(u64::from(octet(octets, at)));
    }
    number
}

// The header, and the data field.
#[derive(Drop)]
struct Parts<'a> {
    header: Header,
    field: &'a [u8],
}

fn split(octets: &[u8]) -> Option<Parts<'_>> {
    let first = octet(octets, 0);
    let id_len = octet(octets, 3) / 16 % 8 + 1;
    let number_len = octet(octets, 3) % 8 + 1;
    let number_at = 4 + usize::from(id_len);
    let destination_at = number_at + usize::from(number_len);
    let field = octets.get(destination_at + usize::from(id_len)..)?;
    let header = Header {
        toward_sender: first & 0x08 != 0,
        acknowledged: first & 0x04 == 0,
        large: first & 0x01 != 0,
        id_len,
        number_len,
        source: number(octets, 4, usize::from(id_len)),
        number: number(octets, number_at, usize::from(number_len)),
        destination: number(octets, destination_at, usize::from(id_len)),
    };
    Some(Parts { header, field })
}

// The fault of the first octet, if it has one.
fn first_fault(octets: &[u8]) -> Option<PduFault> {
    let first = octet(octets, 0);
    if octets.is_empty() {
        Some(PduFault::Truncated)
    } else if first & 0xe0 != 0x20 {
        Some(PduFault::BadVersion)
    } else if first & 0x02 != 0 {
        Some(PduFault::CrcNotSupported)
    } else {
        None
    }
}

// The header, and the data field of a directive, which has its code.
fn take_apart(octets: &[u8]) -> Result<Parts<'_>, PduFault> {
    if let Some(fault) = first_fault(octets) {
        return Err(fault);
    }
    let Some(parts) = split(octets) else {
        return Err(PduFault::Truncated);
    };
    let len = parts.field.len() as u64;
    let said = number(octets, 1, 2);
    if len < said {
        Err(PduFault::Truncated)
    } else if len > said {
        Err(PduFault::LengthMismatch)
    } else if octet(octets, 0) & 0x10 != 0 {
        Err(PduFault::BadDirective)
    } else if len == 0 {
        Err(PduFault::LengthMismatch)
    } else {
        Ok(parts)
    }
}

// How many octets an offset in the file has.
fn offset_len(large: bool) -> usize
    ensures { result ≡ fss large }
{
    if large { 8 } else { 4 }
}

// The data field's length, if its code is that of an ACK, Prompt or Keep Alive PDU.
fn len_of(code: u8, large: bool) -> Option<usize> {
    match code {
        6 => Some(3),
        9 => Some(2),
        12 => Some(1 + offset_len(large)),
        _ => None,
    }
}

fn status(code: u8) -> TransactionStatus {
    match code & 3 {
        0 => TransactionStatus::Undefined,
        1 => TransactionStatus::Active,
        2 => TransactionStatus::Terminated,
        _ => TransactionStatus::Unrecognized,
    }
}

fn value(header: Header, field: &[u8]) -> Directive {
    match octet(field, 0) {
        6 => Directive::Ack(
            header,
            Ack {
                directive: octet(field, 1) / 16,
                condition: octet(field, 2) / 16,
                status: status(octet(field, 2)),
            },
        ),
        9 if octet(field, 1) < 128 => Directive::Prompt(header, Prompt::Nak),
        9 => Directive::Prompt(header, Prompt::KeepAlive),
        _ => {
            let progress = number(field, 1, offset_len(header.large));
            Directive::KeepAlive(header, KeepAlive { progress })
        }
    }
}

/// The ACK, Prompt or Keep Alive PDU that the octets spell, read offset by offset.
pub fn directive(octets: &[u8]) -> Result<Directive, PduFault> {
    let Parts { header, field } = take_apart(octets)?;
    match len_of(octet(field, 0), header.large) {
        None => Err(PduFault::BadDirective),
        Some(len) if len == field.len() => Ok(value(header, field)),
        Some(_) => Err(PduFault::LengthMismatch),
    }
}

// The start and the end at an index of a NAK PDU's data field, of which the scope is the first.
fn range(header: &Header, field: &[u8], index: usize) -> NakRange {
    let len = offset_len(header.large);
    let at = index.wrapping_mul(2 * len).wrapping_add(1);
    (
        number(field, at, len),
        number(field, at.wrapping_add(len), len),
    )
}

/// The NAK PDU that the octets spell, read offset by offset.
pub fn nak(octets: &[u8], requests: &mut [NakRange]) -> Result<Nak, NakFault> {
    let Parts { header, field } = take_apart(octets)?;
    if octet(field, 0) != 8 {
        return Err(NakFault::Pdu(PduFault::BadDirective));
    }
    let len = field.len().wrapping_sub(1);
    let pair_len = 2 * offset_len(header.large);
    if len == 0 || len % pair_len != 0 {
        return Err(NakFault::Pdu(PduFault::LengthMismatch));
    }
    let count = (len / pair_len).wrapping_sub(1);
    if count > requests.len() {
        return Err(NakFault::TooMany(count));
    }
    for (index, request) in requests.iter_mut().enumerate() {
        if index < count {
            *request = range(&header, field, index.wrapping_add(1));
        }
    }
    Ok(Nak {
        header,
        scope: range(&header, field, 0),
        count,
    })
}
