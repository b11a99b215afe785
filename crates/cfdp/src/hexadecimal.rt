//! PDUs in hexadecimal, one a line.

use crate::end::End;
use crate::found::{FoundPdu, Location};
use std::alloc::Global;

/// Whether octets are a text of hexadecimal lines: all of them are printable or blank.
pub fn is_text(octets: &[u8]) -> bool {
    octets.iter().all(|octet| octet.is_ascii_graphic() || octet.is_ascii_whitespace())
}

/// The value of a hexadecimal digit.
fn digit(octet: u8) -> Option<u8> {
    match octet {
        b'0'..=b'9' => Some(octet - b'0'),
        b'a'..=b'f' => Some(octet - b'a' + 10),
        b'A'..=b'F' => Some(octet - b'A' + 10),
        _ => None,
    }
}

/// The octet of two digits.
pub fn octet_of(digits: &[u8]) -> Option<u8> {
    let [high, low] = digits else {
        return None;
    };
    let low = digit(*low)?;
    Some(digit(*high)?.wrapping_mul(16).wrapping_add(low))
}

/// The octets of a line, whose digits may have spaces between them; `None` where it is not hexadecimal.
fn read_line(alloc: Global, line: &[u8]) -> Result<Option<Vec<u8>>, End> {
    let mut octets = Vec::new(alloc);
    let mut high = None;
    for octet in line {
        if octet.is_ascii_whitespace() {
            continue;
        }
        let Some(low) = digit(*octet) else {
            return Ok(None);
        };
        high = match high {
            None => Some(low),
            Some(high) => {
                octets.push(high.wrapping_mul(16).wrapping_add(low))?;
                None
            }
        };
    }
    Ok(if high.is_none() { Some(octets) } else { None })
}

/// How the program ends where this line of a text with a name, counted from 1, is not hexadecimal.
fn bad_line(alloc: Global, name: &str, number: u64) -> End {
    format!(in alloc;
        "{name}:{number}: expected the octets of a PDU in hexadecimal, two digits an octet"
    ).map_or(End::Memory, End::Stream)
}

/// The PDUs of a text with a name. Blank lines and those that begin with `#` are passed over.
pub fn read(alloc: Global, name: &str, text: &[u8]) -> Result<Vec<FoundPdu>, End> {
    let mut all = Vec::new(alloc);
    let mut number = 0_u64;
    for line in text.split(|octet| *octet == b'\n') {
        number = number.saturating_add(1);
        if line.first() == Some(&b'#') {
            continue;
        }
        let Some(octets) = read_line(alloc, line)? else {
            return Err(bad_line(alloc, name, number));
        };
        if !octets.is_empty() {
            all.push(FoundPdu {
                location: Location::Line(number),
                octets,
            })?;
        }
    }
    Ok(all)
}
