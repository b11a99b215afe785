//! PDUs of each kind, in words, also when out of memory (`.ci/refused`). What is shown is in `.ci/cases/show.txt`.

use cfdp_words::{Style, show};
use std::alloc::{AllocError, Global};

/// How the text of a PDU begins, and its octets.
static ROWS: [(&str, &[u8]); 9] = [
    (
        "Metadata PDU",
        b"\x20\x00\x18\x00\x01\x07\x02\x07\x00\x00\x00\x00\x05\x01\x61\x01\x62\x00\x05\x20\x01\x61\
          \x01\x62\x02\x02\x01\x02\x02\x01\xff",
    ),
    (
        "File Data PDU",
        b"\x32\x00\x08\x00\x01\x01\x02\x00\x00\x00\x00\x61\x62\x83\x74",
    ),
    (
        "EOF PDU",
        b"\x20\x00\x0a\x00\x01\x07\x02\x04\x00\x00\x00\x00\x01\x00\x00\x00\x05",
    ),
    (
        "Finished PDU",
        b"\x28\x00\x0b\x00\x01\x07\x02\x05\x45\x01\x04\x11\x01\x78\x00\x06\x01\x02",
    ),
    ("ACK PDU", b"\x28\x00\x03\x00\x01\x07\x02\x06\x40\x01"),
    (
        "NAK PDU",
        b"\x28\x00\x19\x00\x01\x07\x02\x08\x00\x00\x00\x00\x00\x00\x00\x05\x00\x00\x00\x00\x00\x00\
          \x00\x05\x00\x00\x00\x06\x00\x00\x00\x07",
    ),
    ("Prompt PDU", b"\x20\x00\x02\x00\x01\x07\x02\x09\x80"),
    (
        "Keep Alive PDU",
        b"\x28\x00\x05\x00\x01\x07\x02\x0c\x00\x00\x00\x05",
    ),
    ("Damaged PDU", b"\x24\x00\x02"),
];

/// What is shown of octets.
fn shown(alloc: Global, octets: &[u8], style: Style) -> Result<Vec<u8>, AllocError> {
    let mut octets = Vec::from_slice(alloc, octets)?;
    show(alloc, style, &mut octets)
}

#[test]
fn each_kind_is_shown(rt: HostRuntime) -> Result<(), AllocError> {
    for (kind, octets) in &ROWS {
        let text = shown(rt.alloc(), octets, Style::Text)?;
        assert!(rt; text.starts_with(kind.as_bytes()), "{}", *kind);
        let json = shown(rt.alloc(), octets, Style::Json)?;
        assert!(rt; json.starts_with(b"{\"kind\":"), "{}: JSON", *kind);
    }
    Ok(())
}
