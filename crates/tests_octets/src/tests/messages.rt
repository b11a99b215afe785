//! The messages to user of worked PDUs, as `cfdp_pdus` lends them.

use cfdp_pdus::*;

/// A PDU, and its messages to user.
struct Row {
    name: &'static str,
    octets: &'static [u8],
    messages: &'static [&'static [u8]],
}

static ROWS: [Row; 10] = [
    Row {
        name: "no options",
        octets: b"\x20\x00\x0a\x00\x01\x05\x02\x07\x40\x00\x00\x00\x0f\x01s\x01f",
        messages: &[],
    },
    Row {
        name: "messages, one of them empty, around a flow label and a request",
        octets: b"\x20\x00\x1b\x00\x01\x05\x02\x07\x40\x00\x00\x00\x0f\x01s\x01f\
                  \x02\x02hi\x05\x01\x09\x02\x00\x00\x03\x00\x01a\x02\x01\xff",
        messages: &[b"hi", b"", b"\xff"],
    },
    Row {
        name: "equal messages, in a large file",
        octets: b"\x21\x00\x14\x00\x01\x08\x02\x07\x40\x00\x00\x00\x01\x00\x00\x00\x00\
                  \x01s\x01f\x02\x01a\x02\x01a",
        messages: &[b"a", b"a"],
    },
    Row {
        name: "options of other types alone",
        octets: b"\x20\x00\x13\x00\x01\x05\x02\x07\x40\x00\x00\x00\x0f\x01s\x01f\
                  \x04\x01\x02\x06\x01\x02\x03\x01\x02",
        messages: &[],
    },
    Row {
        name: "the last option is cut",
        octets: b"\x20\x00\x11\x00\x01\x05\x02\x07\x40\x00\x00\x00\x0f\x01s\x01f\
                  \x02\x02hi\x02\x05a",
        messages: &[],
    },
    Row {
        name: "a request for action 9",
        octets: b"\x20\x00\x11\x00\x01\x05\x02\x07\x40\x00\x00\x00\x0f\x01s\x01f\
                  \x02\x02hi\x00\x01\x90",
        messages: &[],
    },
    Row {
        name: "an octet more than the header says",
        octets: b"\x20\x00\x0e\x00\x01\x05\x02\x07\x40\x00\x00\x00\x0f\x01s\x01f\
                  \x02\x02hi\x00",
        messages: &[],
    },
    Row {
        name: "a CRC",
        octets: b"\x22\x00\x10\x00\x01\x05\x02\x07\x40\x00\x00\x00\x0f\x01s\x01f\
                  \x02\x02hi\x00\x00",
        messages: &[],
    },
    Row {
        name: "an EOF PDU",
        octets: b"\x20\x00\x0e\x00\x01\x05\x02\x04\x00\x18\x1c\x20\x15\x00\x00\x00\x0f\
                  \x02\x02hi",
        messages: &[],
    },
    Row {
        name: "file data",
        octets: b"\x30\x00\x08\x00\x01\x05\x02\x07\x40\x00\x00\x02\x02hi",
        messages: &[],
    },
];

/// Whether the PDU has these messages, counted, by number, and one after the other.
fn has_messages(row: &Row) -> bool {
    let messages = read_messages(row.octets);
    let count = row.messages.len();
    if messages.len() != count || messages.get(count).is_some() {
        return false;
    }
    for (n, message) in row.messages.iter().enumerate() {
        if messages.get(n) != Some(*message) {
            return false;
        }
    }
    for (n, message) in messages.enumerate() {
        if row.messages.get(n) != Some(&message) {
            return false;
        }
    }
    true
}

#[test]
fn each_row(rt: HostRuntime) {
    for row in &ROWS {
        assert!(rt; has_messages(row), "{}", row.name);
    }
}

/// A PDU that is cut anywhere has no messages.
#[test]
fn cut_anywhere(rt: HostRuntime) {
    let octets = ROWS[1].octets;
    for at in 0..octets.len() {
        let count = read_messages(&octets[..at]).len();
        assert!(rt; count == 0, "cut after {at} octets");
    }
}
