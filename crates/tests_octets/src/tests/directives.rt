//! The PDUs of worked transactions as values, both ways, and a slow reader beside the real one.

mod shown;
mod slow;

ghost use Rattle.std.specs.Prelude.{◌<◌, ◌^◌};
ghost use Rattle.cfdp_pdus.specs.Bits.{fss};
ghost use Rattle.cfdp_pdus.specs.Canonical.{IsHeader};
ghost use Rattle.cfdp_directives.specs.Spelling.{IsSizedRange};

use cfdp_directives::*;
use cfdp_pdus::{Header, PduFault, WriteFault, condition, directive};
use std::alloc::{AllocError, Global};
use std::process::Abort;

/// What a PDU says.
#[derive(Clone, Copy)]
enum Said {
    Ack(Ack),
    Nak(NakRange, &'static [NakRange]),
    Prompt(Prompt),
    KeepAlive(u64),
}

/// Which way a PDU goes.
#[derive(Clone, Copy)]
enum Toward {
    Sender,
    Receiver,
}

/// A PDU of a transaction from entity 1 to entity 2.
struct Row {
    name: &'static str,
    octets: &'static [u8],
    toward: Toward,
    large: bool,
    /// The transaction sequence number.
    number: u8,
    said: Said,
}

static ROWS: [Row; 19] = [
    Row {
        name: "ACK of Finished: terminated",
        octets: b"\x20\x00\x03\x00\x01\x05\x02\x06\x51\x02",
        toward: Toward::Receiver,
        large: false,
        number: 5,
        said: Said::Ack(Ack {
            directive: directive::FINISHED,
            condition: condition::NO_ERROR,
            status: TransactionStatus::Terminated,
        }),
    },
    Row {
        name: "ACK of Finished: cancelled, active",
        octets: b"\x20\x00\x03\x00\x01\x05\x02\x06\x51\xf1",
        toward: Toward::Receiver,
        large: false,
        number: 5,
        said: Said::Ack(Ack {
            directive: directive::FINISHED,
            condition: condition::CANCEL_REQUEST_RECEIVED,
            status: TransactionStatus::Active,
        }),
    },
    Row {
        name: "ACK of EOF: active",
        octets: b"\x28\x00\x03\x00\x01\x05\x02\x06\x40\x01",
        toward: Toward::Sender,
        large: false,
        number: 5,
        said: Said::Ack(Ack {
            directive: directive::EOF,
            condition: condition::NO_ERROR,
            status: TransactionStatus::Active,
        }),
    },
    Row {
        name: "ACK of EOF: terminated",
        octets: b"\x28\x00\x03\x00\x01\x05\x02\x06\x40\x02",
        toward: Toward::Sender,
        large: false,
        number: 5,
        said: Said::Ack(Ack {
            directive: directive::EOF,
            condition: condition::NO_ERROR,
            status: TransactionStatus::Terminated,
        }),
    },
    Row {
        name: "ACK of EOF: cancelled, active",
        octets: b"\x28\x00\x03\x00\x01\x05\x02\x06\x40\xf1",
        toward: Toward::Sender,
        large: false,
        number: 5,
        said: Said::Ack(Ack {
            directive: directive::EOF,
            condition: condition::CANCEL_REQUEST_RECEIVED,
            status: TransactionStatus::Active,
        }),
    },
    Row {
        name: "ACK of EOF: cancelled, unrecognized",
        octets: b"\x28\x00\x03\x00\x01\x06\x02\x06\x40\xf3",
        toward: Toward::Sender,
        large: false,
        number: 6,
        said: Said::Ack(Ack {
            directive: directive::EOF,
            condition: condition::CANCEL_REQUEST_RECEIVED,
            status: TransactionStatus::Unrecognized,
        }),
    },
    Row {
        name: "NAK of 0 to 15: 0 to 4, 8 to 15",
        octets: b"\x28\x00\x19\x00\x01\x05\x02\x08\x00\x00\x00\x00\x00\x00\x00\x0f\
                  \x00\x00\x00\x00\x00\x00\x00\x04\x00\x00\x00\x08\x00\x00\x00\x0f",
        toward: Toward::Sender,
        large: false,
        number: 5,
        said: Said::Nak((0, 15), &[(0, 4), (8, 15)]),
    },
    Row {
        name: "NAK of 0 to 15: Metadata, 0 to 15",
        octets: b"\x28\x00\x19\x00\x01\x05\x02\x08\x00\x00\x00\x00\x00\x00\x00\x0f\
                  \x00\x00\x00\x00\x00\x00\x00\x00\x00\x00\x00\x00\x00\x00\x00\x0f",
        toward: Toward::Sender,
        large: false,
        number: 5,
        said: Said::Nak((0, 15), &[(0, 0), (0, 15)]),
    },
    Row {
        name: "NAK of 0 to 15: 0 to 15",
        octets: b"\x28\x00\x11\x00\x01\x05\x02\x08\x00\x00\x00\x00\x00\x00\x00\x0f\
                  \x00\x00\x00\x00\x00\x00\x00\x0f",
        toward: Toward::Sender,
        large: false,
        number: 5,
        said: Said::Nak((0, 15), &[(0, 15)]),
    },
    Row {
        name: "NAK of 4 to 12: 4 to 8",
        octets: b"\x28\x00\x11\x00\x01\x05\x02\x08\x00\x00\x00\x04\x00\x00\x00\x0c\
                  \x00\x00\x00\x04\x00\x00\x00\x08",
        toward: Toward::Sender,
        large: false,
        number: 5,
        said: Said::Nak((4, 12), &[(4, 8)]),
    },
    Row {
        name: "NAK of 0 to 8: 0 to 4",
        octets: b"\x28\x00\x11\x00\x01\x05\x02\x08\x00\x00\x00\x00\x00\x00\x00\x08\
                  \x00\x00\x00\x00\x00\x00\x00\x04",
        toward: Toward::Sender,
        large: false,
        number: 5,
        said: Said::Nak((0, 8), &[(0, 4)]),
    },
    Row {
        name: "NAK of an empty file: Metadata",
        octets: b"\x28\x00\x11\x00\x01\x05\x02\x08\x00\x00\x00\x00\x00\x00\x00\x00\
                  \x00\x00\x00\x00\x00\x00\x00\x00",
        toward: Toward::Sender,
        large: false,
        number: 5,
        said: Said::Nak((0, 0), &[(0, 0)]),
    },
    Row {
        name: "NAK of 0 to 4: 0 to 4",
        octets: b"\x28\x00\x11\x00\x01\x05\x02\x08\x00\x00\x00\x00\x00\x00\x00\x04\
                  \x00\x00\x00\x00\x00\x00\x00\x04",
        toward: Toward::Sender,
        large: false,
        number: 5,
        said: Said::Nak((0, 4), &[(0, 4)]),
    },
    Row {
        name: "NAK of 4 to 15: 8 to 15",
        octets: b"\x28\x00\x11\x00\x01\x05\x02\x08\x00\x00\x00\x04\x00\x00\x00\x0f\
                  \x00\x00\x00\x08\x00\x00\x00\x0f",
        toward: Toward::Sender,
        large: false,
        number: 5,
        said: Said::Nak((4, 15), &[(8, 15)]),
    },
    Row {
        name: "NAK of a large file: no request",
        octets: b"\x29\x00\x11\x00\x01\x08\x02\x08\x00\x00\x00\x00\x00\x00\x00\x01\
                  \x00\x00\x00\x01\x00\x00\x00\x02",
        toward: Toward::Sender,
        large: true,
        number: 8,
        said: Said::Nak((1, 0x1_0000_0002), &[]),
    },
    Row {
        name: "Prompt: NAK",
        octets: b"\x20\x00\x02\x00\x01\x05\x02\x09\x00",
        toward: Toward::Receiver,
        large: false,
        number: 5,
        said: Said::Prompt(Prompt::Nak),
    },
    Row {
        name: "Prompt: Keep Alive",
        octets: b"\x20\x00\x02\x00\x01\x05\x02\x09\x80",
        toward: Toward::Receiver,
        large: false,
        number: 5,
        said: Said::Prompt(Prompt::KeepAlive),
    },
    Row {
        name: "Keep Alive: 8 octets",
        octets: b"\x28\x00\x05\x00\x01\x05\x02\x0c\x00\x00\x00\x08",
        toward: Toward::Sender,
        large: false,
        number: 5,
        said: Said::KeepAlive(8),
    },
    Row {
        name: "Keep Alive of a large file",
        octets: b"\x29\x00\x09\x00\x01\x08\x02\x0c\x00\x00\x00\x01\x00\x00\x00\x02",
        toward: Toward::Sender,
        large: true,
        number: 8,
        said: Said::KeepAlive(0x1_0000_0002),
    },
];

/// The header of a row.
fn header_of(row: &Row) -> Header
    ensures { IsHeader result }
{
    Header {
        toward_sender: matches!(row.toward, Toward::Sender),
        acknowledged: true,
        large: row.large,
        id_len: 1,
        number_len: 1,
        source: 1,
        number: u64::from(row.number),
        destination: 2,
    }
}

/// A number in as many octets as the file size has.
fn sized(large: bool, number: u64) -> u64
    ensures { result < 256 ^ fss large }
{
    if large {
        number
    } else {
        number % 0x1_0000_0000
    }
}

/// A start and an end in as many octets.
fn sized_range(large: bool, range: NakRange) -> NakRange
    ensures { IsSizedRange large result }
{
    (sized(large, range.0), sized(large, range.1))
}

/// The range in a list past what is read into it.
const UNTOUCHED: NakRange = (7, 7);

/// Whether the PDU is read as the row says.
fn is_read(row: &Row) -> bool {
    let header = header_of(row);
    let directive = read_directive(row.octets);
    match row.said {
        Said::Ack(ack) => directive == Ok(Directive::Ack(header, ack)),
        Said::Prompt(prompt) => directive == Ok(Directive::Prompt(header, prompt)),
        Said::KeepAlive(progress) => {
            directive == Ok(Directive::KeepAlive(header, KeepAlive { progress }))
        }
        Said::Nak(scope, requests) => {
            let count = requests.len();
            let mut list = [UNTOUCHED; 3];
            read_nak(row.octets, &mut list)
                == Ok(Nak {
                    header,
                    scope,
                    count,
                })
                && list.get(..count) == Some(requests)
                && list[2] == UNTOUCHED
        }
    }
}

/// Puts what the row says into a buffer.
fn put(row: &Row, out: &mut [u8]) -> Option<usize> {
    let header = header_of(row);
    let large = header.large;
    match row.said {
        Said::Ack(ack) if ack.directive < 16 && ack.condition < 16 => put_ack(&header, ack, out),
        Said::Ack(_) => None,
        Said::Prompt(prompt) => put_prompt(&header, prompt, out),
        Said::KeepAlive(progress) => {
            let progress = sized(large, progress);
            put_keep_alive(&header, KeepAlive { progress }, out)
        }
        Said::Nak(scope, requests) => {
            let scope = sized_range(large, scope);
            match requests {
                [] => put_nak(&header, scope, &[], out),
                [one] => put_nak(&header, scope, &[sized_range(large, *one)], out),
                [one, other, ..] => {
                    let both = [sized_range(large, *one), sized_range(large, *other)];
                    put_nak(&header, scope, &both, out)
                }
            }
        }
    }
}

/// Appends what the row says.
fn write(row: &Row, out: &mut Vec<u8>) -> Result<(), WriteFault> {
    let header = header_of(row);
    let large = header.large;
    match row.said {
        Said::Ack(ack) if ack.directive < 16 && ack.condition < 16 => write_ack(&header, ack, out),
        Said::Ack(_) => Err(WriteFault::TooLong),
        Said::Prompt(prompt) => write_prompt(&header, prompt, out),
        Said::KeepAlive(progress) => {
            let progress = sized(large, progress);
            write_keep_alive(&header, KeepAlive { progress }, out)
        }
        Said::Nak(scope, requests) => {
            let scope = sized_range(large, scope);
            match requests {
                [] => write_nak(&header, scope, &[], out),
                [one] => write_nak(&header, scope, &[sized_range(large, *one)], out),
                [one, other, ..] => {
                    let both = [sized_range(large, *one), sized_range(large, *other)];
                    write_nak(&header, scope, &both, out)
                }
            }
        }
    }
}

/// Whether a buffer has the PDU at its front afterwards, and the octet after it as before.
fn is_put(row: &Row) -> bool {
    let mut buffer = [0xee_u8; 64];
    let len = row.octets.len();
    put(row, &mut buffer) == Some(len)
        && buffer.get(..len) == Some(row.octets)
        && buffer.get(len) == Some(&0xee)
}

#[test]
fn rows_are_read_and_written(rt: HostRuntime) -> Result<(), WriteFault> {
    for row in &ROWS {
        let name = row.name;
        assert!(rt; is_read(row), "read: {name}");
        assert!(rt; is_put(row), "put: {name}");
        let mut out = Vec::new(rt.alloc());
        write(row, &mut out)?;
        assert!(rt; out.as_slice() == row.octets, "written: {name}");
    }
    Ok(())
}

/// A NAK PDU is read by `read_nak` alone. Octets that spell no PDU at all are in `.ci/cases/show.txt`.
#[test]
fn a_nak_is_none_of_the_others(rt: HostRuntime) {
    let octets = b"\x28\x00\x09\x00\x01\x05\x02\x08\x00\x00\x00\x00\x00\x00\x00\x0f";
    assert!(rt;
        read_directive(octets) == Err(PduFault::BadDirective),
        "a NAK PDU"
    );
}

/// Octets that spell no NAK PDU of one request, and the first fault.
struct FaultyNak {
    name: &'static str,
    octets: &'static [u8],
    fault: NakFault,
    text: &'static str,
}

static FAULTY_NAKS: [FaultyNak; 4] = [
    FaultyNak {
        name: "a Prompt PDU",
        octets: b"\x20\x00\x02\x00\x01\x05\x02\x09\x00",
        fault: NakFault::Pdu(PduFault::BadDirective),
        text: "no directive has this code",
    },
    FaultyNak {
        name: "no end of the scope",
        octets: b"\x28\x00\x05\x00\x01\x05\x02\x08\x00\x00\x00\x00",
        fault: NakFault::Pdu(PduFault::LengthMismatch),
        text: "the data field has another length",
    },
    FaultyNak {
        name: "a start without an end",
        octets: b"\x28\x00\x0d\x00\x01\x05\x02\x08\x00\x00\x00\x00\x00\x00\x00\x0f\
                  \x00\x00\x00\x04",
        fault: NakFault::Pdu(PduFault::LengthMismatch),
        text: "the data field has another length",
    },
    FaultyNak {
        name: "two requests",
        octets: b"\x28\x00\x19\x00\x01\x05\x02\x08\x00\x00\x00\x00\x00\x00\x00\x0f\
                  \x00\x00\x00\x00\x00\x00\x00\x04\x00\x00\x00\x08\x00\x00\x00\x0f",
        fault: NakFault::TooMany(2),
        text: "the list is too short for 2 requests",
    },
];

#[test]
fn faults_of_a_nak_are_named(rt: HostRuntime) -> Result<(), AllocError> {
    for row in &FAULTY_NAKS {
        let name = row.name;
        let mut list = [UNTOUCHED];
        let read = read_nak(row.octets, &mut list);
        assert!(rt; read == Err(row.fault), "{name}");
        assert!(rt; list == [UNTOUCHED], "list: {name}");
        let fault = row.fault;
        let text = format!(in rt.alloc(); "{fault}")?;
        assert!(rt; text.as_str() == row.text, "text: {name}");
    }
    Ok(())
}

/// Whether octets are read as the slow reader reads them.
fn is_read_alike(octets: &[u8]) -> bool {
    let mut list = [UNTOUCHED; 4];
    let mut slow_list = [UNTOUCHED; 4];
    read_directive(octets) == slow::directive(octets)
        && read_nak(octets, &mut list) == slow::nak(octets, &mut slow_list)
        && list == slow_list
}

/// Compares the two readers at a PDU cut after each octet, and with each bit changed.
fn compare(rt: &impl Abort, alloc: Global, row: &Row) -> Result<(), AllocError> {
    let name = row.name;
    for at in 0..row.octets.len() {
        assert!(rt;
            is_read_alike(&row.octets[..at]),
            "{name}: cut after {at} octets"
        );
        for bit in 0..8_u32 {
            let mut changed = Vec::from_slice(alloc, row.octets)?;
            changed[at] ^= 1 << bit;
            assert!(rt; is_read_alike(&changed), "{name}: bit {bit} of octet {at}");
        }
    }
    Ok(())
}

#[test]
fn a_slow_reader_reads_the_same(rt: HostRuntime) -> Result<(), AllocError> {
    for row in &ROWS {
        compare(&rt, rt.alloc(), row)?;
    }
    Ok(())
}

/// A NAK PDU with as many requests as fit: how it begins, its length, and how many they are.
struct Longest {
    name: &'static str,
    begin: &'static [u8],
    len: usize,
    large: bool,
    requests: usize,
}

static LONGEST: [Longest; 2] = [
    Longest {
        name: "a small file",
        begin: b"\x28\xff\xf9\x00\x01\x05\x02\x08",
        len: 7 + 1 + 8 * 8_191,
        large: false,
        requests: 8_190,
    },
    Longest {
        name: "a large file",
        begin: b"\x29\xff\xf1\x00\x01\x05\x02\x08",
        len: 7 + 1 + 16 * 4_095,
        large: true,
        requests: 4_094,
    },
];

#[test]
fn the_most_requests_are_read(rt: HostRuntime) -> Result<(), AllocError> {
    for row in &LONGEST {
        let name = row.name;
        let mut octets = Vec::from_slice(rt.alloc(), row.begin)?;
        octets.resize(row.len, 0)?;
        let mut list = Vec::new(rt.alloc());
        list.resize(row.requests, UNTOUCHED)?;
        let count = read_nak(&octets, &mut list).map(|nak| nak.count);
        assert!(rt; count == Ok(row.requests), "{name}");
        assert!(rt; most_requests(row.large) == row.requests, "most: {name}");
        assert!(rt; list.last() == Some(&(0, 0)), "last: {name}");
    }
    Ok(())
}
