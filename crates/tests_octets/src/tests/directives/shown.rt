//! PDUs of each kind, printed with what they say, a line each: for `.ci/tshark`, which has tshark read them.

ghost use Rattle.std.specs.Prelude.{◌<◌};
ghost use Rattle.cfdp_pdus.specs.Canonical.{IsHeader};

use super::{sized, sized_range};
use cfdp_directives::*;
use cfdp_pdus::{Header, WriteFault, condition, directive};
use std::alloc::{AllocError, Global};

/// Whose lengths and flags the header has.
#[derive(Clone, Copy)]
enum HeaderSize {
    /// Each name has one octet.
    Short,
    /// Entity IDs of two octets, and a sequence number of four.
    Middle,
    /// Each name has eight octets.
    Long,
    /// Unacknowledged mode, and toward the file's receiver.
    Other,
    /// The large file flag.
    Large,
}

static KINDS: [HeaderSize; 5] = [
    HeaderSize::Short,
    HeaderSize::Middle,
    HeaderSize::Long,
    HeaderSize::Other,
    HeaderSize::Large,
];

/// A header of that kind.
fn header_of(kind: HeaderSize) -> Header
    ensures { IsHeader result }
{
    let short = Header {
        toward_sender: true,
        acknowledged: true,
        large: false,
        id_len: 1,
        number_len: 1,
        source: 1,
        number: 5,
        destination: 2,
    };
    match kind {
        HeaderSize::Short => short,
        HeaderSize::Middle => Header {
            id_len: 2,
            number_len: 4,
            source: 0x0102,
            number: 0xfffe_fdfc,
            destination: 0xff03,
            ..short
        },
        HeaderSize::Long => Header {
            id_len: 8,
            number_len: 8,
            source: 0x0102_0304_0506_0708,
            number: 0x7fff_ffff_ffff_ffff,
            destination: 9,
            ..short
        },
        HeaderSize::Other => Header {
            toward_sender: false,
            acknowledged: false,
            ..short
        },
        HeaderSize::Large => Header {
            large: true,
            ..short
        },
    }
}

/// What a header says.
fn header_text(alloc: Global, header: &Header) -> Result<String, AllocError> {
    let Header {
        toward_sender,
        acknowledged,
        large,
        id_len,
        number_len,
        source,
        number,
        destination,
    } = *header;
    format!(in alloc;
        "{toward_sender} {acknowledged} {large} {id_len} {number_len} {source} {number} {destination}"
    )
}

/// The octets in hexadecimal.
fn hex_of(alloc: Global, octets: &[u8]) -> Result<String, AllocError> {
    let mut text = String::new(alloc);
    for octet in octets {
        text.push_str(&format!(in alloc; "{octet:02x}")?)?;
    }
    Ok(text)
}

/// Prints the name of a PDU, its header, what else it says, and its octets.
fn show(
    rt: &HostRuntime,
    name: &str,
    header: &Header,
    said: &str,
    pdu: &[u8],
) -> Result<(), AllocError> {
    let header = header_text(rt.alloc(), header)?;
    let octets = hex_of(rt.alloc(), pdu)?;
    let _ = println!(rt; "{name} {header} {said} {octets}");
    Ok(())
}

/// An ACK PDU for each status.
fn show_statuses(
    rt: &HostRuntime,
    header: &Header,
    directive: u8,
    condition: u8,
) -> Result<(), WriteFault>
    requires header { IsHeader header.now }
    requires directive { directive < 16 }
    requires condition { condition < 16 }
{
    for code in 0..4u8 {
        let status = TransactionStatus::of_code(code);
        let ack = Ack {
            directive,
            condition,
            status,
        };
        let mut pdu = Vec::new(rt.alloc());
        write_ack(header, ack, &mut pdu)?;
        let said = format!(in rt.alloc(); "{directive} {condition} {code}")?;
        show(rt, "ack", header, &said, &pdu)?;
    }
    Ok(())
}

/// An ACK PDU for each directive code, condition and status.
fn show_acks(rt: &HostRuntime, header: &Header) -> Result<(), WriteFault>
    requires { IsHeader header.now }
{
    for directive in 0..16u8 {
        for condition in 0..16u8 {
            show_statuses(rt, header, directive, condition)?;
        }
    }
    Ok(())
}

/// NAK PDUs without a request, with a request for the Metadata PDU, and with two requests.
fn show_naks(rt: &HostRuntime, header: &Header) -> Result<(), WriteFault>
    requires { IsHeader header.now }
{
    let large = header.large;
    for n in 0..5u64 {
        let (low, high) = (n * 0x1234_5678, n * 0x3333_3333);
        let scope = sized_range(large, (low, high));
        let first = sized_range(large, (0, n * 4));
        let second = sized_range(large, (n * 5, high));
        let said = format!(in rt.alloc(); "{} {}", scope.0, scope.1)?;
        let mut pdu = Vec::new(rt.alloc());
        write_nak(header, scope, &[], &mut pdu)?;
        show(rt, "nak", header, &said, &pdu)?;
        let said = format!(in rt.alloc();
            "{said} {} {} {} {}",
            first.0, first.1, second.0, second.1
        )?;
        let mut pdu = Vec::new(rt.alloc());
        write_nak(header, scope, &[first, second], &mut pdu)?;
        show(rt, "nak", header, &said, &pdu)?;
    }
    Ok(())
}

/// Both Prompt PDUs.
fn show_prompts(rt: &HostRuntime, header: &Header) -> Result<(), WriteFault>
    requires { IsHeader header.now }
{
    for (prompt, said) in [(Prompt::Nak, "0"), (Prompt::KeepAlive, "1")] {
        let mut pdu = Vec::new(rt.alloc());
        write_prompt(header, prompt, &mut pdu)?;
        show(rt, "prompt", header, said, &pdu)?;
    }
    Ok(())
}

/// Keep Alive PDUs.
fn show_keep_alives(rt: &HostRuntime, header: &Header) -> Result<(), WriteFault>
    requires { IsHeader header.now }
{
    for n in 0..16u64 {
        let progress = sized(header.large, n * 0x1111_1111);
        let mut pdu = Vec::new(rt.alloc());
        write_keep_alive(header, KeepAlive { progress }, &mut pdu)?;
        let said = format!(in rt.alloc(); "{progress}")?;
        show(rt, "keep_alive", header, &said, &pdu)?;
    }
    Ok(())
}

#[test]
fn pdus_for_tshark(rt: HostRuntime) -> Result<(), WriteFault> {
    show_acks(&rt, &header_of(HeaderSize::Short))?;
    for kind in KINDS {
        let header = header_of(kind);
        show_statuses(&rt, &header, directive::EOF, condition::NO_ERROR)?;
        show_statuses(
            &rt,
            &header,
            directive::FINISHED,
            condition::CANCEL_REQUEST_RECEIVED,
        )?;
        show_naks(&rt, &header)?;
        show_prompts(&rt, &header)?;
        show_keep_alives(&rt, &header)?;
    }
    Ok(())
}
