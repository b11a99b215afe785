//! A capture in the pcap format.

use crate::end::End;
use crate::found::{FoundPdu, InputPdus, Location};
use std::alloc::Global;

/// How many octets the header of a capture has.
const FILE_HEADER: usize = 24;

/// How many octets the header of a frame has.
const FRAME_HEADER: usize = 16;

/// What is said of a link type that is not read.
const UNREAD_LINK: &str =
    "the capture's link type is not read: expected Ethernet (1), IPv4 (101, 228) or a user's own (147 to 162)";

/// The order of the octets of a number.
#[derive(Clone, Copy)]
enum OctetOrder {
    Big,
    Little,
}

/// The order of the octets of numbers, where octets are a capture.
fn order_of(octets: &[u8]) -> Option<OctetOrder> {
    match octets {
        [0xa1, 0xb2, 0xc3, 0xd4, ..] | [0xa1, 0xb2, 0x3c, 0x4d, ..] => Some(OctetOrder::Big),
        [0xd4, 0xc3, 0xb2, 0xa1, ..] | [0x4d, 0x3c, 0xb2, 0xa1, ..] => Some(OctetOrder::Little),
        _ => None,
    }
}

/// Whether octets are a capture.
pub fn is_capture(octets: &[u8]) -> bool {
    order_of(octets).is_some()
}

/// Whether octets that are no text are a capture in the pcapng format.
pub fn is_pcapng(octets: &[u8]) -> bool {
    octets.starts_with(&[0x0a, 0x0d, 0x0d, 0x0a])
}

/// The number of four octets at an index, if they are there.
fn number_at(order: OctetOrder, octets: &[u8], index: usize) -> Option<usize> {
    let [a, b, c, d] = octets.get(index..index.saturating_add(4))? else {
        return None;
    };
    let number = match order {
        OctetOrder::Big => u32::from_be_bytes([*a, *b, *c, *d]),
        OctetOrder::Little => u32::from_le_bytes([*a, *b, *c, *d]),
    };
    Some(number as usize)
}

/// The link types that are read.
#[derive(Clone, Copy)]
enum LinkType {
    /// Ethernet, with IPv4.
    Ethernet,
    /// IPv4.
    Internet,
    /// PDUs themselves.
    Own,
}

impl LinkType {
    /// The link type with a number: 1 is Ethernet, 101 and 228 are IPv4, 147 to 162 are of a user's own.
    fn of_number(number: usize) -> Option<LinkType> {
        match number {
            1 => Some(LinkType::Ethernet),
            101 | 228 => Some(LinkType::Internet),
            147..=162 => Some(LinkType::Own),
            _ => None,
        }
    }
}

/// What a frame has.
#[derive(Clone, Copy)]
enum Frame<'a> {
    /// A PDU.
    Pdu(&'a [u8]),
    /// A datagram of which a part was not captured.
    Cut,
    /// A fragment of a datagram.
    Fragment,
    /// No UDP datagram over IPv4.
    Other,
}

/// What a UDP datagram carries.
fn carried(udp: &[u8]) -> Frame<'_> {
    let [_, _, _, _, high, low, _, _, ..] = udp else {
        return Frame::Cut;
    };
    let len = 256 * usize::from(*high) + usize::from(*low);
    if len < 8 {
        return Frame::Other;
    }
    match udp.get(8..len) {
        Some(pdu) => Frame::Pdu(pdu),
        None => Frame::Cut,
    }
}

/// What an IP packet has. One of another version than 4, or of another protocol than UDP, is another one.
fn in_packet(packet: &[u8]) -> Frame<'_> {
    let Some(first) = packet.first() else {
        return Frame::Cut;
    };
    if first >> 4 != 4 {
        return Frame::Other;
    }
    let [_, _, _, _, _, _, high, low, _, protocol, ..] = packet else {
        return Frame::Cut;
    };
    if *protocol != 17 {
        return Frame::Other;
    }
    // More fragments follow, or this one is not the first.
    if high % 64 >= 32 || high % 32 != 0 || *low != 0 {
        return Frame::Fragment;
    }
    match packet.get(usize::from(first % 16) * 4..) {
        Some(udp) => carried(udp),
        None => Frame::Cut,
    }
}

/// What a frame has.
fn look_at(link: LinkType, frame: &[u8]) -> Frame<'_> {
    match link {
        LinkType::Own => Frame::Pdu(frame),
        LinkType::Internet => in_packet(frame),
        LinkType::Ethernet => {
            if frame.get(12..14) != Some([0x08, 0x00].as_slice()) {
                return Frame::Other;
            }
            match frame.get(14..) {
                Some(packet) => in_packet(packet),
                None => Frame::Cut,
            }
        }
    }
}

/// Takes the frame with a number.
fn take(alloc: Global, number: u64, frame: Frame<'_>, contents: &mut InputPdus) -> Result<(), End> {
    match frame {
        Frame::Pdu(pdu) => contents.all.push(FoundPdu {
            location: Location::Frame(number),
            octets: Vec::from_slice(alloc, pdu)?,
        })?,
        Frame::Cut => contents.cut = contents.cut.saturating_add(1),
        Frame::Fragment => contents.fragments = contents.fragments.saturating_add(1),
        Frame::Other => {}
    }
    Ok(())
}

/// The frame whose header is at an index; `None` where the octets end within it.
fn frame_at(order: OctetOrder, octets: &[u8], index: usize) -> Option<&[u8]> {
    let len = number_at(order, octets, index.saturating_add(8))?;
    let start = index.saturating_add(FRAME_HEADER);
    octets.get(start..start.saturating_add(len))
}

/// The link type of a capture.
fn link_of(alloc: Global, name: &str, order: OctetOrder, octets: &[u8]) -> Result<LinkType, End> {
    let Some(number) = number_at(order, octets, 20) else {
        return Err(End::stream(alloc, name, "the capture ends within its header"));
    };
    match LinkType::of_number(number) {
        Some(link) => Ok(link),
        None => Err(End::file(alloc, name, UNREAD_LINK)),
    }
}

/// The PDUs of a capture with a name. Frames without a UDP datagram over IPv4 are passed over.
pub fn read(alloc: Global, name: &str, octets: &[u8]) -> Result<InputPdus, End> {
    let mut contents = InputPdus::new(alloc);
    let Some(order) = order_of(octets) else {
        return Ok(contents);
    };
    let link = link_of(alloc, name, order, octets)?;
    let mut index = FILE_HEADER;
    for number in 1..=octets.len() as u64 {
        if index >= octets.len() {
            break;
        }
        let Some(frame) = frame_at(order, octets, index) else {
            contents.ends_within = Some(number);
            break;
        };
        take(alloc, number, look_at(link, frame), &mut contents)?;
        index = index
            .saturating_add(FRAME_HEADER)
            .saturating_add(frame.len());
    }
    Ok(contents)
}
