//! The NAK PDU, by which a file's receiver asks for what is missing.

ghost use Rattle.std.specs.Prelude.{◌≡◌, ◌≤◌, ◌<◌, ◌+◌, ◌*◌, ◌++◌, ◌↔◌, ℕ, All, length, drop, vec_len, true, IfErr, IfOk, IfSome, IfNone, OnOk, OnErr, OnSome, IsOk, IsSome};
ghost use Rattle.std.specs.Vec.{vec_capacity};
ghost use Rattle.std.specs.List.{flat_map};
ghost use Rattle.cfdp_tlv.specs.Reading.{Answers};
ghost use Rattle.cfdp_pdus.specs.Canonical.{IsHeader};
ghost use Rattle.cfdp_pdus.specs.declared.fault.WriteFault.TheVariants.{Memory};
ghost use Rattle.cfdp_pdus.specs.BufferParts.{filled, with_octets_at};
ghost use Rattle.cfdp_directives.specs.Reading.{are_pairs, nak_in, nak_within, pair_len, pairs_at, pairs_in, range_at, ranges_at};
ghost use Rattle.cfdp_directives.specs.Spelling.{IsSizedRange, most_requests, nak_field, nak_pdu, range_octets};

use crate::put::add_room;
use byteorder::{BigEndian, ByteOrder};
use cfdp_pdus::{
    Header, PduFault, WriteFault, directive, header_len, put_header, put_number, put_octets,
    read_start, size_len,
};
use std::error::Error;
use std::fmt;

/// A start and an end: the offset in the file, in octets, of the first octet, and the offset after the last one.
pub type NakRange = (u64, u64);

/// What a NAK PDU says (CCSDS 727.0-B-5 §5.2.6), but for its requests.
#[derive(Clone, Copy, Debug, PartialEq, Eq)]
pub struct Nak {
    /// The header.
    pub header: Header,
    /// The part of the file that the requests are about.
    pub scope: NakRange,
    /// How many requests it has.
    pub count: usize,
}

/// Why a NAK PDU was not read.
#[derive(Clone, Copy, Debug, PartialEq, Eq)]
pub enum NakFault {
    /// The octets spell no NAK PDU, for this reason.
    Pdu(PduFault),
    /// The list is too short for the requests of the PDU, which are that many.
    TooMany(usize),
}

impl fmt::Display for NakFault {
    ghost use Rattle.std.specs.Prelude.{Some};
    ghost use Rattle.cfdp_directives.specs.Texts.{nak_text_of};

    ghost output = { λ fault. Some (nak_text_of fault) };

    fn fmt<W: fmt::Write>(&self, f: &mut fmt::Formatter<W>) -> fmt::Result {
        match self {
            NakFault::Pdu(fault) => fault.fmt(f),
            NakFault::TooMany(count) => write!(f, "the list is too short for {count} requests"),
        }
    }
}

impl Error for NakFault {}

impl From<PduFault> for NakFault {
    ghost use Rattle.cfdp_directives.specs.declared.nak.NakFault.TheVariants.{Pdu};

    ghost from_gives = { λ fault e. e ≡ Pdu fault };

    fn from(fault: PduFault) -> NakFault {
        NakFault::Pdu(fault)
    }
}

/// How many requests a NAK PDU has at most: as many as fit into its data field of 65,535 octets after the directive
/// code and the scope. They are 8,190, and 4,094 with the large file flag.
pub fn most_requests(large: bool) -> usize
    ensures { result ≡ most_requests large }
{
    if large { 4_094 } else { 8_190 }
}

/// How many octets a start and an end have.
fn range_len(large: bool) -> usize
    ensures { result ≡ pair_len large }
{
    2 * size_len(large)
}

/// The data field of a NAK PDU: the header, and the octets of its starts and ends.
#[tactic(auto, unfolding(crate::specs::Reading::pairs_in))]
fn ranges_in(header: Header, field: &[u8]) -> Result<(Header, &[u8]), PduFault>
    requires { length field.now ≤ 65535 }
    ensures exact { Answers (λ x. (x.0, x.1.now)) result (pairs_in header field.now) }
    ensures short { IfOk result (λ x. length x.1.now < 65535) }
    ensures whole { IfOk result (λ x. are_pairs x.0.large (length x.1.now) ≡ true) }
{
    let [code, rest @ ..] = field else {
        return Err(PduFault::LengthMismatch);
    };
    if *code != directive::NAK {
        return Err(PduFault::BadDirective);
    }
    let range_len = range_len(header.large);
    if rest.len() < range_len || rest.len() % range_len != 0 {
        return Err(PduFault::LengthMismatch);
    }
    Ok((header, rest))
}

/// The header of the NAK PDU that the octets spell, and the octets of its starts and ends.
#[tactic(auto, unfolding(crate::specs::Reading::pairs_at))]
fn find_ranges(octets: &[u8]) -> Result<(Header, &[u8]), PduFault>
    ensures exact { Answers (λ x. (x.0, x.1.now)) result (pairs_at octets.now) }
    ensures short { IfOk result (λ x. length x.1.now < 65535) }
    ensures whole { IfOk result (λ x. are_pairs x.0.large (length x.1.now) ≡ true) }
{
    let start = read_start(octets)?;
    if start.file_data {
        return Err(PduFault::BadDirective);
    }
    ranges_in(start.header, start.field)
}

/// The start and the end at the front of octets.
#[tactic(auto, unfolding(crate::specs::Reading::range_at))]
fn read_range(large: bool, octets: &[u8]) -> NakRange
    requires { pair_len large ≤ length octets.now }
    ensures { result ≡ range_at large octets.now }
{
    let len = size_len(large);
    let start = BigEndian::read_uint(octets, len);
    let end = BigEndian::read_uint(&octets[len..], len);
    (start, end)
}

/// Fills a list with starts and ends.
fn read_ranges(large: bool, octets: &[u8], ranges: &mut [NakRange])
    requires { pair_len large * length ranges.old ≤ length octets.now }
    ensures { ranges.new ≡ ranges_at large (length ranges.old) octets.now }
{
    let range_len = range_len(large);
    for (n, range) in ranges.iter_mut().enumerate() {
        *range = read_range(large, &octets[range_len * n..]);
    }
}

/// Reads the NAK PDU that the octets spell (CCSDS 727.0-B-5 §5.2.6). Its requests are then the first ranges of
/// `requests`, as many as [`Nak::count`] says; the others stay. Takes no memory.
///
/// It has [`most_requests`] at most. Cost: one pass over the octets.
///
/// # Errors
///
/// The faults of a header come first, as `cfdp_pdus::read_start` gives them. Then, in the data field: `BadDirective`
/// for file data, `LengthMismatch` for no directive code, `BadDirective` for another code, and `LengthMismatch` where
/// there is no scope, or a start without an end. [`NakFault::TooMany`] comes last, where `requests` is too short.
/// After an error `requests` is as before.
pub fn read_nak(octets: &[u8], requests: &mut [NakRange]) -> Result<Nak, NakFault>
    ensures exact { Answers (nak_in requests.new) result (nak_within (length requests.old) octets.now) }
    ensures count { IfOk result (λ nak. nak.count ≤ length requests.old) }
    // As many as a writer takes.
    ensures most { IfOk result (λ nak. nak.count ≤ most_requests nak.header.large) }
    ensures kept { IfOk result (λ nak. drop nak.count requests.new ≡ drop nak.count requests.old) }
    ensures unchanged { OnErr result (requests.new ≡ requests.old) }
{
    let (header, ranges) = find_ranges(octets)?;
    let range_len = range_len(header.large);
    let count = ranges.len() / range_len - 1;
    if requests.len() < count {
        return Err(NakFault::TooMany(count));
    }
    read_ranges(header.large, &ranges[range_len..], &mut requests[..count]);
    let scope = read_range(header.large, ranges);
    Ok(Nak {
        header,
        scope,
        count,
    })
}

/// Writes a start and an end at an offset.
fn put_range(out: &mut [u8], at: usize, large: bool, range: NakRange)
    requires sized { IsSizedRange large range }
    requires room { at + pair_len large ≤ length out.old }
    ensures { out.new ≡ with_octets_at out.old at (range_octets large range) }
{
    let len = size_len(large);
    put_number(out, at, range.0, len);
    put_number(out, at + len, range.1, len);
}

/// Writes starts and ends at an offset.
fn put_ranges(out: &mut [u8], at: usize, large: bool, ranges: &[NakRange])
    requires sized { All (IsSizedRange large) ranges.now }
    requires room { at + length (flat_map (range_octets large) ranges.now) ≤ length out.old }
    ensures { out.new ≡ with_octets_at out.old at (flat_map (range_octets large) ranges.now) }
{
    let mut next = at;
    for range in ranges {
        put_range(out, next, large, *range);
        next += range_len(large);
    }
}

/// How many octets the data field has.
#[tactic(auto, using(crate::proofs::Lengths::nak_short), unfolding(crate::specs::Spelling::nak_field))]
fn field_len(large: bool, requests: &[NakRange]) -> u16
    requires { length requests.now ≤ most_requests large }
    ensures { (scope : ℕ × ℕ) → result ≡ length (nak_field large scope requests.now) }
{
    (1 + range_len(large) * (1 + requests.len())) as u16
}

/// How many octets the PDU has.
fn nak_len(header: &Header, requests: &[NakRange]) -> usize
    requires header { IsHeader header.now }
    requires count { length requests.now ≤ most_requests header.now.large }
    ensures { (scope : ℕ × ℕ) → result ≡ length (nak_pdu header.now scope requests.now) }
{
    header_len(header) + usize::from(field_len(header.large, requests))
}

/// Writes a NAK PDU to the front of a buffer that has room for it.
#[tactic(auto, unfolding(crate::specs::Spelling::nak_field))]
fn fill_nak(header: &Header, scope: NakRange, requests: &[NakRange], out: &mut [u8])
    requires header { IsHeader header.now }
    requires count { length requests.now ≤ most_requests header.now.large }
    requires scope { IsSizedRange header.now.large scope }
    requires sized { All (IsSizedRange header.now.large) requests.now }
    requires room { length (nak_pdu header.now scope requests.now) ≤ length out.old }
    ensures { out.new ≡ filled (nak_pdu header.now scope requests.now) out.old }
{
    let large = header.large;
    let at = header_len(header);
    put_header(out, false, header, field_len(large, requests));
    put_octets(out, at, &[directive::NAK]);
    put_range(out, at + 1, large, scope);
    put_ranges(out, at + 1 + range_len(large), large, requests);
}

/// Writes a NAK PDU (CCSDS 727.0-B-5 §5.2.6), its scope and its requests, to the front of a buffer, and returns its
/// length in octets; the rest of the buffer stays. Returns `None`, and writes nothing, exactly where the buffer is
/// too short. Takes no memory.
///
/// There are [`most_requests`] at most, so that the data field has no more than 65,535 octets. The request 0 to 0 asks
/// for the Metadata PDU. Cost: the octets that it writes.
pub fn put_nak(
    header: &Header,
    scope: NakRange,
    requests: &[NakRange],
    out: &mut [u8],
) -> Option<usize>
    requires header { IsHeader header.now }
    requires count { length requests.now ≤ most_requests header.now.large }
    requires scope { IsSizedRange header.now.large scope }
    requires sized { All (IsSizedRange header.now.large) requests.now }
    ensures fits { IsSome result ↔ (length (nak_pdu header.now scope requests.now) ≤ length out.old) }
    ensures len { IfSome result (λ len. len ≡ length (nak_pdu header.now scope requests.now)) }
    ensures written { OnSome result (out.new ≡ filled (nak_pdu header.now scope requests.now) out.old) }
    ensures unchanged { IfNone result (out.new ≡ out.old) }
{
    let len = nak_len(header, requests);
    if out.len() < len {
        return None;
    }
    fill_nak(header, scope, requests, out);
    Some(len)
}

/// Appends a NAK PDU (CCSDS 727.0-B-5 §5.2.6): its scope and its requests.
///
/// There are [`most_requests`] at most, so that the data field has no more than 65,535 octets. The request 0 to 0 asks
/// for the Metadata PDU. The only fault is `Memory`. Cost: the octets that it appends, and one growth of the vector
/// at most.
pub fn write_nak(
    header: &Header,
    scope: NakRange,
    requests: &[NakRange],
    out: &mut Vec<u8>,
) -> Result<(), WriteFault>
    requires header { IsHeader header.now }
    requires count { length requests.now ≤ most_requests header.now.large }
    requires scope { IsSizedRange header.now.large scope }
    requires sized { All (IsSizedRange header.now.large) requests.now }
    ensures ok { OnOk result (out.new.items ≡ out.old.items ++ nak_pdu header.now scope requests.now) }
    ensures faults { IfErr result (λ fault. fault ≡ Memory) }
    ensures err { OnErr result (out.new.items ≡ out.old.items) }
    // Where there is room for it, no memory is asked for.
    ensures room { vec_len out.old + length (nak_pdu header.now scope requests.now) ≤ vec_capacity out.old
        → IsOk result }
    ensures capacity { vec_capacity out.old ≤ vec_capacity out.new }
{
    let start = out.len();
    add_room(out, nak_len(header, requests))?;
    fill_nak(header, scope, requests, &mut out.as_mut_slice()[start..]);
    Ok(())
}
