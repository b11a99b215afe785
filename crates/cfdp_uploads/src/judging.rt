//! Whether the parts of an upload fit.

ghost use Rattle.std.specs.Prelude.{◌≡◌, ◌⊎◌, ◌<◌, ◌≤◌, ◌+◌, ◌^◌, ℕ, Ok, Err, IfOk, IfErr, IsOk, position, find, not, nat_le, true, All};
ghost use Rattle.std.specs.List.{AllByRecursion, range_with_len};
ghost use Rattle.cfdp_tlv.specs.Reading.{Gives};
ghost use Rattle.cfdp_pdus.specs.Bits.{fss};
ghost use Rattle.cfdp_pdus.specs.Canonical.{IsHeader, IsAnswerable, IsSizedMetadata, metadata_fits};
ghost use Rattle.cfdp_uploads.specs.Uploads.{is_sent};
ghost use Rattle.cfdp_uploads.specs.Judging.{is_sized, header_judged, names_judged, requests_judged, file_judged, field_judged, segment_judged, order_judged};
ghost use Rattle.cfdp_uploads.specs.declared.fault.UploadFault.TheVariants.{Memory};

use crate::UploadFault;
use cfdp_pdus::{Header, MAX_FIELD_LEN, Metadata, WriteFault, size_len, write_metadata};
use cfdp_tlv::{FilestoreRequest, MAX_ANSWERABLE_LEN, MAX_VALUE_LEN};
use std::alloc::{AllocError, Global};

/// Whether a number fits its length in octets, which is 1 to 8.
fn is_sized(len: u8, number: u64) -> bool
    ensures { result ≡ is_sized len number }
{
    if len == 8 {
        return true;
    }
    if len == 0 || len > 8 {
        return false;
    }
    number >> (8 * len) == 0
}

/// The least length, in octets, that a number fits: 1 to 8.
pub fn shortest_len(number: u64) -> u8
    ensures low { 1 ≤ result }
    ensures high { result ≤ 8 }
    ensures fits { number < 256 ^ result }
    ensures least { (len : ℕ) → 1 ≤ len → number < 256 ^ len → result ≤ len }
{
    for len in 1..8 {
        if number >> (8 * len) == 0 {
            return len;
        }
    }
    8
}

/// Judges the numbers of a header.
#[tactic(auto, unfolding(crate::specs::Judging::header_judged))]
pub(crate) fn judge_header(header: &Header) -> Result<(), UploadFault>
    ensures value { result ≡ header_judged header.now }
    ensures sized { IsOk result → IsHeader header.now }
{
    if is_sized(header.id_len, header.source)
        && is_sized(header.number_len, header.number)
        && is_sized(header.id_len, header.destination)
    {
        Ok(())
    } else {
        Err(UploadFault::Header)
    }
}

/// Judges the file names.
#[tactic(auto, unfolding(crate::specs::Judging::names_judged))]
pub(crate) fn judge_names(metadata: &Metadata) -> Result<(), UploadFault>
    ensures { result ≡ names_judged metadata.now }
{
    if metadata.source_name.len() > MAX_VALUE_LEN {
        return Err(UploadFault::SourceName);
    }
    if metadata.destination_name.len() > MAX_VALUE_LEN {
        return Err(UploadFault::DestinationName);
    }
    Ok(())
}

/// Judges the requests.
#[tactic(auto, unfolding(crate::specs::Judging::requests_judged))]
pub(crate) fn judge_requests(requests: &[FilestoreRequest]) -> Result<(), UploadFault>
    ensures value { result ≡ requests_judged requests.now }
    ensures answerable { IsOk result → AllByRecursion IsAnswerable requests.now }
{
    for (number, request) in requests.iter().enumerate() {
        // It has a second name exactly if its action has one.
        let _ = request.action();
        if request.value_len() > MAX_ANSWERABLE_LEN {
            return Err(UploadFault::Request(number));
        }
    }
    Ok(())
}

/// Judges the length of the Metadata PDU's data field, by writing that PDU. Cost: its octets, in memory that is given
/// back.
#[tactic(auto, unfolding(crate::specs::Judging::field_judged))]
pub(crate) fn judge_field(
    alloc: Global,
    header: &Header,
    metadata: &Metadata,
) -> Result<(), UploadFault>
    requires header { IsHeader header.now }
    requires sized { IsSizedMetadata header.now.large metadata.now }
    ensures exact { Gives Memory (λ judged. judged) result (field_judged header.now.large metadata.now) }
    ensures fits { IsOk result → metadata_fits header.now.large metadata.now ≡ true }
{
    match write_metadata(header, metadata, &mut Vec::new(alloc)) {
        Ok(()) => Ok(()),
        Err(WriteFault::TooLong) => Err(UploadFault::Metadata),
        Err(WriteFault::Memory) => Err(UploadFault::Memory),
    }
}

/// Judges the size of the file, in octets.
#[tactic(auto, unfolding(crate::specs::Judging::file_judged))]
pub(crate) fn judge_file(large: bool, size: usize) -> Result<(), UploadFault>
    ensures value { result ≡ file_judged large size }
    ensures sized { IsOk result → size < 256 ^ fss large }
{
    if large || size >> 32 == 0 {
        Ok(())
    } else {
        Err(UploadFault::FileSize)
    }
}

/// Judges how many octets a piece has.
#[tactic(auto, unfolding(crate::specs::Judging::segment_judged))]
pub(crate) fn judge_segment(large: bool, segment: usize) -> Result<(), UploadFault>
    ensures value { result ≡ segment_judged large segment }
    ensures some { IsOk result → 1 ≤ segment }
    ensures short { IsOk result → segment + fss large ≤ 65535 }
{
    if segment == 0 || segment > MAX_FIELD_LEN - size_len(large) {
        return Err(UploadFault::Segment);
    }
    Ok(())
}

/// The first index that no piece has, of this number of pieces.
fn first_stray(order: &[usize], count: usize) -> Option<usize>
    ensures { result ≡ find (λ index. nat_le count index) order.now }
{
    order.iter().copied().find(|index| *index >= count)
}

/// The index of the first `false`.
fn first_false(tests: &[bool]) -> Option<usize>
    ensures { result ≡ position not tests.now }
{
    tests.iter().position(|test| !*test)
}

/// The first piece that an order does not name, of this number of pieces.
fn first_not_sent(alloc: Global, order: &[usize], count: usize) -> Result<Option<usize>, AllocError>
    requires { All (λ index. index < count) order.now }
    ensures { IfOk result (λ missing.
        missing ≡ position (λ index. not (is_sent order.now index)) (range_with_len 0 count)) }
{
    let mut sent = Vec::new(alloc);
    sent.resize(count, false)?;
    for index in order {
        sent[*index] = true;
    }
    Ok(first_false(&sent))
}

/// Judges the order of this number of pieces. Cost: the order and the pieces; an octet of memory for each piece.
#[tactic(auto, unfolding(crate::specs::Judging::order_judged))]
pub(crate) fn judge_order(alloc: Global, count: usize, order: &[usize]) -> Result<(), UploadFault>
    ensures ok { IsOk result → order_judged count order.now ≡ Ok tt }
    ensures err { IfErr result (λ fault. (fault ≡ Memory) ⊎ (order_judged count order.now ≡ Err fault)) }
    ensures within { IsOk result → AllByRecursion (λ index. index < count) order.now }
    ensures each { IsOk result → (index : ℕ) → index < count → is_sent order.now index ≡ true }
{
    if let Some(index) = first_stray(order, count) {
        return Err(UploadFault::NoPiece(index));
    }
    match first_not_sent(alloc, order, count)? {
        None => Ok(()),
        Some(index) => Err(UploadFault::NotSent(index)),
    }
}
