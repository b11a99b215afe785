//! The Metadata PDU, which begins a transaction.

ghost use Rattle.std.specs.Prelude.{◌≡◌, ◌≤◌, ◌<◌, ◌+◌, ◌⊎◌, ◌↔◌, ◌++◌, length, vec_len, min, true, false, IfErr, OnOk, OnErr, IsErrOf, IsOk};
ghost use Rattle.std.specs.List.{flat_map, list_all};
ghost use Rattle.std.specs.Vec.{vec_capacity};
ghost use Rattle.cfdp_pdus.specs.Equality.{same_options, same_file_names};
ghost use Rattle.cfdp_tlv.specs.Reading.{Gives};
ghost use Rattle.cfdp_pdus.specs.First.{metadata_at};
ghost use Rattle.cfdp_pdus.specs.Canonical.{IsHeader, IsSizedMetadata, pdu_octets, metadata_field, metadata_fits, request_field, is_short_request};
ghost use Rattle.cfdp_pdus.specs.declared.fault.PduFault.TheVariants.{Memory as OutOfMemory};
ghost use Rattle.cfdp_pdus.specs.declared.fault.WriteFault.TheVariants.{TooLong, Memory};

use crate::directive::METADATA;
use crate::field::{read_name, read_requests};
use crate::number::{bit, read_number, size_len};
use crate::put::{MAX_FIELD_LEN, header_len, push_header, push_number};
use crate::tlv_values::{are_short, fields_len, push_fields};
use crate::{Header, PduFault, WriteFault};
use cfdp_tlv::{FilestoreRequest, MAX_VALUE_LEN, push_lv};
use std::alloc::Global;
use std::marker::Model;

/// A Metadata PDU's data field (CCSDS 727.0-B-5 §5.2.5). A contract sees its names as octet lists.
#[derive(Debug, Drop)]
pub struct Metadata {
    /// Whether transaction closure is requested.
    pub closure: bool,
    /// The checksum type, 0 to 15: 0 is the modular checksum, 15 is none.
    pub checksum_type: u8,
    /// The file's size in octets, 0 where it is unbounded.
    pub size: u64,
    /// The source file name, at most 255 octets.
    pub source_name: Vec<u8>,
    /// The destination file name, at most 255 octets. Empty where there is no file.
    pub destination_name: Vec<u8>,
    /// The filestore requests, in order.
    pub requests: Vec<FilestoreRequest>,
}

impl Model for Metadata {
    ghost use Rattle.cfdp_pdus.specs.Values.{MetadataFields};

    ghost Value = { MetadataFields };

    ghost view = { λ m. record {
      closure = m.closure;
      checksum_type = m.checksum_type;
      size = m.size;
      source_name = m.source_name.items;
      destination_name = m.destination_name.items;
      requests = m.requests.items;
    } };
}

impl PartialEq for Metadata {
    ghost use Rattle.cfdp_pdus.specs.Equality.{same_metadata};
    ghost use Rattle.cfdp_pdus.specs.code.Equality.{metadata_per};

    ghost eq = { same_metadata };

    ghost laws = { metadata_per };

    fn eq(&self, other: &Metadata) -> bool {
        have_same_options(self, other)
            && have_same_names(self, other)
            && self.requests == other.requests
    }
}

impl Eq for Metadata {
    ghost use Rattle.cfdp_pdus.specs.code.Equality.{metadata_equiv};

    ghost laws = { metadata_equiv };
}

/// Whether both have the same closure flag, checksum type and size.
#[tactic(auto, unfolding(crate::specs::Equality::same_options))]
fn have_same_options(a: &Metadata, b: &Metadata) -> bool
    ensures { result ≡ same_options a.now b.now }
{
    a.closure == b.closure && a.checksum_type == b.checksum_type && a.size == b.size
}

/// Whether both have the same names.
#[tactic(auto, unfolding(crate::specs::Equality::same_file_names))]
fn have_same_names(a: &Metadata, b: &Metadata) -> bool
    ensures { result ≡ same_file_names a.now b.now }
{
    a.source_name == b.source_name && a.destination_name == b.destination_name
}

/// A Metadata PDU's data field after its directive code.
#[tactic(auto, unfolding(crate::specs::First::metadata_at))]
pub fn read_metadata(alloc: Global, large: bool, octets: &[u8]) -> Result<Metadata, PduFault>
    ensures { Gives OutOfMemory (λ metadata. metadata) result (metadata_at large octets.now) }
{
    let [flags, rest @ ..] = octets else {
        return Err(PduFault::LengthMismatch);
    };
    let (size, rest) = read_number(rest, size_len(large), PduFault::LengthMismatch)?;
    let (source, rest) = read_name(rest)?;
    let (destination, rest) = read_name(rest)?;
    let requests = read_requests(alloc, rest)?;
    Ok(Metadata {
        closure: bit(*flags, 6),
        checksum_type: *flags % 16,
        size,
        source_name: Vec::from_slice(alloc, source)?,
        destination_name: Vec::from_slice(alloc, destination)?,
        requests,
    })
}

/// How many octets the data field has, or `usize::MAX` where that is too little.
#[tactic(auto, unfolding(crate::specs::Canonical::metadata_field))]
fn field_len(large: bool, metadata: &Metadata) -> usize
    ensures { result ≡ min (length (metadata_field large metadata.now)) usize.MAX }
{
    let names = metadata
        .source_name
        .len()
        .saturating_add(metadata.destination_name.len());
    let fixed = names.saturating_add(4 + size_len(large));
    fixed.saturating_add(fields_len(&metadata.requests))
}

/// Whether each length fits its field.
#[tactic(auto, unfolding(crate::specs::Canonical::metadata_fits))]
fn fits(large: bool, metadata: &Metadata) -> bool
    ensures { result ≡ metadata_fits large metadata.now }
{
    metadata.source_name.len() <= MAX_VALUE_LEN
        && metadata.destination_name.len() <= MAX_VALUE_LEN
        && are_short(&metadata.requests)
        && field_len(large, metadata) <= MAX_FIELD_LEN
}

/// Appends the data field. It cannot fail, since there is room for it.
#[tactic(auto, unfolding(crate::specs::Canonical::metadata_field))]
fn push_field(out: &mut Vec<u8>, large: bool, metadata: &Metadata)
    requires sized { IsSizedMetadata large metadata.now }
    requires source { length metadata.now.source_name ≤ 255 }
    requires destination { length metadata.now.destination_name ≤ 255 }
    requires short { list_all is_short_request metadata.now.requests ≡ true }
    requires room { vec_len out.old + length (metadata_field large metadata.now) ≤ vec_capacity out.old }
    ensures items { out.new.items ≡ out.old.items ++ metadata_field large metadata.now }
    ensures capacity { vec_capacity out.old ≤ vec_capacity out.new }
{
    out.push_reserved(METADATA);
    out.push_reserved(64 * u8::from(metadata.closure) + metadata.checksum_type);
    push_number(out, metadata.size, size_len(large));
    push_lv(out, &metadata.source_name);
    push_lv(out, &metadata.destination_name);
    push_fields(out, &metadata.requests);
}

/// Appends a Metadata PDU whose only options are its filestore requests (CCSDS 727.0-B-5 §5.2.5).
///
/// The faults are `TooLong`, where a name or a request's value has more than 255 octets or the data
/// field more than 65,535, and `Memory`.
/// Cost: the octets that it appends, and one growth of the vector at most.
#[tactic(auto, unfolding(crate::specs::Canonical::metadata_fits))]
pub fn write_metadata(
    header: &Header,
    metadata: &Metadata,
    out: &mut Vec<u8>,
) -> Result<(), WriteFault>
    requires header { IsHeader header.now }
    requires sized { IsSizedMetadata header.now.large metadata.now }
    ensures ok { OnOk result (out.new.items ≡ out.old.items
        ++ pdu_octets false header.now (metadata_field header.now.large metadata.now)) }
    ensures too_long { IsErrOf result TooLong ↔ (metadata_fits header.now.large metadata.now ≡ false) }
    ensures faults { IfErr result (λ fault. (fault ≡ TooLong) ⊎ (fault ≡ Memory)) }
    ensures err { OnErr result (out.new.items ≡ out.old.items) }
    // Where there is room for it, memory isn't asked for.
    ensures room { metadata_fits header.now.large metadata.now ≡ true → vec_len out.old
        + length (pdu_octets false header.now (metadata_field header.now.large metadata.now)) ≤ vec_capacity out.old →
        IsOk result }
    ensures capacity { vec_capacity out.old ≤ vec_capacity out.new }
{
    if !fits(header.large, metadata) {
        return Err(WriteFault::TooLong);
    }
    let len = field_len(header.large, metadata);
    out.reserve(header_len(header) + len)?;
    push_header(out, false, header, len as u16);
    push_field(out, header.large, metadata);
    Ok(())
}
