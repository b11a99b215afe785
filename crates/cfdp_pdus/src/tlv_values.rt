//! Values that are written as TLV fields, one after the other.

ghost use Rattle.std.specs.Prelude.{◌≡◌, ◌≤◌, ◌+◌, ◌++◌, ℕ, List, length, nat_le, vec_len, min, true};
ghost use Rattle.std.specs.List.{flat_map, list_all};
ghost use Rattle.std.specs.Vec.{vec_capacity};
ghost use Rattle.cfdp_tlv.specs.Field.{tlv};
ghost use Rattle.cfdp_tlv.specs.Types.{filestore_request_type, filestore_response_type};
ghost use Rattle.cfdp_tlv.specs.Grammar.{request_octets, response_octets};

use cfdp_tlv::{FilestoreRequest, FilestoreResponse, MAX_VALUE_LEN, write_request, write_response};

/// The value of a TLV field.
pub trait TlvValue {
    /// The type of the field.
    ghost kind: { ℕ };

    /// The octets of the value.
    ghost octets: { Self → List ℕ };

    /// How many octets the value has, or `usize::MAX` where that is too little.
    fn octet_count(&self) -> usize
        ensures { result ≡ min (length (octets self.now)) usize.MAX };

    /// Appends the field. It cannot fail, since there is room for it.
    fn push_field(&self, out: &mut Vec<u8>)
        requires short { length (octets self.now) ≤ 255 }
        requires room { vec_len out.old + (length (octets self.now) + 2) ≤ vec_capacity out.old }
        ensures items { out.new.items ≡ out.old.items ++ tlv kind (octets self.now) }
        ensures len { vec_len out.new ≡ vec_len out.old + (length (octets self.now) + 2) }
        ensures capacity { vec_capacity out.old ≤ vec_capacity out.new };
}

impl TlvValue for FilestoreRequest {
    ghost kind = { filestore_request_type };

    ghost octets = { request_octets };

    fn octet_count(&self) -> usize {
        self.value_len()
    }

    fn push_field(&self, out: &mut Vec<u8>) {
        write_request(self, out).unwrap();
    }
}

impl TlvValue for FilestoreResponse {
    ghost kind = { filestore_response_type };

    ghost octets = { response_octets };

    fn octet_count(&self) -> usize {
        self.value_len()
    }

    fn push_field(&self, out: &mut Vec<u8>) {
        write_response(self, out).unwrap();
    }
}

/// Whether each value has at most 255 octets.
pub fn are_short<T: TlvValue>(values: &[T]) -> bool
    ensures { result ≡ list_all (λ value. nat_le (length (T.octets value)) 255) values.now }
{
    values
        .iter()
        .all(|value| value.octet_count() <= MAX_VALUE_LEN)
}

/// How many octets the values take as TLV fields, or `usize::MAX` where that is too little.
pub fn fields_len<T: TlvValue>(values: &[T]) -> usize
    ensures { result ≡ min (length (flat_map (λ value. tlv T.kind (T.octets value)) values.now)) usize.MAX }
{
    let mut len = 0usize;
    for value in values {
        len = len.saturating_add(value.octet_count().saturating_add(2));
    }
    len
}

/// Appends the values as TLV fields. It cannot fail, since there is room for them.
pub fn push_fields<T: TlvValue>(out: &mut Vec<u8>, values: &[T])
    requires short { list_all (λ value. nat_le (length (T.octets value)) 255) values.now ≡ true }
    requires room { vec_len out.old + length (flat_map (λ value. tlv T.kind (T.octets value)) values.now)
        ≤ vec_capacity out.old }
    ensures items { out.new.items ≡ out.old.items
        ++ flat_map (λ value. tlv T.kind (T.octets value)) values.now }
    ensures len { vec_len out.new ≡ vec_len out.old
        + length (flat_map (λ value. tlv T.kind (T.octets value)) values.now) }
    ensures capacity { vec_capacity out.old ≤ vec_capacity out.new }
{
    for value in values {
        value.push_field(out);
    }
}
