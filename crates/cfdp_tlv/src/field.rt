//! LV and TLV fields.

ghost use Rattle.std.specs.Prelude.{◌≡◌, ℕ, List, ◌++◌, IfOk, IsOkAnd};
ghost use Rattle.cfdp_tlv.specs.Reading.{Answers};
ghost use Rattle.cfdp_tlv.specs.Field.{lv, tlv, lv_at, tlv_at};

use crate::TlvFault;

/// The type of a filestore request TLV (CCSDS 727.0-B-5 §5.4.1).
pub const FILESTORE_REQUEST: u8 = 0;

/// The type of a filestore response TLV (CCSDS 727.0-B-5 §5.4.2).
pub const FILESTORE_RESPONSE: u8 = 1;

/// The type of a message to user TLV (CCSDS 727.0-B-5 §5.4.3).
pub const MESSAGE_TO_USER: u8 = 2;

/// The type of an entity ID TLV, which has the fault location (CCSDS 727.0-B-5 §5.4.6).
pub const ENTITY_ID: u8 = 6;

/// The longest value of an LV or TLV field, in octets: its length is one octet.
pub const MAX_VALUE_LEN: usize = 255;

/// A TLV field at the front of some octets (CCSDS 727.0-B-5 §5.1.9).
#[derive(Clone, Copy, Debug)]
pub struct Tlv<'a> {
    /// The type octet.
    pub kind: u8,
    /// The value, at most 255 octets.
    pub value: &'a [u8],
    /// What is after the field.
    pub rest: &'a [u8],
}

/// The value of the LV field at the front, and what is after it (CCSDS 727.0-B-5 §5.1.8).
///
/// The only fault is `Truncated`: there is no length octet, or fewer octets after it than it says.
/// It takes no memory.
#[tactic(auto, unfolding(crate::specs::Field::lv_at))]
pub fn read_lv(octets: &[u8]) -> Result<(&[u8], &[u8]), TlvFault>
    // What is read is spelled so, and what is spelled so is read.
    ensures found { IfOk result (λ field. octets.now ≡ lv field.0.now ++ field.1.now) }
    ensures only { (value rest : List ℕ) → octets.now ≡ lv value ++ rest →
        IsOkAnd result (λ field. (field.0.now ≡ value) × (field.1.now ≡ rest)) }
    // Which fault it is.
    ensures exact { Answers (λ field. (field.0.now, field.1.now)) result (lv_at octets.now) }
{
    let [len, rest @ ..] = octets else {
        return Err(TlvFault::Truncated);
    };
    let len = usize::from(*len);
    if rest.len() < len {
        return Err(TlvFault::Truncated);
    }
    Ok(rest.split_at(len))
}

/// The TLV field at the front, and what is after it (CCSDS 727.0-B-5 §5.1.9).
///
/// The only fault is `Truncated`: the type or the length octet is missing, or fewer octets are
/// after it than it says. It takes no memory.
#[tactic(auto, unfolding(crate::specs::Field::tlv_at))]
pub fn read_tlv(octets: &[u8]) -> Result<Tlv<'_>, TlvFault>
    // What is read is spelled so, and what is spelled so is read.
    ensures found { IfOk result (λ field. octets.now ≡ tlv field.kind field.value.now ++ field.rest.now) }
    ensures only { (kind : ℕ) (value rest : List ℕ) → octets.now ≡ tlv kind value ++ rest
        → IsOkAnd result (λ field. (field.kind ≡ kind) × (field.value.now ≡ value) × (field.rest.now ≡ rest)) }
    // Which fault it is.
    ensures exact { Answers (λ field. (field.kind, field.value.now, field.rest.now)) result (tlv_at octets.now) }
{
    let [kind, field @ ..] = octets else {
        return Err(TlvFault::Truncated);
    };
    let (value, rest) = read_lv(field)?;
    Ok(Tlv {
        kind: *kind,
        value,
        rest,
    })
}
