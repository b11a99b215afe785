//! Filestore responses, read and written.

ghost use Rattle.std.specs.Prelude.{◌≡◌, ◌≤◌, ◌<◌, ◌+◌, ◌↔◌, ◌⊎◌, ◌++◌, [], length, take, drop, vec_len, min, option_map, is_some, IfOk, OnOk, OnErr, IfErr, IsOk, IsErrOf, Ok, Err};
ghost use Rattle.std.specs.Vec.{vec_capacity};
ghost use Rattle.cfdp_tlv.specs.Reading.{Gives};
ghost use Rattle.cfdp_tlv.specs.Field.{tlv};
ghost use Rattle.cfdp_tlv.specs.Types.{filestore_response_type};
ghost use Rattle.cfdp_status.specs.Codes.{has_second, action_of};
ghost use Rattle.cfdp_tlv.specs.Values.{ResponseFields, IsResponse};
ghost use Rattle.cfdp_tlv.specs.code.Values.{second_of};
ghost use Rattle.cfdp_tlv.specs.Grammar.{SpellsResponse, response_at, response_octets};
ghost use Rattle.cfdp_tlv.specs.Equality.{same_names};
ghost use Rattle.cfdp_tlv.specs.declared.fault.TlvFault.TheVariants.{Memory, TooLong};

use crate::names::{joined, read_second};
use crate::room::{names_len, push_lv, push_names};
use crate::{FILESTORE_RESPONSE, MAX_VALUE_LEN, TlvFault, read_lv};
use cfdp_status::{Action, Status};
use std::alloc::{AllocError, Global};
use std::marker::Model;

/// A filestore response (CCSDS 727.0-B-5 §5.4.2), in one allocation. A contract sees its status, its
/// names and its message as octet lists. The second name is there exactly where the status's action
/// has one.
#[derive(Debug, Drop)]
pub struct FilestoreResponse {
    status: Status,
    // The names and the message, one after the other.
    octets: Vec<u8>,
    // How many of these octets are the first name.
    first_len: usize,
    // How many of them are names.
    names_len: usize,
}

impl Model for FilestoreResponse {
    ghost use Rattle.std.specs.Prelude.{◌≤◌, length, take, drop};
    ghost use Rattle.cfdp_status.specs.Codes.{action_of};
    ghost use Rattle.cfdp_tlv.specs.Values.{ResponseFields};
    ghost use Rattle.cfdp_tlv.specs.code.Values.{second_of};

    ghost Value = { ResponseFields };

    ghost view = { λ r. record {
      status = r.status;
      first = take r.first_len r.octets.items;
      second = second_of (action_of r.status) (drop r.first_len (take r.names_len r.octets.items));
      message = drop r.names_len r.octets.items;
    } };

    ghost invariant = { λ r. (r.first_len ≤ r.names_len) × (r.names_len ≤ length r.octets.items) };
}

/// A filestore response that lies in the octets that it was read from. A contract sees it as it sees
/// a [`FilestoreResponse`].
#[derive(Debug, Drop)]
pub struct ResponseParts<'a> {
    /// How the request went.
    pub status: Status,
    /// The first file name.
    pub first: &'a [u8],
    /// The second file name, for rename, append and replace.
    pub second: Option<&'a [u8]>,
    /// The filestore message, which may be empty.
    pub message: &'a [u8],
}

impl<'a> Model for ResponseParts<'a> {
    ghost use Rattle.std.specs.Prelude.{◌≡◌, option_map, is_some};
    ghost use Rattle.cfdp_status.specs.Codes.{has_second, action_of};
    ghost use Rattle.cfdp_tlv.specs.Values.{ResponseFields};

    ghost Value = { ResponseFields };

    ghost view = { λ r. record {
      status = r.status;
      first = r.first.now;
      second = option_map (λ name. name.now) r.second;
      message = r.message.now;
    } };

    ghost invariant = { λ r. is_some r.second ≡ has_second (action_of r.status) };
}

impl PartialEq for FilestoreResponse {
    ghost use Rattle.cfdp_tlv.specs.Equality.{same_response};
    ghost use Rattle.cfdp_tlv.specs.code.Equality.{responses_per};

    ghost eq = { same_response };

    ghost laws = { responses_per };

    fn eq(&self, other: &FilestoreResponse) -> bool {
        self.status == other.status
            && have_same_names(self, other)
            && self.message() == other.message()
    }
}

/// Whether both responses have the same names.
#[tactic(auto, unfolding(crate::specs::Equality::same_names))]
fn have_same_names(a: &FilestoreResponse, b: &FilestoreResponse) -> bool
    ensures { result ≡ same_names a.now b.now }
{
    a.first() == b.first() && a.second() == b.second()
}

impl Eq for FilestoreResponse {
    ghost use Rattle.cfdp_tlv.specs.code.Equality.{responses_equiv};

    ghost laws = { responses_equiv };
}

impl FilestoreResponse {
    /// A response with a status, the names of its request (a second one exactly where the status's
    /// action has it) and a message. The one allocation is for their octets, which it copies.
    pub fn new(
        alloc: Global,
        status: Status,
        first: &[u8],
        second: Option<&[u8]>,
        message: &[u8],
    ) -> Result<FilestoreResponse, AllocError>
        requires { is_some second ≡ has_second (action_of status) }
        ensures { IfOk result (λ response. response ≡ record {
          status = status;
          first = first.now;
          second = option_map (λ name. name.now) second.entry;
          message = message.now;
        }) }
    {
        let octets = joined(alloc, first, second, message)?;
        let names_len = octets.len() - message.len();
        Ok(FilestoreResponse {
            status,
            octets,
            first_len: first.len(),
            names_len,
        })
    }

    /// The response with a status, no message, and the names one after the other.
    pub(crate) fn of_names(status: Status, names: Vec<u8>, first_len: usize) -> FilestoreResponse
        requires { first_len ≤ length names.items }
        ensures { result ≡ record {
          status = status;
          first = take first_len names.items;
          second = second_of (action_of status) (drop first_len names.items);
          message = [];
        } }
    {
        let names_len = names.len();
        FilestoreResponse {
            status,
            octets: names,
            first_len,
            names_len,
        }
    }

    /// Another response that says the same. The one allocation is for the octets of the names and
    /// the message.
    pub fn copy(&self, alloc: Global) -> Result<FilestoreResponse, AllocError>
        ensures { IfOk result (λ response. response ≡ self.now) }
    {
        Ok(FilestoreResponse {
            status: self.status,
            octets: Vec::from_slice(alloc, &self.octets)?,
            first_len: self.first_len,
            names_len: self.names_len,
        })
    }

    /// How the request went.
    pub fn status(&self) -> Status
        ensures value { result ≡ self.now.status }
        ensures complete { IsResponse self.now }
    {
        self.status
    }

    /// The first file name, as the request spelled it.
    pub fn first(&self) -> &[u8]
        ensures value { result.now ≡ self.now.first }
        ensures complete { IsResponse self.now }
    {
        &self.octets[..self.first_len]
    }

    /// The second file name, where the action has one: rename, append and replace.
    pub fn second(&self) -> Option<&[u8]>
        ensures value { option_map (λ name. name.now) result ≡ self.now.second }
        ensures complete { IsResponse self.now }
    {
        if self.status.action().has_second() {
            let names = &self.octets[..self.names_len];
            Some(&names[self.first_len..])
        } else {
            None
        }
    }

    /// The filestore message, which may be empty.
    pub fn message(&self) -> &[u8]
        ensures value { result.now ≡ self.now.message }
        ensures complete { IsResponse self.now }
    {
        &self.octets[self.names_len..]
    }

    /// How many octets its TLV value has, or `usize::MAX` where that is too little.
    pub fn value_len(&self) -> usize
        ensures { result ≡ min (length (response_octets self.now)) usize.MAX }
    {
        let names = names_len(self.first(), self.second());
        let message = self.message().len().saturating_add(1);
        names.saturating_add(message).saturating_add(1)
    }
}

/// The response that a whole TLV value spells, left where it lies.
///
/// The faults come in this order: no octet (`Truncated`), an action code above 8 (`BadAction`), an
/// octet that is no status (`BadStatus`), a field that is cut (`Truncated`), octets after the
/// message (`Trailing`). It takes no memory.
#[tactic(auto, unfolding(crate::specs::Grammar::response_at))]
pub fn response_parts(value: &[u8]) -> Result<ResponseParts<'_>, TlvFault>
    ensures exact { result ≡ response_at value.now }
{
    let [octet, fields @ ..] = value else {
        return Err(TlvFault::Truncated);
    };
    Action::of_code(*octet >> 4).ok_or(TlvFault::BadAction)?;
    let status = Status::of_octet(*octet).ok_or(TlvFault::BadStatus)?;
    let (first, rest) = read_lv(fields)?;
    let (second, rest) = read_second(status.action(), rest)?;
    let (message, rest) = read_lv(rest)?;
    if !rest.is_empty() {
        return Err(TlvFault::Trailing);
    }
    Ok(ResponseParts {
        status,
        first,
        second,
        message,
    })
}

impl<'a> ResponseParts<'a> {
    /// The response with names and a message of its own, in one allocation. The only fault is out of memory.
    pub fn copy(&self, alloc: Global) -> Result<FilestoreResponse, AllocError>
        ensures { IfOk result (λ response. response ≡ self.now) }
    {
        FilestoreResponse::new(alloc, self.status, self.first, self.second, self.message)
    }
}

/// What [`read_response`] returns.
fn copied(alloc: Global, value: &[u8]) -> Result<FilestoreResponse, TlvFault>
    ensures exact { Gives Memory (λ response. response) result (response_at value.now) }
{
    let parts = response_parts(value)?;
    Ok(parts.copy(alloc)?)
}

/// The response that a whole TLV value spells (CCSDS 727.0-B-5 §5.4.2).
///
/// The faults are those of [`response_parts`], found in one pass that takes no memory. Where there is
/// none, the names and the message are copied into one allocation; `Memory` says that this was
/// refused.
pub fn read_response(alloc: Global, value: &[u8]) -> Result<FilestoreResponse, TlvFault>
    // What is read is spelled so.
    ensures found { IfOk result (SpellsResponse value.now) }
    // What is spelled so is read, unless memory runs out.
    ensures only { (response : ResponseFields) → SpellsResponse value.now response → (result ≡ Ok response)
        ⊎ (result ≡ Err Memory) }
    // Which fault it is: `Memory` is only returned instead of a response.
    ensures exact { Gives Memory (λ response. response) result (response_at value.now) }
{
    copied(alloc, value)
}

/// Appends a response as a whole TLV (CCSDS 727.0-B-5 §5.4.2).
///
/// The faults are `TooLong`, where the value has more than 255 octets, and `Memory`.
/// Cost: the octets that it appends, and one growth of the vector at most.
pub fn write_response(response: &FilestoreResponse, out: &mut Vec<u8>) -> Result<(), TlvFault>
    ensures ok { OnOk result (out.new.items ≡ out.old.items
        ++ tlv filestore_response_type (response_octets response.now)) }
    ensures too_long { IsErrOf result TooLong ↔ (255 < length (response_octets response.now)) }
    ensures faults { IfErr result (λ fault. (fault ≡ TooLong) ⊎ (fault ≡ Memory)) }
    ensures err { OnErr result (out.new.items ≡ out.old.items) }
    // Where there is room for it, memory isn't asked for.
    ensures room { length (response_octets response.now) ≤ 255
        → vec_len out.old + (length (response_octets response.now) + 2) ≤ vec_capacity out.old → IsOk result }
    ensures capacity { vec_capacity out.old ≤ vec_capacity out.new }
{
    let len = response.value_len();
    if len > MAX_VALUE_LEN {
        return Err(TlvFault::TooLong);
    }
    out.reserve(len + 2)?;
    out.push_reserved(FILESTORE_RESPONSE);
    out.push_reserved(len as u8);
    out.push_reserved(response.status().octet());
    push_names(out, response.first(), response.second());
    push_lv(out, response.message());
    Ok(())
}
