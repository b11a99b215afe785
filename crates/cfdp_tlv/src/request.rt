//! Filestore requests, read and written.

ghost use Rattle.std.specs.Prelude.{◌≡◌, ◌≤◌, ◌<◌, ◌+◌, ◌↔◌, ◌⊎◌, ◌++◌, [], length, vec_len, min, option_map, is_some, IfOk, OnOk, OnErr, IfErr, IsOk, IsErrOf, Ok, Err};
ghost use Rattle.std.specs.Vec.{vec_capacity};
ghost use Rattle.cfdp_tlv.specs.Reading.{Gives};
ghost use Rattle.cfdp_tlv.specs.Field.{tlv};
ghost use Rattle.cfdp_tlv.specs.Types.{filestore_request_type};
ghost use Rattle.cfdp_status.specs.Codes.{has_second, action_of};
ghost use Rattle.cfdp_tlv.specs.Values.{RequestFields, IsRequest};
ghost use Rattle.cfdp_tlv.specs.Grammar.{SpellsRequest, request_at, request_octets};
ghost use Rattle.cfdp_tlv.specs.declared.fault.TlvFault.TheVariants.{Memory, TooLong};

use crate::names::{joined, read_second};
use crate::room::{names_len, push_names};
use crate::{FILESTORE_REQUEST, FilestoreResponse, MAX_VALUE_LEN, TlvFault, read_lv};
use cfdp_status::{Action, Status};
use std::alloc::{AllocError, Global};
use std::marker::Model;

/// The longest TLV value of a request that can be answered, in octets: the response repeats the
/// names, and has the length of its message besides.
pub const MAX_ANSWERABLE_LEN: usize = MAX_VALUE_LEN - 1;

/// A filestore request (CCSDS 727.0-B-5 §5.4.1), in one allocation. A contract sees its action and
/// its names as octet lists. The second name is there exactly where the action has one.
#[derive(Debug, Drop)]
pub struct FilestoreRequest {
    action: Action,
    // The names, one after the other.
    names: Vec<u8>,
    // How many of these octets are the first name.
    first_len: usize,
}

impl Model for FilestoreRequest {
    ghost use Rattle.std.specs.Prelude.{◌≤◌, length, take, drop};
    ghost use Rattle.cfdp_tlv.specs.Values.{RequestFields};
    ghost use Rattle.cfdp_tlv.specs.code.Values.{second_of};

    ghost Value = { RequestFields };

    ghost view = { λ r. record {
      action = r.action;
      first = take r.first_len r.names.items;
      second = second_of r.action (drop r.first_len r.names.items);
    } };

    ghost invariant = { λ r. r.first_len ≤ length r.names.items };
}

/// A filestore request that lies in the octets that it was read from. A contract sees it as it sees
/// a [`FilestoreRequest`].
#[derive(Debug, Drop)]
pub struct RequestParts<'a> {
    /// What is asked for.
    pub action: Action,
    /// The first file name.
    pub first: &'a [u8],
    /// The second file name, for rename, append and replace.
    pub second: Option<&'a [u8]>,
}

impl<'a> Model for RequestParts<'a> {
    ghost use Rattle.std.specs.Prelude.{◌≡◌, option_map, is_some};
    ghost use Rattle.cfdp_status.specs.Codes.{has_second};
    ghost use Rattle.cfdp_tlv.specs.Values.{RequestFields};

    ghost Value = { RequestFields };

    ghost view = { λ r. record {
      action = r.action;
      first = r.first.now;
      second = option_map (λ name. name.now) r.second;
    } };

    ghost invariant = { λ r. is_some r.second ≡ has_second r.action };
}

impl PartialEq for FilestoreRequest {
    ghost use Rattle.cfdp_tlv.specs.Equality.{same_request};
    ghost use Rattle.cfdp_tlv.specs.code.Equality.{requests_per};

    ghost eq = { same_request };

    ghost laws = { requests_per };

    fn eq(&self, other: &FilestoreRequest) -> bool {
        self.action == other.action
            && self.first() == other.first()
            && self.second() == other.second()
    }
}

impl Eq for FilestoreRequest {
    ghost use Rattle.cfdp_tlv.specs.code.Equality.{requests_equiv};

    ghost laws = { requests_equiv };
}

impl FilestoreRequest {
    /// A request for an action on the names: a second one exactly where the action has it. The one
    /// allocation is for the octets of the names, which it copies.
    pub fn new(
        alloc: Global,
        action: Action,
        first: &[u8],
        second: Option<&[u8]>,
    ) -> Result<FilestoreRequest, AllocError>
        requires { is_some second ≡ has_second action }
        ensures { IfOk result (λ request. request ≡ record {
          action = action;
          first = first.now;
          second = option_map (λ name. name.now) second.entry;
        }) }
    {
        Ok(FilestoreRequest {
            action,
            names: joined(alloc, first, second, &[])?,
            first_len: first.len(),
        })
    }

    /// Another request that says the same. The one allocation is for the octets of the names.
    pub fn copy(&self, alloc: Global) -> Result<FilestoreRequest, AllocError>
        ensures { IfOk result (λ request. request ≡ self.now) }
    {
        Ok(FilestoreRequest {
            action: self.action,
            names: Vec::from_slice(alloc, &self.names)?,
            first_len: self.first_len,
        })
    }

    /// What is asked for.
    pub fn action(&self) -> Action
        ensures value { result ≡ self.now.action }
        ensures complete { IsRequest self.now }
    {
        self.action
    }

    /// The first file name, as it was spelled.
    pub fn first(&self) -> &[u8]
        ensures value { result.now ≡ self.now.first }
        ensures complete { IsRequest self.now }
    {
        &self.names[..self.first_len]
    }

    /// The second file name, where the action has one: rename, append and replace.
    pub fn second(&self) -> Option<&[u8]>
        ensures value { option_map (λ name. name.now) result ≡ self.now.second }
        ensures complete { IsRequest self.now }
    {
        if self.action.has_second() {
            Some(&self.names[self.first_len..])
        } else {
            None
        }
    }

    /// How many octets its TLV value has, or `usize::MAX` where that is too little.
    pub fn value_len(&self) -> usize
        ensures { result ≡ min (length (request_octets self.now)) usize.MAX }
    {
        names_len(self.first(), self.second()).saturating_add(1)
    }

    /// The response to it with a status of its action, and no message. It has the names of the
    /// request, and takes no memory.
    pub fn into_response(self, status: Status) -> FilestoreResponse
        requires { action_of status ≡ self.action }
        ensures { result ≡ record { status = status; first = self.first; second = self.second; message = [] } }
    {
        FilestoreResponse::of_names(status, self.names, self.first_len)
    }
}

/// The request that a whole TLV value spells, left where it lies.
///
/// The faults come in this order: no octet (`Truncated`), an action code above 8 (`BadAction`), a
/// name that is cut (`Truncated`), octets after the last name (`Trailing`). It takes no memory.
#[tactic(auto, unfolding(crate::specs::Grammar::request_at))]
pub fn request_parts(value: &[u8]) -> Result<RequestParts<'_>, TlvFault>
    ensures exact { result ≡ request_at value.now }
{
    let [octet, names @ ..] = value else {
        return Err(TlvFault::Truncated);
    };
    let action = Action::of_code(*octet >> 4).ok_or(TlvFault::BadAction)?;
    let (first, rest) = read_lv(names)?;
    let (second, rest) = read_second(action, rest)?;
    if !rest.is_empty() {
        return Err(TlvFault::Trailing);
    }
    Ok(RequestParts {
        action,
        first,
        second,
    })
}

impl<'a> RequestParts<'a> {
    /// The request with names of its own, in one allocation. The only fault is out of memory.
    pub fn copy(&self, alloc: Global) -> Result<FilestoreRequest, AllocError>
        ensures { IfOk result (λ request. request ≡ self.now) }
    {
        FilestoreRequest::new(alloc, self.action, self.first, self.second)
    }
}

/// What [`read_request`] returns.
fn copied(alloc: Global, value: &[u8]) -> Result<FilestoreRequest, TlvFault>
    ensures exact { Gives Memory (λ request. request) result (request_at value.now) }
{
    let parts = request_parts(value)?;
    Ok(parts.copy(alloc)?)
}

/// The request that a whole TLV value spells (CCSDS 727.0-B-5 §5.4.1).
///
/// The faults are those of [`request_parts`], found in one pass that takes no memory. Where there is
/// none, the names are copied into one allocation; `Memory` says that this was refused.
pub fn read_request(alloc: Global, value: &[u8]) -> Result<FilestoreRequest, TlvFault>
    // What is read is spelled so.
    ensures found { IfOk result (SpellsRequest value.now) }
    // What is spelled so is read, unless memory runs out.
    ensures only { (request : RequestFields) → SpellsRequest value.now request → (result ≡ Ok request)
        ⊎ (result ≡ Err Memory) }
    // Which fault it is: `Memory` is only returned instead of a request.
    ensures exact { Gives Memory (λ request. request) result (request_at value.now) }
{
    copied(alloc, value)
}

/// Appends a request as a whole TLV (CCSDS 727.0-B-5 §5.4.1), spare bits 0.
///
/// The faults are `TooLong`, where the value has more than 255 octets, and `Memory`.
/// Cost: the octets that it appends, and one growth of the vector at most.
pub fn write_request(request: &FilestoreRequest, out: &mut Vec<u8>) -> Result<(), TlvFault>
    ensures ok { OnOk result (out.new.items ≡ out.old.items
        ++ tlv filestore_request_type (request_octets request.now)) }
    ensures too_long { IsErrOf result TooLong ↔ (255 < length (request_octets request.now)) }
    ensures faults { IfErr result (λ fault. (fault ≡ TooLong) ⊎ (fault ≡ Memory)) }
    ensures err { OnErr result (out.new.items ≡ out.old.items) }
    // Where there is room for it, memory isn't asked for.
    ensures room { length (request_octets request.now) ≤ 255
        → vec_len out.old + (length (request_octets request.now) + 2) ≤ vec_capacity out.old → IsOk result }
    ensures capacity { vec_capacity out.old ≤ vec_capacity out.new }
{
    let len = request.value_len();
    if len > MAX_VALUE_LEN {
        return Err(TlvFault::TooLong);
    }
    out.reserve(len + 2)?;
    out.push_reserved(FILESTORE_REQUEST);
    out.push_reserved(len as u8);
    out.push_reserved(request.action().code() << 4);
    push_names(out, request.first(), request.second());
    Ok(())
}
