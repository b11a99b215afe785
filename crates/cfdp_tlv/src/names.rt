//! The names of a request or a response.

ghost use Rattle.std.specs.Prelude.{◌≡◌, ◌++◌, option_map, is_some, IfOk};
ghost use Rattle.cfdp_status.specs.Codes.{has_second};
ghost use Rattle.cfdp_tlv.specs.Reading.{Answers};
ghost use Rattle.cfdp_tlv.specs.Grammar.{second_at};
ghost use Rattle.cfdp_tlv.specs.code.Values.{or_empty};

use crate::{TlvFault, read_lv};
use cfdp_status::Action;
use std::alloc::{AllocError, Global};

/// The second name at the front, where the action has one, and what is after it.
#[tactic(auto, unfolding(crate::specs::Grammar::second_at))]
pub fn read_second(action: Action, octets: &[u8]) -> Result<(Option<&[u8]>, &[u8]), TlvFault>
    ensures exact { Answers (λ x. (option_map (λ name. name.now) x.0, x.1.now)) result
        (second_at (has_second action) octets.now) }
    ensures complete { IfOk result (λ x. is_some x.0 ≡ has_second action) }
{
    if !action.has_second() {
        return Ok((None, octets));
    }
    let (second, rest) = read_lv(octets)?;
    Ok((Some(second), rest))
}

/// The names and a message, one after the other, in one allocation.
pub fn joined(
    alloc: Global,
    first: &[u8],
    second: Option<&[u8]>,
    message: &[u8],
) -> Result<Vec<u8>, AllocError>
    ensures { IfOk result (λ octets. octets.items ≡ first.now ++ or_empty (option_map (λ name. name.now) second.entry)
        ++ message.now) }
{
    let second = second.unwrap_or(&[]);
    let len = first.len().saturating_add(second.len());
    let mut octets = Vec::with_capacity(alloc, len.saturating_add(message.len()))?;
    octets.extend_from_slice(first)?;
    octets.extend_from_slice(second)?;
    octets.extend_from_slice(message)?;
    Ok(octets)
}
