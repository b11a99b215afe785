//! Requests in words.

ghost use Rattle.std.specs.Prelude.{◌≡◌, ◌+◌, ◌++◌, ◌<◌, ◌^◌, OnOk};
ghost use Rattle.std.specs.Option.{option_map};
ghost use Rattle.cfdp_verdicts.specs.Words.{acted, word_between, numbered, request_words, second_words, verb_of};

use cfdp_status::Action;
use cfdp_texts::{push_labelled, push_shown};
use cfdp_tlv::FilestoreRequest;
use std::alloc::AllocError;

/// An action in words.
#[tactic(auto, unfolding(crate::specs::Words::verb_of))]
fn verb_of(action: Action) -> &'static [u8]
    ensures { result.now ≡ verb_of action }
{
    match action {
        Action::CreateFile => b"create-file ",
        Action::DeleteFile => b"delete-file ",
        Action::RenameFile => b"rename ",
        Action::AppendFile => b"append ",
        Action::ReplaceFile => b"replace ",
        Action::CreateDirectory => b"create-directory ",
        Action::RemoveDirectory => b"remove-directory ",
        Action::DenyFile => b"deny-file ",
        Action::DenyDirectory => b"deny-directory ",
    }
}

/// The word between the two names of an action.
#[tactic(auto, unfolding(crate::specs::Words::word_between))]
fn between(action: Action) -> &'static [u8]
    ensures { result.now ≡ word_between action }
{
    match action {
        Action::AppendFile => b" with ",
        Action::ReplaceFile => b" by ",
        _ => b" to ",
    }
}

/// Appends the second name of an action, if there is one, and the word before it.
fn push_second(action: Action, second: Option<&[u8]>, text: &mut Vec<u8>) -> Result<(), AllocError>
    ensures { OnOk result (text.new.items ≡ text.old.items
        ++ second_words action (option_map (λ name. name.now) second.entry)) }
{
    match second {
        None => Ok(()),
        Some(second) => {
            text.extend_from_slice(between(action))?;
            push_shown(second, text)
        }
    }
}

/// Appends an action in words, with its names.
#[tactic(auto, unfolding(crate::specs::Words::acted))]
pub(crate) fn push_acted(
    action: Action,
    first: &[u8],
    second: Option<&[u8]>,
    text: &mut Vec<u8>,
) -> Result<(), AllocError>
    ensures { OnOk result (text.new.items ≡ text.old.items
        ++ acted action first.now (option_map (λ name. name.now) second.entry)) }
{
    text.extend_from_slice(verb_of(action))?;
    push_shown(first, text)?;
    push_second(action, second, text)
}

/// Appends a request as it was sent.
fn push_request(request: &FilestoreRequest, text: &mut Vec<u8>) -> Result<(), AllocError>
    ensures { OnOk result (text.new.items ≡ text.old.items ++ request_words request.now) }
{
    push_acted(request.action(), request.first(), request.second(), text)
}

/// Appends the request with an index, by its number, which counts from 1.
#[tactic(auto, unfolding(crate::specs::Words::numbered))]
pub(crate) fn push_numbered(
    index: u8,
    request: Option<&FilestoreRequest>,
    text: &mut Vec<u8>,
) -> Result<(), AllocError>
    ensures { OnOk result (text.new.items ≡ text.old.items
        ++ numbered index (option_map (λ request. request.now) request.entry)) }
{
    push_labelled(b"request ", u64::from(index) + 1, text)?;
    match request {
        None => Ok(()),
        Some(request) => {
            text.extend_from_slice(b", ")?;
            push_request(request, text)
        }
    }
}
