//! Filestore requests in words.

ghost use Rattle.std.specs.Prelude.{◌≡◌, ◌⊎◌, IfOk, IfErr, Ok, Err, true, false};
ghost use Rattle.cfdp_status.specs.Codes.{has_second};
ghost use Rattle.cfdp_plans.specs.Requests.{action_named, by_count, request_in, with_one, with_two};
ghost use Rattle.cfdp_lines.specs.Words.{words_of};
ghost use Rattle.cfdp_plans.specs.Names.{path_octets_in};
ghost use Rattle.cfdp_plans.specs.declared.fault.RequestFault.TheVariants.{Memory};

use crate::RequestFault;
use crate::names::read_path;
use cfdp_lines::next_word;
use cfdp_status::Action;
use cfdp_tlv::FilestoreRequest;
use std::alloc::Global;

/// The action that a word names.
#[tactic(auto, unfolding(crate::specs::Requests::action_named))]
fn action_of(word: &[u8]) -> Option<Action>
    ensures { result ≡ action_named word.now }
{
    if word == b"create-file".as_slice() {
        return Some(Action::CreateFile);
    }
    if word == b"delete-file".as_slice() {
        return Some(Action::DeleteFile);
    }
    if word == b"rename".as_slice() || word == b"rename-file".as_slice() {
        return Some(Action::RenameFile);
    }
    if word == b"append".as_slice() || word == b"append-file".as_slice() {
        return Some(Action::AppendFile);
    }
    if word == b"replace".as_slice() || word == b"replace-file".as_slice() {
        return Some(Action::ReplaceFile);
    }
    if word == b"create-directory".as_slice() {
        return Some(Action::CreateDirectory);
    }
    if word == b"remove-directory".as_slice() {
        return Some(Action::RemoveDirectory);
    }
    if word == b"deny-file".as_slice() {
        return Some(Action::DenyFile);
    }
    if word == b"deny-directory".as_slice() {
        return Some(Action::DenyDirectory);
    }
    None
}

/// The request for an action with one path.
fn with_one(alloc: Global, action: Action, first: &[u8]) -> Result<FilestoreRequest, RequestFault>
    requires { has_second action ≡ false }
    ensures ok { IfOk result (λ request. with_one action (path_octets_in first.now) ≡ Ok request) }
    ensures err { IfErr result (λ fault. (fault ≡ Memory) ⊎ (with_one action (path_octets_in first.now) ≡ Err fault)) }
{
    let Some(first) = read_path(alloc, first)? else {
        return Err(RequestFault::FirstPath);
    };
    Ok(FilestoreRequest::new(alloc, action, &first, None)?)
}

/// The request for an action with two paths.
fn with_two(
    alloc: Global,
    action: Action,
    first: &[u8],
    second: &[u8],
) -> Result<FilestoreRequest, RequestFault>
    requires { has_second action ≡ true }
    ensures ok { IfOk result (λ request. with_two action (path_octets_in first.now) (path_octets_in second.now)
        ≡ Ok request) }
    ensures err { IfErr result (λ fault. (fault ≡ Memory)
        ⊎ (with_two action (path_octets_in first.now) (path_octets_in second.now) ≡ Err fault)) }
{
    let Some(first) = read_path(alloc, first)? else {
        return Err(RequestFault::FirstPath);
    };
    let Some(second) = read_path(alloc, second)? else {
        return Err(RequestFault::SecondPath);
    };
    Ok(FilestoreRequest::new(alloc, action, &first, Some(&second))?)
}

/// The request for an action with the paths that these words are.
fn by_paths(alloc: Global, action: Action, paths: &[u8]) -> Result<FilestoreRequest, RequestFault>
    ensures ok { IfOk result (λ request. by_count (has_second action) action (words_of paths.now) ≡ Ok request) }
    ensures err { IfErr result (λ fault. (fault ≡ Memory)
        ⊎ (by_count (has_second action) action (words_of paths.now) ≡ Err fault)) }
{
    let mut rest = paths;
    let Some(first) = next_word(&mut rest) else {
        return Err(RequestFault::Paths(action));
    };
    let second = next_word(&mut rest);
    let third = next_word(&mut rest);
    match (action.has_second(), second, third) {
        (false, None, _) => with_one(alloc, action, first),
        (true, Some(second), None) => with_two(alloc, action, first, second),
        _ => Err(RequestFault::Paths(action)),
    }
}

/// The request that a text writes: an action and its one or two paths, with spaces between them, as
/// `rename app/new app/prog` (CCSDS 727.0-B-5 §5.4.1). Paths are written as listings print them:
/// [`read_path`](crate::read_path).
///
/// The first fault is returned: `Action`, `Paths`, `FirstPath`, `SecondPath`. `Memory` may be returned instead of any
/// answer. Cost: a few passes over the text.
pub fn read_request(alloc: Global, text: &[u8]) -> Result<FilestoreRequest, RequestFault>
    ensures ok { IfOk result (λ request. request_in text.now ≡ Ok request) }
    ensures err { IfErr result (λ fault. (fault ≡ Memory) ⊎ (request_in text.now ≡ Err fault)) }
{
    let mut rest = text;
    let Some(word) = next_word(&mut rest) else {
        return Err(RequestFault::Action);
    };
    match action_of(word) {
        Some(action) => by_paths(alloc, action, rest),
        None => Err(RequestFault::Action),
    }
}
