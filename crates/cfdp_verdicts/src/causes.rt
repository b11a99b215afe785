//! Why a request has a status.

ghost use Rattle.std.specs.Prelude.{◌≡◌, ◌++◌, OnOk};
ghost use Rattle.cfdp_verdicts.specs.Words.{absent, cause_of, not_allowed, octets_not_allowed, rename_not_allowed, said_of_name};

use cfdp_status::{Action, Status};
use cfdp_texts::push_shown;
use std::alloc::AllocError;

/// Appends a name, and what is said of it.
#[tactic(auto, unfolding(crate::specs::Words::said_of_name))]
fn push_said(name: &[u8], said: &[u8], text: &mut Vec<u8>) -> Result<(), AllocError>
    ensures { OnOk result (text.new.items ≡ text.old.items ++ said_of_name name.now said.now) }
{
    push_shown(name, text)?;
    text.extend_from_slice(said)
}

/// Appends that nothing exists at a path.
#[tactic(auto, unfolding(crate::specs::Words::absent))]
fn push_absent(name: &[u8], text: &mut Vec<u8>) -> Result<(), AllocError>
    ensures { OnOk result (text.new.items ≡ text.old.items ++ absent name.now) }
{
    push_said(name, b" does not exist", text)
}

/// Appends why a rename is not allowed.
#[tactic(auto, unfolding(crate::specs::Words::rename_not_allowed))]
fn push_rename(first: &[u8], second: &[u8], text: &mut Vec<u8>) -> Result<(), AllocError>
    ensures { OnOk result (text.new.items ≡ text.old.items ++ rename_not_allowed first.now second.now) }
{
    let deep = b" has no directory above it or more than 8 names, or is below ";
    push_said(second, deep, text)?;
    push_said(first, b"; or ", text)?;
    push_said(first, b" is protected, or above what is", text)
}

/// Appends why a file is not changed by the octets of another one.
#[tactic(auto, unfolding(crate::specs::Words::octets_not_allowed))]
fn push_octets(first: &[u8], second: &[u8], text: &mut Vec<u8>) -> Result<(), AllocError>
    ensures { OnOk result (text.new.items ≡ text.old.items ++ octets_not_allowed first.now second.now) }
{
    push_said(first, b" or ", text)?;
    push_said(second, b" is a directory, or ", text)?;
    push_said(first, b" is protected", text)
}

/// Appends why the filestore does not allow an action.
#[tactic(auto, unfolding(crate::specs::Words::not_allowed))]
fn push_not_allowed(
    action: Action,
    first: &[u8],
    second: &[u8],
    text: &mut Vec<u8>,
) -> Result<(), AllocError>
    ensures { OnOk result (text.new.items ≡ text.old.items ++ not_allowed action first.now second.now) }
{
    match action {
        Action::CreateFile | Action::CreateDirectory => {
            push_said(first, b" exists, or has no directory above it", text)
        }
        Action::DeleteFile | Action::DenyFile => {
            push_said(first, b" is a directory, or protected", text)
        }
        Action::RenameFile => push_rename(first, second, text),
        Action::AppendFile | Action::ReplaceFile => push_octets(first, second, text),
        Action::RemoveDirectory | Action::DenyDirectory => {
            push_said(first, b" is a file, has entries, or is protected", text)
        }
    }
}

/// Appends why a request with these names has a status (CCSDS 727.0-B-5 §5.4.2).
#[tactic(auto, unfolding(crate::specs::Words::cause_of))]
pub(crate) fn push_cause(
    status: Status,
    first: &[u8],
    second: &[u8],
    text: &mut Vec<u8>,
) -> Result<(), AllocError>
    ensures { OnOk result (text.new.items ≡ text.old.items ++ cause_of status first.now second.now) }
{
    match status {
        Status::Successful(_) => text.extend_from_slice(b"it is successful"),
        Status::NotPerformed(_) => text.extend_from_slice(b"it is not performed"),
        Status::NotAllowed(action) => push_not_allowed(action, first, second, text),
        Status::RenameNewPresent => push_said(second, b" exists", text),
        Status::AppendSecondAbsent | Status::ReplaceSecondAbsent => push_absent(second, text),
        Status::DeleteAbsent
        | Status::RenameOldAbsent
        | Status::AppendFirstAbsent
        | Status::ReplaceFirstAbsent
        | Status::RemoveAbsent => push_absent(first, text),
    }
}
