//! Why a request is not read, and why a script is not written.

ghost use Rattle.std.specs.Prelude.{◌≡◌};
ghost use Rattle.cfdp_plans.specs.Requests.{request_form};

use cfdp_pdus::WriteFault;
use cfdp_status::Action;
use cfdp_streams::Failed;
use std::alloc::AllocError;
use std::error::Error;
use std::fmt;

/// Why a request in words is not read.
#[derive(Clone, Copy, Debug, PartialEq, Eq)]
pub enum RequestFault {
    /// There is no word, or the first one names no action.
    Action,
    /// There are more or fewer paths than this action has.
    Paths(Action),
    /// The first path is none.
    FirstPath,
    /// The second path is none.
    SecondPath,
    /// Out of memory.
    Memory,
}

/// How a request for an action is written.
#[tactic(auto, unfolding(crate::specs::Requests::request_form))]
fn form_of(action: Action) -> &'static str
    ensures { result.now ≡ request_form action }
{
    match action {
        Action::CreateFile => "create-file PATH",
        Action::DeleteFile => "delete-file PATH",
        Action::RenameFile => "rename OLD NEW",
        Action::AppendFile => "append FILE ADDED",
        Action::ReplaceFile => "replace FILE BY",
        Action::CreateDirectory => "create-directory PATH",
        Action::RemoveDirectory => "remove-directory PATH",
        Action::DenyFile => "deny-file PATH",
        Action::DenyDirectory => "deny-directory PATH",
    }
}

impl fmt::Display for RequestFault {
    ghost use Rattle.std.specs.Prelude.{Some};
    ghost use Rattle.cfdp_plans.specs.Texts.{request_fault_text};

    ghost output = { λ fault. Some (request_fault_text fault) };

    fn fmt<W: fmt::Write>(&self, f: &mut fmt::Formatter<W>) -> fmt::Result {
        match self {
            RequestFault::Action => {
                f.write_str(
                    "unknown action: expected create-file, delete-file, rename, append, replace, create-directory, ",
                )?;
                f.write_str("remove-directory, deny-file or deny-directory")
            }
            RequestFault::Paths(action) => {
                f.write_str("expected ")?;
                f.write_str(form_of(*action))
            }
            RequestFault::FirstPath => f.write_str(
                "the first path is none: expected 1 to 8 names of 1 to 96 octets with / between them",
            ),
            RequestFault::SecondPath => f.write_str(
                "the second path is none: expected 1 to 8 names of 1 to 96 octets with / between them",
            ),
            RequestFault::Memory => f.write_str("out of memory"),
        }
    }
}

impl Error for RequestFault {}

impl From<AllocError> for RequestFault {
    ghost use Rattle.cfdp_plans.specs.declared.fault.RequestFault.TheVariants.{Memory};

    ghost from_gives = { λ _ e. e ≡ Memory };

    fn from(_refused: AllocError) -> RequestFault {
        RequestFault::Memory
    }
}

/// Why a script is not written to its end.
#[derive(Clone, Copy, Debug, PartialEq, Eq)]
pub enum ScriptFault {
    /// The writer failed.
    Write,
    /// Out of memory.
    Memory,
}

impl fmt::Display for ScriptFault {
    ghost use Rattle.std.specs.Prelude.{Some};
    ghost use Rattle.cfdp_plans.specs.Texts.{script_text_of};

    ghost output = { λ fault. Some (script_text_of fault) };

    fn fmt<W: fmt::Write>(&self, f: &mut fmt::Formatter<W>) -> fmt::Result {
        f.write_str(match self {
            ScriptFault::Write => "the script cannot be written",
            ScriptFault::Memory => "out of memory",
        })
    }
}

impl Error for ScriptFault {}

impl From<AllocError> for ScriptFault {
    ghost use Rattle.cfdp_plans.specs.declared.fault.ScriptFault.TheVariants.{Memory};

    ghost from_gives = { λ _ e. e ≡ Memory };

    fn from(_refused: AllocError) -> ScriptFault {
        ScriptFault::Memory
    }
}

impl From<WriteFault> for ScriptFault {
    ghost use Rattle.cfdp_plans.specs.declared.fault.ScriptFault.TheVariants.{Memory};

    ghost from_gives = { λ _ e. e ≡ Memory };

    // No PDU of an upload is too long.
    fn from(_fault: WriteFault) -> ScriptFault {
        ScriptFault::Memory
    }
}

impl From<Failed> for ScriptFault {
    ghost use Rattle.cfdp_plans.specs.declared.fault.ScriptFault.TheVariants.{Write};

    ghost from_gives = { λ _ e. e ≡ Write };

    fn from(_failed: Failed) -> ScriptFault {
        ScriptFault::Write
    }
}
