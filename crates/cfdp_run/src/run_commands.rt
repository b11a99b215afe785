//! What a line of a script says.

use crate::wrong::Wrong;
use cfdp_paths::Path;
use cfdp_receiver::Mib;
use cfdp_status::TransactionId;
use cfdp_transactions::Config;
use std::alloc::AllocError;

/// How far the head of a script is. It decides which lines come too late.
#[derive(Clone, Copy, Debug, PartialEq, Eq)]
pub enum HeadProgress {
    /// No `config`, `protect` or `put` came.
    Fresh,
    /// One of them came: a `config` is too late.
    Begun,
    /// The head is over.
    Playing,
}

/// What a file holds that the filestore begins with.
#[derive(Debug, Drop)]
pub enum FileContent<'a> {
    /// Nothing.
    None,
    /// These octets.
    Octets(Vec<u8>),
    /// The octets of the file with this name.
    File(&'a [u8]),
}

/// What a line says.
#[derive(Debug, Drop)]
pub enum RunCommand<'a> {
    /// `mib`: the settings are these from now on.
    Settings(Mib),
    /// `config`: the configuration is this one, with nothing protected.
    Configure(Config),
    /// `protect`: this path, and all below it, is protected.
    Protect(Path),
    /// `put`: the filestore begins with this directory.
    PutDirectory(Path),
    /// `put`: it begins with this file.
    PutFile(Path, FileContent<'a>),
    /// `at`: octets come.
    Receive {
        /// The time.
        now: u64,
        /// The octets, at least one.
        octets: Vec<u8>,
    },
    /// `at`: the user cancels a transaction.
    Cancel {
        /// The time.
        now: u64,
        /// The transaction.
        id: TransactionId,
    },
    /// `at`: time passes.
    Pass {
        /// The time.
        now: u64,
    },
    /// `at`: the driver's clock was set.
    SetClock {
        /// The time, by now.
        now: u64,
    },
    /// `get`: what there is at this path is asked for.
    Get(Path),
    /// `gaps`: what is missing of this transaction is asked for.
    Gaps(TransactionId),
    /// `phase`: how far this transaction is, is asked for.
    Phase(TransactionId),
    /// `list`: all of the filestore is asked for.
    List,
    /// `expect`: this line has to be among those written last. Its words are joined by one space each.
    Expect(Vec<u8>),
    /// `end`: the script ends.
    End,
}

/// Why a line is not read.
#[derive(Clone, Copy, Debug, PartialEq, Eq)]
pub enum CommandFault {
    /// It is a bad line.
    Wrong(Wrong),
    /// Out of memory.
    Memory,
}

impl From<AllocError> for CommandFault {
    ghost use Rattle.std.specs.Prelude.{◌≡◌};
    ghost use Rattle.cfdp_run.specs.declared.run_commands.CommandFault.TheVariants.{Memory};

    ghost from_gives = { λ _ e. e ≡ Memory };

    fn from(_refused: AllocError) -> CommandFault {
        CommandFault::Memory
    }
}

impl From<Wrong> for CommandFault {
    ghost use Rattle.std.specs.Prelude.{◌≡◌};
    ghost use Rattle.cfdp_run.specs.declared.run_commands.CommandFault.TheVariants as fault;

    ghost from_gives = { λ w e. e ≡ fault.Wrong w };

    fn from(wrong: Wrong) -> CommandFault {
        CommandFault::Wrong(wrong)
    }
}
