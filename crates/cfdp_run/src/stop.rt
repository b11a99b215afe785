//! How a script stops before its end.

use crate::run_commands::CommandFault;
use crate::wrong::Wrong;
use std::alloc::AllocError;

/// Why a script stops at a line.
#[derive(Debug, Drop, PartialEq, Eq)]
pub enum ScriptStop {
    /// The line is `end`.
    Ended,
    /// It is a bad line.
    Wrong(Wrong),
    /// This line, which it expects, was not among those that were written last.
    Unmet(Vec<u8>),
    /// The file of this name, which it puts, cannot be read.
    Unread(Vec<u8>),
    /// Out of memory.
    Memory,
}

impl From<AllocError> for ScriptStop {
    ghost use Rattle.std.specs.Prelude.{◌≡◌};
    ghost use Rattle.cfdp_run.specs.declared.stop.ScriptStop.TheVariants.{Memory};

    ghost from_gives = { λ _ stop. stop ≡ Memory };

    fn from(_refused: AllocError) -> ScriptStop {
        ScriptStop::Memory
    }
}

impl From<CommandFault> for ScriptStop {
    ghost use Rattle.std.specs.Prelude.{◌≡◌};
    ghost use Rattle.cfdp_run.specs.Stops.{stop_by};

    ghost from_gives = { λ fault stop. stop ≡ stop_by fault };

    fn from(fault: CommandFault) -> ScriptStop {
        match fault {
            CommandFault::Wrong(wrong) => ScriptStop::Wrong(wrong),
            CommandFault::Memory => ScriptStop::Memory,
        }
    }
}
