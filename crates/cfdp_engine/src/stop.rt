//! Why a seat's event was not taken.

ghost use Rattle.std.specs.Prelude.{◌≡◌, codes, Some};
ghost use Rattle.cfdp_engine.specs.Sharing.{stop_text};

use std::alloc::AllocError;
use std::error::Error;
use std::fmt;

/// Why an event was not taken, and no further ones are handed in.
#[derive(Clone, Copy, Debug, PartialEq, Eq)]
pub enum Stop {
    /// Out of memory; the event can be handed in again.
    Memory,
    /// The journal is full.
    JournalFull,
}

impl Stop {
    /// The cause in words.
    fn words(self) -> &'static str
        ensures { result.now ≡ stop_text self }
    {
        match self {
            Stop::Memory => "out of memory",
            Stop::JournalFull => "the journal is full",
        }
    }
}

impl fmt::Display for Stop {
    ghost output = { λ stop. Some (stop_text stop) };

    fn fmt<W: fmt::Write>(&self, f: &mut fmt::Formatter<W>) -> fmt::Result {
        f.write_str(self.words())
    }
}

impl Error for Stop {}

impl From<AllocError> for Stop {
    ghost use Rattle.std.specs.Prelude.{◌≡◌};
    ghost use Rattle.cfdp_engine.specs.declared.stop.Stop.TheVariants.{Memory};

    ghost from_gives = { λ _ stop. stop ≡ Memory };

    fn from(_refused: AllocError) -> Stop {
        Stop::Memory
    }
}
