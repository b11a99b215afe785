//! What is collected of a run.

use crate::axis::AxisPosition;
use crate::mark_kinds::{Direction, DrawnPhase, MarkKind};
use cfdp_status::TransactionId;
use std::alloc::{AllocError, AllocFailed, Global};

/// The most moments that a picture has.
pub const MOST_MOMENTS: u32 = 4_000;

/// The most lanes that a picture has.
pub const MOST_LANES: usize = 64;

/// The most marks that a picture has.
pub const MOST_MARKS: u32 = 20_000;

/// The most notes that a picture writes out.
pub const MOST_NOTES: usize = 99;

/// Octets of a file: where they begin, and where they end.
pub type OctetRange = (u64, u64);

/// A mark in a lane: a PDU, a timer, or a cancel.
#[derive(Debug, Drop)]
pub struct Mark {
    /// Where it is.
    pub at: AxisPosition,
    /// What it shows.
    pub kind: MarkKind,
    /// Which way it goes.
    pub direction: Direction,
    /// What is said of it where a reader points at it.
    pub words: Vec<u8>,
}

/// A transaction is this far from here on. `None`: nothing is known of it.
#[derive(Clone, Copy, Debug)]
pub struct PhaseChange {
    pub at: AxisPosition,
    pub phase: Option<DrawnPhase>,
}

/// What was received of a file.
#[derive(Debug, Drop, PartialEq)]
pub struct Received {
    /// The end of the last octet, as an offset.
    pub end: u64,
    /// What is missing, in order.
    pub gaps: Vec<OctetRange>,
}

/// This much of a file is there from here on. `None`: none of it is kept.
#[derive(Debug, Drop)]
pub struct FileChange {
    pub at: AxisPosition,
    pub received: Option<Received>,
}

/// What is shown of a transaction.
#[derive(Debug, Drop)]
pub struct Lane {
    /// How many lanes are above it.
    pub index: u32,
    /// The transaction. `None`: what is of no transaction.
    pub id: Option<TransactionId>,
    /// The name of its file.
    pub file: Vec<u8>,
    /// The size of its file, in octets, as far as it is known.
    pub size: u64,
    pub marks: Vec<Mark>,
    pub phases: Vec<PhaseChange>,
    pub files: Vec<FileChange>,
    /// Where the next mark is that comes at this moment, and the next that is sent.
    pub next_came: AxisPosition,
    pub next_sent: AxisPosition,
}

/// How many blocks of the filestore are in use, and how many are reserved beside them.
#[derive(Clone, Copy, Debug, PartialEq, Eq)]
pub struct Blocks {
    pub used: u32,
    pub reserved: u32,
}

/// A moment: an input of the run.
#[derive(Clone, Copy, Debug)]
pub struct Moment {
    pub at: AxisPosition,
    pub time: u64,
    /// The blocks after it.
    pub blocks: Blocks,
}

/// Something that is said in words.
#[derive(Debug, Drop)]
pub struct Note {
    /// Its number, counted from 1.
    pub number: u32,
    /// How many lanes are above its own.
    pub lane: u32,
    pub id: Option<TransactionId>,
    pub at: AxisPosition,
    pub time: u64,
    pub words: Vec<u8>,
}

/// Why something is not collected.
#[derive(Clone, Copy, Debug, PartialEq, Eq)]
pub enum Full {
    /// There are [`MOST_MOMENTS`] moments.
    Moments,
    /// There are [`MOST_LANES`] lanes.
    Lanes,
    /// There are [`MOST_MARKS`] marks.
    Marks,
    /// Out of memory.
    Memory,
}

impl From<AllocError> for Full {
    ghost use Rattle.std.specs.Prelude.{◌≡◌};
    ghost use Rattle.cfdp_draw.specs.declared.chart.Full.TheVariants.{Memory};

    ghost from_gives = { λ _ e. e ≡ Memory };

    fn from(_refused: AllocError) -> Full {
        Full::Memory
    }
}

impl<T: Drop> From<AllocFailed<T>> for Full {
    ghost use Rattle.std.specs.Prelude.{◌≡◌};
    ghost use Rattle.cfdp_draw.specs.declared.chart.Full.TheVariants.{Memory};

    ghost from_gives = { λ _ e. e ≡ Memory };

    fn from(_refused: AllocFailed<T>) -> Full {
        Full::Memory
    }
}

/// What is collected of a run, moment by moment.
#[derive(Debug, Drop)]
pub struct Chart {
    /// The title.
    pub title: Vec<u8>,
    /// How many blocks the filestore has.
    pub size: u32,
    /// The blocks before the first moment.
    pub first: Blocks,
    pub lanes: Vec<Lane>,
    pub moments: Vec<Moment>,
    pub notes: Vec<Note>,
    /// How many notes are not written out.
    pub others: u32,
    /// What is said last: why the run ended early.
    pub ending: Vec<u8>,
    /// Where this moment begins.
    pub here: AxisPosition,
    /// How many wide marks there are up to this moment, side by side.
    pub wide_marks: u32,
    /// How many marks there are.
    pub marks: u32,
    /// The most blocks that were in use and reserved after a moment.
    pub most: u32,
}
