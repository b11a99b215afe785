//! Pictures of what a script of `cfdp run` does, in SVG.
//!
//! A [`Chart`] collects a run, moment by moment: marks of what comes and of what is sent, how far each transaction is,
//! what is there of its file, the blocks of the filestore, and notes in words. `specs/Collecting.antt` says what each
//! call adds. [`Chart::write`] writes the picture, which `specs/Picture.antt` defines as a function of what was
//! collected. [`laws`] has what is true of every picture.
#![tactic(auto)]

mod axis;
mod blocks;
mod chart;
mod collecting;
mod lanes;
pub mod laws;
mod legend;
mod mark_kinds;
mod marks;
mod notes;
mod picture;
mod shapes;
mod times;
mod words;

pub use axis::AxisPosition;
pub use chart::{
    Blocks, Chart, FileChange, Full, Lane, MOST_LANES, MOST_MARKS, MOST_MOMENTS, MOST_NOTES, Mark,
    Moment, Note, OctetRange, PhaseChange, Received,
};
pub use collecting::Seen;
pub use mark_kinds::{Direction, DrawnPhase, MarkKind};
