//! What no clause says: what comes at each stage, what is left when out of memory, and that only the last answer is
//! written. `actor` hands inputs to a receiver and writes what it answers; the other modules have the cases, with their
//! texts.
//!
//! Whole scripts are text: `examples/run` has them, and `.ci/run_scripts` runs them.

mod actor;
mod old_answers;
mod refused;
mod stages;
