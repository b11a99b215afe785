//! `scene` has what a journaled core is handed; `calls` tests the closing of a journal in one thread, `workers` what a
//! worker does, `refused` two workers that run out of memory, and `threads` several at once.

mod calls;
mod refused;
mod scene;
mod threads;
mod workers;
