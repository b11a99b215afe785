//! A filestore whose files and directories are in an arena: [`TreeStore`].
//!
//! A block of the arena is a header of 8 octets and a payload of 120 octets (`header`, `payload`). Blocks form runs:
//! each block of a run carries the run's first block and its own rank, so that what a run holds does not change when
//! another run does (`runs`). Octets go into a run, out of it and from run to run by slices of a block, from block to
//! block with no buffer, and a position in a run is kept as a cursor (`cursor`, `transfer`, `copy`). The octets of a
//! file or of a staged list are a run that has just the blocks for them (`contents`, `files`, `slots`). Their checksum
//! is kept with them, and changes with each change of them (`summing`); octets of a staged list that were never written
//! are known to be zeros, and are not read for it (`gap`). A block in the middle of a run is found by the ways back
//! beside the arena (`cursor`, `cfdp_ways`). A file or a directory is a node, one block with its name (`node_block`,
//! `nodes`). Nodes are found by their directory and their name (`index`, `lookup`), and each directory has its entries
//! in order of their names (`orders`), by which what is below a path is walked over in path order (`walk`, `beside`)
//! and reported (`nodes_below`, `spelling`, `listing`), or one by one (`next`); `found` says and reads it by lent
//! names. The store puts these together (`tree_store`, `install`).
//!
//! Nodes, octets of files and octets of staged lists are in the arena. The heads of the index's lists, the orders of
//! the entries, the slots of the staged lists and the ways of all blocks are in vectors beside it, whose memory
//! `TreeStore::new` takes.
#![tactic(auto)]

mod beside;
mod contents;
mod copy;
mod cursor;
mod files;
mod found;
mod gap;
mod header;
mod index;
mod install;
mod listing;
mod lookup;
mod next;
mod node_block;
mod nodes;
mod nodes_below;
mod orders;
mod payload;
mod runs;
mod slots;
mod spelling;
mod summing;
mod transfer;
mod tree_store;
mod walk;

pub use listing::Found;
pub use next::NextEntry;
pub use tree_store::TreeStore;
