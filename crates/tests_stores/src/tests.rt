//! Tests of the filestores:
//!
//! - worked scripts on two stores, with the statuses, the ticks and the free blocks that they come to;
//! - scripts made at random, on both stores side by side;
//! - the store inside an arena: at its limits, by lent names, and gone through entry by entry;
//! - octets of sizes around those of blocks;
//! - what a store shows when out of memory;
//! - the arena under the store.
//!
//! `octets` has what is read and written octet by octet.

mod arena;
mod calls;
mod lent;
mod limits;
mod many;
mod next;
mod octets;
mod one_hash;
mod random;
mod refused;
mod sizes;
mod steps;
mod worked;
