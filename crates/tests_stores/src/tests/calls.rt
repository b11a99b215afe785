//! Calls of a store that ask first whether what they need holds.

ghost use Rattle.std.specs.Prelude.{◌≡◌, ◌<◌, ◌≤◌};
ghost use Rattle.cfdp_actions.specs.Filestore.{blocks_of};

use cfdp_actions::{Filestore, Kind, PAYLOAD_OCTETS, Protected, Request, perform};
use cfdp_paths::{Memory, Path};
use cfdp_status::Action;
use std::alloc::{AllocError, Global};

/// The path that the octets spell, also where it is out of memory at first. They spell one, so that it can fail only
/// out of memory.
pub fn parsed(alloc: Global, octets: &[u8]) -> Result<Path, Memory> {
    if let Ok(path) = Path::parse(alloc, octets) {
        return Ok(path);
    }
    match Path::parse(alloc, octets) {
        Ok(path) => Ok(path),
        Err(_) => Err(AllocError),
    }
}

/// The path of a second name. Empty: none.
fn parsed_second(alloc: Global, octets: &[u8]) -> Result<Option<Path>, Memory> {
    if octets.is_empty() {
        return Ok(None);
    }
    Ok(Some(parsed(alloc, octets)?))
}

/// The request for an action at its names, which are neither too few nor too many. No second name: empty.
pub fn request(
    alloc: Global,
    action: Action,
    first: &[u8],
    second: &[u8],
) -> Result<Request, Memory> {
    let second = parsed_second(alloc, second)?;
    Request::new(action, parsed(alloc, first)?, second).ok_or(AllocError)
}

/// What is asked of a store.
#[derive(Clone, Copy)]
pub enum StoreCall<'a> {
    /// An action at its names. No second one: empty.
    Perform(Action, &'a [u8], &'a [u8]),
    /// What is staged in the slot gets this many octets.
    Extend(u8, u64),
    /// These octets are in what is staged in the slot, from the offset on.
    Put(u8, u64, &'a [u8]),
    /// What is staged in the slot is dropped.
    Unstage(u8),
    /// What is staged in the slot becomes the file at the path.
    Install(u8, &'a [u8]),
}

/// What a store answers.
#[derive(Drop, PartialEq)]
pub enum CallResult {
    /// The status octet and the ticks.
    Performed(u8, u32),
    /// The ticks.
    Ticks(u32),
    /// It is put there.
    Put,
    /// It may not be, or does not fit.
    NotAllowed,
}

impl<'a> StoreCall<'a> {
    /// Asks it of the store. Memory that is refused was wanted by the store: a path that is refused it is parsed once
    /// more.
    pub fn answer<S: Filestore>(
        &self,
        alloc: Global,
        store: &mut S,
        protected: &Protected,
    ) -> Result<CallResult, Memory> {
        match self {
            StoreCall::Perform(action, first, second) => {
                performed(store, protected, &request(alloc, *action, first, second)?)
            }
            StoreCall::Extend(slot, size) => extend(store, *slot, *size),
            StoreCall::Put(slot, at, octets) => Ok(put(store, *slot, *at, octets)),
            StoreCall::Unstage(slot) => Ok(unstage(store, *slot)),
            StoreCall::Install(slot, path) => install(store, *slot, &parsed(alloc, path)?),
        }
    }
}

fn performed<S: Filestore>(
    store: &mut S,
    protected: &Protected,
    request: &Request,
) -> Result<CallResult, Memory> {
    let done = perform(store, protected, request)?;
    Ok(CallResult::Performed(done.status.octet(), done.ticks))
}

/// The blocks of this many octets, at most 65,536.
#[tactic(auto, unfolding(cfdp_actions::specs::Filestore::blocks_of))]
fn blocks_of(octets: u64) -> u64
    requires { octets ≤ 7864320 }
    ensures { result ≡ blocks_of octets }
{
    (octets + (PAYLOAD_OCTETS - 1)) / PAYLOAD_OCTETS
}

#[tactic(auto, unfolding(cfdp_actions::specs::Filestore::blocks_of))]
fn extend<S: Filestore>(store: &mut S, slot: u8, size: u64) -> Result<CallResult, Memory> {
    if slot > 63 || size > 7_864_320 {
        return Ok(CallResult::NotAllowed);
    }
    let staged = store.staged_size(slot);
    if staged > size || blocks_of(size) - blocks_of(staged) > u64::from(store.free()) {
        return Ok(CallResult::NotAllowed);
    }
    Ok(CallResult::Ticks(store.stage_extend(slot, size)?))
}

fn put<S: Filestore>(store: &mut S, slot: u8, at: u64, octets: &[u8]) -> CallResult {
    if slot > 63 {
        return CallResult::NotAllowed;
    }
    let size = store.staged_size(slot);
    let length = octets.len() as u64;
    if length > size || at > size - length {
        return CallResult::NotAllowed;
    }
    store.stage_put(slot, at, octets);
    CallResult::Put
}

/// Drops what is staged in the slot.
pub fn unstage<S: Filestore>(store: &mut S, slot: u8) -> CallResult {
    if slot > 63 {
        return CallResult::NotAllowed;
    }
    CallResult::Ticks(store.unstage(slot))
}

fn install<S: Filestore>(store: &mut S, slot: u8, path: &Path) -> Result<CallResult, Memory> {
    if slot > 63 || !store.parent_is_good(path) {
        return Ok(CallResult::NotAllowed);
    }
    match store.kind(path) {
        Some(Kind::Directory) => Ok(CallResult::NotAllowed),
        None if store.free() == 0 => Ok(CallResult::NotAllowed),
        Some(Kind::File) | None => Ok(CallResult::Ticks(store.install(slot, path)?)),
    }
}

/// This many octets of the file at the path, from offset `at` on; `None` where there are none.
pub fn read<S: Filestore>(
    alloc: Global,
    store: &S,
    path: &Path,
    at: u64,
    count: u64,
) -> Result<Option<Vec<u8>>, Memory> {
    if store.kind(path) != Some(Kind::File) {
        return Ok(None);
    }
    let size = store.size(path);
    if count > size || at > size - count {
        return Ok(None);
    }
    let mut octets = vec![in alloc; 0; count as usize]?;
    store.read(path, at, octets.as_mut_slice());
    Ok(Some(octets))
}

/// This many octets of what is staged in the slot, from offset `at` on; `None` where there are none.
pub fn read_staged<S: Filestore>(
    alloc: Global,
    store: &S,
    slot: u8,
    at: u64,
    count: u64,
) -> Result<Option<Vec<u8>>, Memory> {
    if slot > 63 {
        return Ok(None);
    }
    let size = store.staged_size(slot);
    if count > size || at > size - count {
        return Ok(None);
    }
    let mut octets = vec![in alloc; 0; count as usize]?;
    store.read_staged(slot, at, octets.as_mut_slice());
    Ok(Some(octets))
}

/// How many octets are staged in the slot.
pub fn staged_size<S: Filestore>(store: &S, slot: u8) -> u64
    ensures within { result ≤ 7864320 }
{
    if slot > 63 {
        0
    } else {
        store.staged_size(slot)
    }
}

/// The names of the longest path at or below the path, if anything is there.
pub fn deepest<S: Filestore>(store: &S, path: &Path) -> Option<u8> {
    match store.kind(path) {
        Some(_) => Some(store.deepest(path)),
        None => None,
    }
}

/// The checksum of the file at the path, if a file is there.
pub fn checksum<S: Filestore>(store: &S, path: &Path) -> Option<u32> {
    match store.kind(path) {
        Some(Kind::File) => Some(store.checksum(path)),
        Some(Kind::Directory) | None => None,
    }
}

/// How many octets the file at the path has, if a file is there.
pub fn size<S: Filestore>(store: &S, path: &Path) -> Option<u64> {
    match store.kind(path) {
        Some(Kind::File) => Some(store.size(path)),
        Some(Kind::Directory) | None => None,
    }
}
