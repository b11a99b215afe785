//! Scripts made at random, on a `ListStore` and a `TreeStore` of as many blocks side by side: both give the same answer
//! to each operation and say the same of themselves after it, and the same octets are in both.

ghost use Rattle.std.specs.Prelude.{◌<◌, ◌≤◌};

use super::calls::{
    CallResult, StoreCall, checksum, deepest, parsed, read, read_staged, request, size,
    staged_size, unstage,
};
use cfdp_actions::{ExistingNode, Filestore, Kind, ListStore, Protected, Request, refusal};
use cfdp_paths::{Memory, Path};
use cfdp_status::Action;
use cfdp_tree::TreeStore;
use std::alloc::Global;
use std::process::Abort;

/// Numbers that look random, the same at each run: the high bits of a linear congruential generator.
#[derive(Drop)]
struct Random {
    state: u64,
}

impl Random {
    /// The next number below `end`.
    fn below(&mut self, end: u64) -> u64
        requires { 0 < end }
        ensures { result < end }
    {
        self.state = self
            .state
            .wrapping_mul(6_364_136_223_846_793_005)
            .wrapping_add(1_442_695_040_888_963_407);
        (self.state >> 33) % end
    }

    /// One of the names, three times in four one of the kind.
    fn name(&mut self, is_directory: bool) -> &'static [u8] {
        let is_other = self.below(4) == 0;
        let names = if is_directory != is_other {
            &DIRECTORIES
        } else {
            &FILES
        };
        names[self.below(18) as usize]
    }

    /// Two names for what is asked, rather two at which it is not refused.
    fn names<S: Filestore>(
        &mut self,
        alloc: Global,
        store: &S,
        task: Task,
    ) -> Result<NamePair, Memory> {
        let is_directory = task.is_of_directories();
        let mut names = (self.name(is_directory), self.name(is_directory));
        for _ in 0..self.below(16) {
            if !task.is_refused(alloc, store, names)? {
                break;
            }
            names = (self.name(is_directory), self.name(is_directory));
        }
        Ok(names)
    }

    /// This many octets, no two neighbours of which are the same.
    fn octets(&mut self, alloc: Global, count: u64) -> Result<Vec<u8>, Memory> {
        let mut octet = self.below(256) as u8;
        let mut octets = Vec::new(alloc);
        for _ in 0..count {
            octets.push(octet)?;
            octet = octet.wrapping_add(37);
        }
        Ok(octets)
    }
}

/// Names at which directories are made, in one another down to the seventh.
static DIRECTORIES: [&[u8]; 18] = [
    b"a",
    b"b",
    b"c",
    b"a/a",
    b"a/b",
    b"b/a",
    b"b/b",
    b"c/a",
    b"c/b",
    b"a/a/a",
    b"a/b/a",
    b"b/a/a",
    b"c/a/a",
    b"a/a/a/a",
    b"b/a/a/a",
    b"a/a/a/a/a",
    b"a/a/a/a/a/a",
    b"a/a/a/a/a/a/a",
];

/// Names at which files are made, down to the eighth.
static FILES: [&[u8]; 18] = [
    b"x",
    b"y",
    b"z",
    b"a/x",
    b"a/y",
    b"b/x",
    b"b/y",
    b"c/x",
    b"a/a/x",
    b"a/b/x",
    b"b/a/x",
    b"b/b/x",
    b"c/a/x",
    b"a/a/a/x",
    b"a/a/a/a/x",
    b"a/a/a/a/a/x",
    b"a/a/a/a/a/a/x",
    b"a/a/a/a/a/a/a/x",
];

/// The names that something is done to: the second one only where the action has two.
type NamePair = (&'static [u8], &'static [u8]);

/// The second name of the action; empty where it has none.
fn second_of(action: Action, names: NamePair) -> &'static [u8] {
    if action.has_second() { names.1 } else { b"" }
}

/// What is done to a store.
#[derive(Clone, Copy)]
enum Task {
    Perform(Action),
    Extend,
    Put,
    Unstage,
    Install,
}

impl Task {
    /// Whether it is done to directories.
    fn is_of_directories(self) -> bool {
        matches!(
            self,
            Task::Perform(Action::CreateDirectory | Action::RemoveDirectory | Action::DenyDirectory)
        )
    }

    /// Whether it is refused at the names; what is not an action, where no file exists.
    fn is_refused<S: Filestore>(
        self,
        alloc: Global,
        store: &S,
        names: NamePair,
    ) -> Result<bool, Memory> {
        match self {
            Task::Perform(action) => is_refused(alloc, store, action, names),
            _ => Ok(size(store, &parsed(alloc, names.0)?).is_none()),
        }
    }
}

/// Whether the action is refused at its names.
fn is_refused<S: Filestore>(
    alloc: Global,
    store: &S,
    action: Action,
    names: NamePair,
) -> Result<bool, Memory> {
    let request = request(alloc, action, names.0, second_of(action, names))?;
    Ok(refusal(store, &request).is_some())
}

/// What is done, as often as it is there.
type Work = [Task; 18];

/// What is done where the store is to become full: rather new directories, longer files and lists that are installed.
static GROWING: Work = [
    Task::Perform(Action::CreateFile),
    Task::Perform(Action::CreateFile),
    Task::Perform(Action::CreateDirectory),
    Task::Perform(Action::CreateDirectory),
    Task::Perform(Action::CreateDirectory),
    Task::Perform(Action::CreateDirectory),
    Task::Perform(Action::RenameFile),
    Task::Perform(Action::RenameFile),
    Task::Perform(Action::AppendFile),
    Task::Perform(Action::AppendFile),
    Task::Perform(Action::AppendFile),
    Task::Perform(Action::ReplaceFile),
    Task::Extend,
    Task::Extend,
    Task::Put,
    Task::Put,
    Task::Install,
    Task::Install,
];

/// What is done where it is to become empty: rather what gives blocks back.
static SHRINKING: Work = [
    Task::Perform(Action::DeleteFile),
    Task::Perform(Action::DeleteFile),
    Task::Perform(Action::DeleteFile),
    Task::Perform(Action::DenyFile),
    Task::Perform(Action::DenyFile),
    Task::Perform(Action::DenyFile),
    Task::Perform(Action::RemoveDirectory),
    Task::Perform(Action::RemoveDirectory),
    Task::Perform(Action::DenyDirectory),
    Task::Perform(Action::DenyDirectory),
    Task::Perform(Action::RenameFile),
    Task::Perform(Action::RenameFile),
    Task::Perform(Action::ReplaceFile),
    Task::Perform(Action::AppendFile),
    Task::Perform(Action::CreateFile),
    Task::Unstage,
    Task::Put,
    Task::Install,
];

/// How many slots are staged in: 0, 21, 42 and 63.
const SLOTS: u8 = 4;

/// How far into a file or a staged list an operation reaches.
#[derive(Clone, Copy)]
enum Reach {
    /// Into the first few blocks.
    Near,
    /// Into the first 150 blocks.
    Far,
}

impl Reach {
    /// The first offset at which no operation begins.
    fn end(self) -> u64
        ensures { 0 < result }
    {
        match self {
            Reach::Near => 301,
            Reach::Far => 18_001,
        }
    }
}

/// What is done, and all that it may be done with.
#[derive(Drop)]
struct Operation {
    task: Task,
    names: NamePair,
    slot: u8,
    at: u64,
    octets: Vec<u8>,
}

impl Random {
    /// The next operation; its list of octets is to have 119, 120, 121, or any number up to five blocks of them.
    fn operation<S: Filestore>(
        &mut self,
        alloc: Global,
        store: &S,
        work: &Work,
        reach: Reach,
    ) -> Result<Operation, Memory> {
        let count = match self.below(4) {
            0 => 119 + self.below(3),
            1 => self.below(10),
            _ => self.below(601),
        };
        let task = work[self.below(18) as usize];
        Ok(Operation {
            task,
            names: self.names(alloc, store, task)?,
            slot: self.below(u64::from(SLOTS)) as u8 * 21,
            at: self.below(reach.end()),
            octets: self.octets(alloc, count)?,
        })
    }
}

impl Operation {
    /// What is asked of each store.
    fn asked(&self) -> StoreCall<'_> {
        let (first, _) = self.names;
        let count = self.octets.len() as u64;
        match self.task {
            Task::Perform(action) => StoreCall::Perform(
                action,
                first,
                second_of(action, self.names),
            ),
            Task::Extend => StoreCall::Extend(self.slot, self.at.saturating_add(count)),
            Task::Put => StoreCall::Put(self.slot, self.at, &self.octets),
            Task::Unstage => StoreCall::Unstage(self.slot),
            Task::Install => StoreCall::Install(self.slot, first),
        }
    }
}

/// What a store says of itself and of a path.
#[derive(Drop, PartialEq)]
struct StoreAnswers {
    free: u32,
    kind: Option<Kind>,
    parent_is_good: bool,
    has_entries: bool,
    deepest: Option<u8>,
    checksum: Option<u32>,
}

fn tells<S: Filestore>(store: &S, path: &Path) -> StoreAnswers {
    StoreAnswers {
        free: store.free(),
        kind: store.kind(path),
        parent_is_good: store.parent_is_good(path),
        has_entries: store.has_entries(path),
        deepest: deepest(store, path),
        checksum: checksum(store, path),
    }
}

/// What a store says of the path of an operation, and the octets at its offset, in the file and in the slot; `None`
/// where it has no such offset.
type Said = (StoreAnswers, Option<Vec<u8>>, Option<Vec<u8>>);

fn says<S: Filestore>(
    alloc: Global,
    store: &S,
    path: &Path,
    operation: &Operation,
) -> Result<Said, Memory> {
    let count = operation.octets.len() as u64;
    let octets = read(alloc, store, path, operation.at, count)?;
    let staged = read_staged(alloc, store, operation.slot, operation.at, count)?;
    Ok((tells(store, path), octets, staged))
}

/// What is at a path and below it, with the octets of the file.
#[derive(Drop, PartialEq)]
struct AtPath {
    existing: Vec<ExistingNode>,
    octets: Option<Vec<u8>>,
}

fn at_path<S: Filestore>(alloc: Global, store: &S, path: &Path) -> Result<AtPath, Memory> {
    let count = size(store, path).unwrap_or(0);
    Ok(AtPath {
        existing: store.existing(alloc, path)?,
        octets: read(alloc, store, path, 0, count)?,
    })
}

/// What is at each path of the listing.
fn at_each_path<S: Filestore>(alloc: Global, store: &S) -> Result<Vec<AtPath>, Memory> {
    let mut all = Vec::new(alloc);
    for entry in store.listing(alloc)? {
        all.push(at_path(alloc, store, &entry.path)?)?;
    }
    Ok(all)
}

/// What is staged in the slot, and its checksum.
#[derive(Drop, PartialEq)]
struct Staged {
    octets: Option<Vec<u8>>,
    checksum: Option<u32>,
}

fn staged_in<S: Filestore>(alloc: Global, store: &S, slot: u8) -> Result<Staged, Memory> {
    Ok(Staged {
        octets: read_staged(alloc, store, slot, 0, staged_size(store, slot))?,
        checksum: staged_checksum(store, slot),
    })
}

/// A `Staged` for each slot that is used.
fn all_staged<S: Filestore>(alloc: Global, store: &S) -> Result<Vec<Staged>, Memory> {
    let mut all = Vec::new(alloc);
    for slot in 0..SLOTS {
        all.push(staged_in(alloc, store, slot.wrapping_mul(21))?)?;
    }
    Ok(all)
}

/// The blocks that are given back for a file or an empty directory; `None` where there is neither.
fn removed<S: Filestore>(store: &mut S, path: &Path) -> Result<Option<u32>, Memory> {
    if store.kind(path).is_none() || store.has_entries(path) {
        return Ok(None);
    }
    Ok(Some(store.remove(path)?))
}

/// Removes all that exists: the blocks that are given back for each path.
fn all_removed<S: Filestore>(alloc: Global, store: &mut S) -> Result<Vec<Option<u32>>, Memory> {
    let mut all = Vec::new(alloc);
    for entry in store.listing(alloc)?.iter().rev() {
        all.push(removed(store, &entry.path)?)?;
    }
    Ok(all)
}

/// The checksum of what is staged in the slot.
fn staged_checksum<S: Filestore>(store: &S, slot: u8) -> Option<u32> {
    if slot > 63 {
        return None;
    }
    Some(store.staged_checksum(slot))
}

/// Drops all that is staged: the answers.
fn all_unstaged<S: Filestore>(alloc: Global, store: &mut S) -> Result<Vec<CallResult>, Memory> {
    let mut all = Vec::new(alloc);
    for slot in 0..SLOTS {
        all.push(unstage(store, slot.wrapping_mul(21)))?;
    }
    Ok(all)
}

/// The two stores: one of lists, and one in a tree. What is done to them is written for any two stores, so that it is
/// proved without what is true of these two.
#[derive(Drop)]
struct Pair<L, T> {
    lists: L,
    tree: T,
}

impl<L: Filestore, T: Filestore> Pair<L, T> {
    /// Asks both: whether they answer the same, and say the same then.
    fn agrees_on(&mut self, alloc: Global, operation: &Operation) -> Result<bool, Memory> {
        let asked = operation.asked();
        let protected = Protected::new();
        let first = parsed(alloc, operation.names.0)?;
        let is_same = asked.answer(alloc, &mut self.lists, &protected)?
            == asked.answer(alloc, &mut self.tree, &protected)?;
        Ok(
            is_same
                && says(alloc, &self.lists, &first, operation)?
                    == says(alloc, &self.tree, &first, operation)?,
        )
    }

    /// Extends what is staged in a slot by all that is left.
    fn filling(&self, alloc: Global) -> Operation {
        let left = u64::from(self.lists.free()).wrapping_mul(120);
        Operation {
            task: Task::Extend,
            names: (b"a", b"a"),
            slot: 21,
            at: staged_size(&self.lists, 21).saturating_add(left),
            octets: Vec::new(alloc),
        }
    }

    /// Whether both are the same: what is staged, and what exists, octet for octet.
    fn is_same(&self, alloc: Global) -> Result<bool, Memory> {
        Ok(
            all_staged(alloc, &self.lists)? == all_staged(alloc, &self.tree)?
                && self.lists.listing(alloc)? == self.tree.listing(alloc)?
                && at_each_path(alloc, &self.lists)? == at_each_path(alloc, &self.tree)?,
        )
    }

    /// Gives back all blocks: whether both answer the same.
    fn empties(&mut self, alloc: Global) -> Result<bool, Memory> {
        Ok(
            all_unstaged(alloc, &mut self.lists)? == all_unstaged(alloc, &mut self.tree)?
                && all_removed(alloc, &mut self.lists)? == all_removed(alloc, &mut self.tree)?,
        )
    }
}

/// A script, and how far it has come.
#[derive(Drop)]
struct RandomRun<L, T> {
    random: Random,
    reach: Reach,
    pair: Pair<L, T>,
}

impl<L: Filestore, T: Filestore> RandomRun<L, T> {
    /// One operation: both stores give the same answer.
    fn go_on(&mut self, rt: &impl Abort, alloc: Global, work: &Work) -> Result<(), Memory> {
        let operation = self
            .random
            .operation(alloc, &self.pair.lists, work, self.reach)?;
        let agrees = self.pair.agrees_on(alloc, &operation)?;
        assert!(rt; agrees, "slot {}, offset {}", operation.slot, operation.at);
        Ok(())
    }

    /// This many operations: then both stores are the same.
    fn perform(
        &mut self,
        rt: &impl Abort,
        alloc: Global,
        work: &Work,
        count: u32,
    ) -> Result<(), Memory> {
        for _ in 0..count {
            self.go_on(rt, alloc, work)?;
        }
        let is_same = self.pair.is_same(alloc)?;
        assert!(rt; is_same, "after {count} operations");
        Ok(())
    }

    /// Both stores become full.
    fn fill(&mut self, rt: &impl Abort, alloc: Global) -> Result<(), Memory> {
        let agrees = self.pair.agrees_on(alloc, &self.pair.filling(alloc))?;
        assert!(rt;
            agrees && self.pair.tree.free() == 0,
            "{} blocks are free",
            self.pair.tree.free()
        );
        Ok(())
    }

    /// The stores grow, are full, go on as long as they are, and shrink.
    fn round(&mut self, rt: &impl Abort, alloc: Global) -> Result<(), Memory> {
        for _ in 0..10 {
            self.perform(rt, alloc, &GROWING, 25)?;
        }
        self.fill(rt, alloc)?;
        self.perform(rt, alloc, &GROWING, 25)?;
        for _ in 0..5 {
            self.perform(rt, alloc, &SHRINKING, 25)?;
        }
        Ok(())
    }
}

/// A script of some rounds on two empty stores of a number of blocks.
fn run(rt: &impl Abort, alloc: Global, blocks: u32, reach: Reach, rounds: u32) -> Result<(), Memory>
    requires some { 1 ≤ blocks }
    requires few { blocks ≤ 65536 }
{
    let mut script = RandomRun {
        random: Random {
            state: u64::from(blocks),
        },
        reach,
        pair: Pair {
            lists: ListStore::new(alloc, blocks)?,
            tree: TreeStore::new(alloc, blocks)?,
        },
    };
    for _ in 0..rounds {
        script.round(rt, alloc)?;
    }
    let is_same = script.pair.empties(alloc)?;
    assert!(rt;
        is_same && script.pair.tree.free() == blocks,
        "{} of {blocks} blocks are free",
        script.pair.tree.free()
    );
    Ok(())
}

#[test]
fn on_few_blocks(rt: HostRuntime) -> Result<(), Memory> {
    run(&rt, rt.alloc(), 24, Reach::Near, 5)
}

#[test]
fn on_more_blocks(rt: HostRuntime) -> Result<(), Memory> {
    run(&rt, rt.alloc(), 150, Reach::Near, 5)
}

#[test]
fn with_long_lists_on_400_blocks(rt: HostRuntime) -> Result<(), Memory> {
    run(&rt, rt.alloc(), 400, Reach::Far, 3)
}

#[test]
fn with_long_lists_on_4096_blocks(rt: HostRuntime) -> Result<(), Memory> {
    run(&rt, rt.alloc(), 4096, Reach::Far, 2)
}
