//! The leases as a plain list of grants, each of which is compared path by path with every footprint that is asked for;
//! and lists made at random, on which both give the same answers.

use super::super::scene::{hold, path_of};
use super::id;
use cfdp_actions::Request;
use cfdp_leases::{Footprint, Leases, footprint};
use cfdp_paths::{Memory, Path};
use cfdp_status::{Action, TransactionId};
use std::alloc::Global;
use std::process::Abort;

/// The footprints of the live transactions in order of admission.
#[derive(Drop)]
struct Plain {
    grants: Vec<(TransactionId, Footprint)>,
}

impl Plain {
    fn new(alloc: Global) -> Plain {
        Plain {
            grants: Vec::new(alloc),
        }
    }

    fn conflict(&self, footprint: &Footprint) -> Option<TransactionId> {
        self.grants
            .iter()
            .find(|grant| conflicts(&grant.1, footprint))
            .map(|grant| grant.0)
    }

    fn grant(&mut self, transaction: TransactionId, footprint: Footprint) -> Result<(), Memory> {
        self.grants.push((transaction, footprint))?;
        Ok(())
    }

    fn release(&mut self, transaction: TransactionId) {
        self.grants.retain(|grant| grant.0 != transaction);
    }
}

/// Whether an exclusive path of one has a leased path of the other at or below it.
fn conflicts(one: &Footprint, other: &Footprint) -> bool {
    reaches(one, other) || reaches(other, one)
}

/// Whether an exclusive path of the first has a leased path of the second at or below it.
fn reaches(one: &Footprint, other: &Footprint) -> bool {
    one.exclusive().iter().any(|path| has_below(other.exclusive(), path)
        || has_below(other.shared(), path))
}

/// Whether one of the paths is at or below this one.
fn has_below(paths: &[Path], path: &Path) -> bool {
    paths.iter().any(|held| held.is_at_or_below(path))
}

/// Numbers that look random, the same at each run.
#[derive(Drop)]
struct Random {
    state: u64,
}

impl Random {
    /// The next number below `end`.
    fn below(&mut self, end: u64) -> u64 {
        self.state = self
            .state
            .wrapping_mul(6_364_136_223_846_793_005)
            .wrapping_add(1_442_695_040_888_963_407);
        (self.state >> 33).checked_rem(end).unwrap_or(0)
    }

    /// One of 512 files, eight in each of 64 directories.
    fn file(&mut self, alloc: Global) -> Result<Path, Memory> {
        let (top, middle, last) = (self.below(8), self.below(8), self.below(8));
        let name = format!(in alloc; "{top}/{middle}/{last}")?;
        path_of(alloc, name.as_bytes())
    }

    /// One of those directories.
    fn directory(&mut self, alloc: Global) -> Result<Path, Memory> {
        let (top, middle) = (self.below(8), self.below(8));
        let name = format!(in alloc; "{top}/{middle}")?;
        path_of(alloc, name.as_bytes())
    }

    /// What an action is done to.
    fn first(&mut self, alloc: Global, action: Action) -> Result<Path, Memory> {
        if action == Action::RemoveDirectory {
            self.directory(alloc)
        } else {
            self.file(alloc)
        }
    }

    /// The second file of an action that has one.
    fn second(&mut self, alloc: Global, action: Action) -> Result<Option<Path>, Memory> {
        if matches!(action, Action::RenameFile | Action::AppendFile) {
            Ok(Some(self.file(alloc)?))
        } else {
            Ok(None)
        }
    }

    /// A request on one or two of them.
    fn request(&mut self, alloc: Global) -> Result<Option<Request>, Memory> {
        let action = match self.below(16) {
            0 => Action::RemoveDirectory,
            1 => Action::RenameFile,
            2 | 3 => Action::AppendFile,
            _ => Action::CreateFile,
        };
        let first = self.first(alloc, action)?;
        let second = self.second(alloc, action)?;
        Ok(Request::new(action, first, second))
    }

    /// A list of one to three requests.
    fn list(&mut self, alloc: Global) -> Result<Vec<Request>, Memory> {
        let mut requests = Vec::new(alloc);
        for _ in 0..=self.below(3) {
            if let Some(request) = self.request(alloc)? {
                requests.push(request)?;
            }
        }
        Ok(requests)
    }
}

/// How many transactions are live at most.
const MOST: usize = 64;

/// The leases and the plain list side by side, and how often as many transactions were live as there can be, and how
/// often a list was refused.
#[derive(Drop)]
struct Beside {
    leases: Leases,
    plain: Plain,
    full: u32,
    refused: u32,
}

impl Beside {
    /// The first transaction in the way of what is wanted. Both give the same answer.
    fn conflict(&mut self, rt: &impl Abort, wanted: &Footprint) -> Option<TransactionId> {
        let first = self.leases.conflict(wanted);
        assert!(rt;
            first == self.plain.conflict(wanted),
            "beside {} grants",
            self.plain.grants.len()
        );
        if self.plain.grants.len() == MOST {
            self.full = self.full.saturating_add(1);
        }
        if first.is_some() {
            self.refused = self.refused.saturating_add(1);
        }
        first
    }

    /// Ends the transaction at an index of the plain list, if there is one.
    fn end(&mut self, index: usize) {
        if let Some((transaction, _)) = self.plain.grants.get(index) {
            let transaction = *transaction;
            self.leases.release(transaction);
            self.plain.release(transaction);
        }
    }

    /// Asks for what the requests use, and is granted it where nothing is in the way; else one transaction in four may
    /// end.
    fn ask(
        &mut self,
        rt: &impl Abort,
        alloc: Global,
        random: &mut Random,
        number: u64,
        requests: &[Request],
    ) -> Result<(), Memory> {
        let wanted = footprint(alloc, requests, None)?;
        let first = self.conflict(rt, &wanted);
        if first.is_none() && self.plain.grants.len() < MOST {
            hold(rt, &mut self.leases, id(number), wanted)?;
            return self
                .plain
                .grant(id(number), footprint(alloc, requests, None)?);
        }
        if random.below(4) == 0 {
            self.end(random.below(MOST as u64) as usize);
        }
        Ok(())
    }
}

/// Both give the same answers, also while as many transactions are live as there can be.
#[test]
fn lists_at_random_get_the_answers_of_the_plain_list(rt: HostRuntime) -> Result<(), Memory> {
    let mut random = Random { state: 1 };
    let mut beside = Beside {
        leases: Leases::new(rt.alloc()),
        plain: Plain::new(rt.alloc()),
        full: 0,
        refused: 0,
    };
    for number in 0..2000 {
        let requests = random.list(rt.alloc())?;
        beside.ask(&rt, rt.alloc(), &mut random, number, &requests)?;
    }
    assert!(rt;
        beside.full > 100 && beside.refused > 100,
        "full {} times, refused {} times",
        beside.full,
        beside.refused
    );
    Ok(())
}
