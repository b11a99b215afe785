//! A folder that holds what a filestore holds, time after time.

use crate::end::End;
use crate::into::{make_directory, path_in};
use cfdp_actions::{Entry, Filestore, Kind};
use cfdp_entity::Entity;
use cfdp_paths::Path;
use std::alloc::{AllocError, Global};
use std::fs;
use std::io::{ErrorKind, Write};
use std::rt::Files;

/// The name of a file that is not whole yet. No name of a filestore is printed so, since no two digits follow the `%`.
const UNFINISHED: &str = "%new";

/// What a filestore has at a path: a directory, or a file with octets.
#[derive(Drop)]
struct Kept {
    path: Path,
    kind: Kind,
    octets: Vec<u8>,
}

/// What one filestore has at a path where another one has something.
#[derive(Clone, Copy, PartialEq, Eq)]
enum Difference {
    /// Nothing.
    Missing,
    /// Something of another kind.
    Turned,
    /// A file with other octets.
    Changed,
    /// What the other one has.
    Same,
}

/// A part of the folder.
#[derive(Clone, Copy, PartialEq, Eq)]
enum FolderPart {
    /// At and below the paths at which something of another kind was before.
    Turned,
    /// Everywhere else.
    Free,
}

/// The first difference of two filestores: an index in the one, and in the other the index of the same path or of the
/// next one.
#[derive(Clone, Copy)]
struct Differs {
    index: usize,
    other: usize,
}

impl Kept {
    /// What another filestore has at this path.
    fn difference(&self, other: Option<&Kept>) -> Difference {
        match other {
            None => Difference::Missing,
            Some(other) => {
                if other.kind != self.kind {
                    Difference::Turned
                } else if other.octets != self.octets {
                    Difference::Changed
                } else {
                    Difference::Same
                }
            }
        }
    }
}

/// The octets of a file of a filestore; none of a directory.
fn octets_of(alloc: Global, entity: &Entity, entry: &Entry) -> Result<Vec<u8>, AllocError> {
    let size = usize::try_from(entry.size).unwrap_or(0);
    let mut octets = vec![in alloc; 0_u8; size]?;
    let store = entity.core().store();
    let count = store
        .read_at(entry.path.names(), 0, &mut octets)
        .unwrap_or(0);
    octets.truncate(count);
    Ok(octets)
}

/// All that a filestore has, in the order of paths.
fn all_of(alloc: Global, entity: &Entity) -> Result<Vec<Kept>, AllocError> {
    let listing = entity.core().store().listing(alloc)?;
    let mut all = Vec::new(alloc);
    for entry in &listing {
        all.push(Kept {
            path: entry.path.copy(alloc)?,
            kind: entry.kind,
            octets: octets_of(alloc, entity, entry)?,
        })?;
    }
    Ok(all)
}

/// The index of the first of these, from an index on, whose path is not before another one.
fn first_from(these: &[Kept], from: usize, path: &Path) -> usize {
    let mut index = from;
    for kept in these.get(from..).unwrap_or(&[]) {
        if kept.path >= *path {
            break;
        }
        index = index.saturating_add(1);
    }
    index
}

/// What is at an index, if it has this path.
fn at_path<'a>(others: &'a [Kept], index: usize, path: &Path) -> Option<&'a Kept> {
    let other = others.get(index)?;
    if other.path == *path {
        Some(other)
    } else {
        None
    }
}

/// Where others have one of these differences from these at their paths.
fn different(
    alloc: Global,
    these: &[Kept],
    others: &[Kept],
    wanted: &[Difference],
) -> Result<Vec<Differs>, AllocError> {
    let mut found = Vec::new(alloc);
    let mut other = 0;
    for (index, kept) in these.iter().enumerate() {
        other = first_from(others, other, &kept.path);
        let difference = kept.difference(at_path(others, other, &kept.path));
        if wanted.contains(&difference) {
            found.push(Differs { index, other })?;
        }
    }
    Ok(found)
}

/// The paths at which these have something of another kind than others.
fn turned_paths(alloc: Global, these: &[Kept], others: &[Kept]) -> Result<Vec<Path>, AllocError> {
    let mut found = Vec::new(alloc);
    for differs in &different(alloc, these, others, &[Difference::Turned])? {
        if let Some(kept) = these.get(differs.index) {
            found.push(kept.path.copy(alloc)?)?;
        }
    }
    Ok(found)
}

/// Where a path is: at or below one of the turned paths, or elsewhere.
fn folder_part_of(path: &Path, turned: &[Path]) -> FolderPart {
    for other in turned {
        if path.is_at_or_below(other) {
            return FolderPart::Turned;
        }
    }
    FolderPart::Free
}

/// Refuses a link at a location, where a directory was.
fn refuse_link<R: AllocGlobal + Files>(rt: &R, location: &str) -> Result<(), End> {
    match fs::symlink_metadata(rt, location) {
        Ok(metadata) if metadata.is_symlink() => {
            Err(End::file(rt.alloc(), location, "a link, and links are not followed"))
        }
        // Anything else that is wrong there is found when something in it changes.
        _ => Ok(()),
    }
}

/// Refuses a link above a path in the folder. The folder itself may be one.
fn check_above<R: AllocGlobal + Files>(rt: &R, folder: &str, path: &Path) -> Result<(), End> {
    let alloc = rt.alloc();
    for above in &path.ancestors(alloc)? {
        let location = path_in(alloc, folder, above)?;
        refuse_link(rt, location.as_str())?;
    }
    Ok(())
}

/// Removes a file or an empty directory of the folder. It may be gone already.
fn remove<R: AllocGlobal + Files>(rt: &R, folder: &str, kept: &Kept) -> Result<(), End> {
    check_above(rt, folder, &kept.path)?;
    let location = path_in(rt.alloc(), folder, &kept.path)?;
    let answer = match kept.kind {
        Kind::File => fs::remove_file(rt, location.as_str()),
        Kind::Directory => fs::remove_dir(rt, location.as_str()),
    };
    match answer {
        Ok(()) => Ok(()),
        Err(error) if error.kind() == ErrorKind::NotFound => Ok(()),
        Err(_) => Err(End::unwritten(rt.alloc(), location.as_str())),
    }
}

/// Writes a new file with a name of this computer.
fn write_new<R: AllocGlobal + Files>(rt: &R, location: &str, octets: &[u8]) -> Result<(), End> {
    let Ok(mut file) = fs::File::create_new(rt, location) else {
        return Err(End::unwritten(rt.alloc(), location));
    };
    match file.write_all(octets) {
        Ok(()) => Ok(()),
        Err(_) => Err(End::unwritten(rt.alloc(), location)),
    }
}

/// Writes a file of the folder, instead of one that may be there: under another name first, so that nobody sees a part
/// of it.
fn replace<R: AllocGlobal + Files>(
    rt: &R,
    folder: &str,
    location: &str,
    octets: &[u8],
) -> Result<(), End> {
    let alloc = rt.alloc();
    let unfinished = format!(in alloc; "{folder}/{UNFINISHED}")?;
    write_new(rt, unfinished.as_str(), octets)?;
    match fs::rename(rt, unfinished.as_str(), location) {
        Ok(()) => Ok(()),
        Err(_) => Err(End::unwritten(alloc, location)),
    }
}

/// Puts a file or a directory into the folder.
fn put<R: AllocGlobal + Files>(rt: &R, folder: &str, kept: &Kept) -> Result<(), End> {
    check_above(rt, folder, &kept.path)?;
    let location = path_in(rt.alloc(), folder, &kept.path)?;
    match kept.kind {
        Kind::Directory => make_directory(rt, location.as_str()),
        Kind::File => replace(rt, folder, location.as_str(), &kept.octets),
    }
}

/// A folder that holds what a filestore held when it was looked at last.
#[derive(Drop)]
pub struct Mirror<'a> {
    folder: &'a str,
    all: Vec<Kept>,
}

impl<'a> Mirror<'a> {
    /// Of a folder that has what the filestore of an entity has.
    pub fn new(alloc: Global, folder: &'a str, entity: &Entity) -> Result<Mirror<'a>, End> {
        Ok(Mirror {
            folder,
            all: all_of(alloc, entity)?,
        })
    }

    /// Removes what the filestore has no more, or has as something else, in a region: each after what is in it.
    fn remove_old<R: AllocGlobal + Files>(
        &self,
        rt: &R,
        now: &[Kept],
        turned: &[Path],
        folder_part: FolderPart,
    ) -> Result<(), End> {
        let gone = [Difference::Missing, Difference::Turned];
        let old = different(rt.alloc(), &self.all, now, &gone)?;
        for differs in old.iter().rev() {
            if let Some(kept) = self.all.get(differs.index) {
                if folder_part_of(&kept.path, turned) == folder_part {
                    remove(rt, self.folder, kept)?;
                }
            }
        }
        Ok(())
    }

    /// Makes and writes what is new in a region: each after the directory that it is in.
    fn put_new<R: AllocGlobal + Files>(
        &self,
        rt: &R,
        now: &[Kept],
        turned: &[Path],
        folder_part: FolderPart,
    ) -> Result<(), End> {
        let new = [Difference::Missing, Difference::Turned];
        for differs in &different(rt.alloc(), now, &self.all, &new)? {
            if let Some(kept) = now.get(differs.index) {
                if folder_part_of(&kept.path, turned) == folder_part {
                    put(rt, self.folder, kept)?;
                }
            }
        }
        Ok(())
    }

    /// Whether a changed file that is not among those that are done is to have the octets that this one had.
    fn is_needed(&self, now: &[Kept], changed: &[Differs], done: &[usize], file: Differs) -> bool {
        let Some(old) = self.all.get(file.other) else {
            return false;
        };
        for next in changed {
            if next.index == file.index || done.contains(&next.index) {
                continue;
            }
            if now
                .get(next.index)
                .is_some_and(|kept| kept.octets == old.octets)
            {
                return true;
            }
        }
        false
    }

    /// Which changed file is replaced after those that are done: the first whose old octets no other one is to have, or
    /// else the first.
    fn next_changed(&self, now: &[Kept], changed: &[Differs], done: &[usize]) -> Option<usize> {
        let mut first = None;
        for file in changed {
            if done.contains(&file.index) {
                continue;
            }
            if !self.is_needed(now, changed, done, *file) {
                return Some(file.index);
            }
            first = first.or(Some(file.index));
        }
        first
    }

    /// Replaces the files that have other octets now: each after the files that are to have its old octets, but for
    /// files that take each other's.
    fn replace_changed<R: AllocGlobal + Files>(&self, rt: &R, now: &[Kept]) -> Result<(), End> {
        let alloc = rt.alloc();
        let changed = different(alloc, now, &self.all, &[Difference::Changed])?;
        let mut done = Vec::new(alloc);
        for _ in &changed {
            if let Some(index) = self.next_changed(now, &changed, &done) {
                if let Some(kept) = now.get(index) {
                    put(rt, self.folder, kept)?;
                }
                done.push(index)?;
            }
        }
        Ok(())
    }

    /// The folder changes to what the filestore has now. What is new is written before a file is replaced, and before
    /// what is gone is removed. So a file that was renamed is always there, with two exceptions: what is in the way is
    /// removed first, and of files that take each other's names one is replaced before the other.
    fn change<R: AllocGlobal + Files>(&self, rt: &R, now: &[Kept]) -> Result<(), End> {
        let turned = turned_paths(rt.alloc(), now, &self.all)?;
        self.put_new(rt, now, &turned, FolderPart::Free)?;
        self.replace_changed(rt, now)?;
        if !turned.is_empty() {
            self.remove_old(rt, now, &turned, FolderPart::Turned)?;
            self.put_new(rt, now, &turned, FolderPart::Turned)?;
        }
        self.remove_old(rt, now, &turned, FolderPart::Free)
    }

    /// The filestore may have changed: the folder changes as it did. What is the same is not written.
    pub fn update<R: AllocGlobal + Files>(&mut self, rt: &R, entity: &Entity) -> Result<(), End> {
        let now = all_of(rt.alloc(), entity)?;
        self.change(rt, &now)?;
        self.all = now;
        Ok(())
    }
}

/// Makes the folder if there is none, and removes what a run that was cut off may have left in it.
pub fn open<R: AllocGlobal + Files>(rt: &R, folder: &str) -> Result<(), End> {
    let alloc = rt.alloc();
    match fs::create_dir(rt, folder) {
        Ok(()) => return Ok(()),
        Err(error) if error.kind() == ErrorKind::AlreadyExists => {}
        Err(_) => return Err(End::unwritten(alloc, folder)),
    }
    let unfinished = format!(in alloc; "{folder}/{UNFINISHED}")?;
    // Where it is there and stays, it is refused by its name when the folder is read.
    let _ = fs::remove_file(rt, unfinished.as_str());
    Ok(())
}
