//! A folder of this computer, put into a filestore.

use crate::end::End;
use crate::input;
use crate::path_text::push_path;
use cfdp_actions::{Filestore, PAYLOAD_OCTETS};
use cfdp_entity::Entity;
use cfdp_paths::{Path, PathFault};
use cfdp_plans::read_path;
use cfdp_transactions::NotPut;
use std::alloc::{AllocError, Global};
use std::fs;
use std::io::{Error, ErrorKind};
use std::rt::Files;

/// The most directories that a filestore has, and the folder itself.
const MOST_DIRECTORIES: usize = 65_537;

/// Which names of a folder are read. A name as listings print it is read as the name that it was printed for.
#[derive(Clone, Copy)]
pub enum FolderNames {
    /// All: another name is its own octets.
    Any,
    /// Only those that listings print, so that each name of a filestore is spelled in one way.
    Printed,
}

/// Something in a folder: where it is on this computer, and the octets of its path in the filestore, which are none for
/// the folder itself.
#[derive(Drop)]
struct FolderEntry {
    host_path: String,
    path: Vec<u8>,
}

/// How the program ends for something wrong in a folder.
fn wrong(alloc: Global, host_path: &str, what: &str) -> End {
    format!(in alloc; "{host_path}: {what}").map_or(End::Memory, End::File)
}

/// How the program ends where something in a folder cannot be read.
fn unread(alloc: Global, host_path: &str, error: &Error) -> End {
    match error.kind() {
        ErrorKind::OutOfMemory => End::Memory,
        ErrorKind::InvalidFilename => wrong(alloc, host_path, "a name in it is no UTF-8"),
        _ => wrong(alloc, host_path, "cannot be read"),
    }
}

/// The names of what a directory has, in the order of their octets.
fn names_in<R: AllocGlobal + Clone + Drop + Files>(
    rt: &R,
    host_path: &str,
) -> Result<Vec<String>, End> {
    let alloc = rt.alloc();
    let mut names = Vec::new(alloc);
    let entries = match fs::read_dir(rt, host_path) {
        Ok(entries) => entries,
        Err(error) => return Err(unread(alloc, host_path, &error)),
    };
    for entry in entries {
        match entry {
            Ok(entry) => names.push(String::from_str(alloc, entry.file_name())?)?,
            Err(error) => return Err(unread(alloc, host_path, &error)),
        }
    }
    names.sort()?;
    Ok(names)
}

/// The text that listings print of the octets of a name or of a path.
fn printed(alloc: Global, octets: &[u8]) -> Result<String, AllocError> {
    let mut text = String::new(alloc);
    push_path(alloc, octets, &mut text)?;
    Ok(text)
}

/// The octets that listings print as this name; `None` if there are none.
fn unprinted(alloc: Global, name: &str) -> Result<Option<Vec<u8>>, AllocError> {
    let Some(octets) = read_path(alloc, name.as_bytes())? else {
        return Ok(None);
    };
    if printed(alloc, &octets)?.as_str() == name {
        Ok(Some(octets))
    } else {
        Ok(None)
    }
}

/// How the program ends where the name of something in a folder is not spelled as listings print it.
fn misspelled(alloc: Global, host_path: &str, name: &str) -> Result<End, AllocError> {
    let expected = printed(alloc, name.as_bytes())?;
    let what = format!(in alloc;
        "its name is not spelled as listings print it: expected {expected}"
    )?;
    Ok(wrong(alloc, host_path, what.as_str()))
}

/// The octets of the name of something in a folder. One without any octet that listings escape is spelled as they print
/// it, also where it is no name of a filestore.
fn octets_of(
    alloc: Global,
    names: FolderNames,
    host_path: &str,
    name: &str,
) -> Result<Vec<u8>, End> {
    if printed(alloc, name.as_bytes())?.as_str() == name {
        return Ok(Vec::from_slice(alloc, name.as_bytes())?);
    }
    if let Some(octets) = unprinted(alloc, name)? {
        return Ok(octets);
    }
    match names {
        FolderNames::Any => Ok(Vec::from_slice(alloc, name.as_bytes())?),
        FolderNames::Printed => Err(misspelled(alloc, host_path, name)?),
    }
}

/// What a directory has by a name.
fn beside(
    alloc: Global,
    names: FolderNames,
    directory: &FolderEntry,
    name: &str,
) -> Result<FolderEntry, End> {
    let above = directory.host_path.as_str();
    let host_path = format!(in alloc; "{above}/{name}")?;
    let mut path = Vec::from_slice(alloc, &directory.path)?;
    if !path.is_empty() {
        path.push(b'/')?;
    }
    path.extend_from_slice(&octets_of(alloc, names, host_path.as_str(), name)?)?;
    Ok(FolderEntry { host_path, path })
}

/// The path of the filestore of something in a folder.
fn path_of(alloc: Global, found: &FolderEntry) -> Result<Path, End> {
    match Path::parse(alloc, &found.path) {
        Ok(path) => Ok(path),
        Err(PathFault::Memory) => Err(End::Memory),
        Err(fault) => {
            let what = format!(in alloc; "no path of the filestore: {fault}")?;
            Err(wrong(alloc, found.host_path.as_str(), what.as_str()))
        }
    }
}

/// How the program ends where something that needs `blocks` blocks was not put.
fn was_put(
    alloc: Global,
    found: &FolderEntry,
    blocks: u64,
    free: u32,
    answer: Result<(), NotPut>,
) -> Result<(), End> {
    match answer {
        Ok(()) => Ok(()),
        Err(NotPut::NoRoom) => {
            let what = format!(in alloc;
                "no room in the filestore: needs {blocks} blocks, and {free} are free"
            )?;
            Err(wrong(alloc, found.host_path.as_str(), what.as_str()))
        }
        Err(_) => Err(wrong(
            alloc,
            found.host_path.as_str(),
            "cannot be put into the filestore",
        )),
    }
}

/// Puts a file into a filestore. It is not read where there is no room for it.
fn put_file<R: AllocGlobal + Files + Input>(
    rt: &R,
    found: &FolderEntry,
    len: u64,
    entity: &mut Entity,
) -> Result<(), End> {
    let alloc = rt.alloc();
    let path = path_of(alloc, found)?;
    let free = entity.core().store().free();
    let blocks = len.div_ceil(PAYLOAD_OCTETS).saturating_add(1);
    if u64::from(free) < blocks {
        return was_put(alloc, found, blocks, free, Err(NotPut::NoRoom));
    }
    let octets = match input::read(rt, Some(found.host_path.as_str())) {
        Err(End::Read) => return Err(wrong(alloc, found.host_path.as_str(), "cannot be read")),
        read => read?,
    };
    was_put(alloc, found, blocks, free, entity.put_file(&path, &octets))
}

/// Puts what a directory has into a filestore, and returns the directories in it.
fn put_all<R: AllocGlobal + Clone + Drop + Files + Input>(
    rt: &R,
    directory: &FolderEntry,
    names: FolderNames,
    entity: &mut Entity,
) -> Result<Vec<FolderEntry>, End> {
    let alloc = rt.alloc();
    let mut directories = Vec::new(alloc);
    for name in &names_in(rt, directory.host_path.as_str())? {
        let found = beside(alloc, names, directory, name.as_str())?;
        let metadata = match fs::symlink_metadata(rt, found.host_path.as_str()) {
            Ok(metadata) => metadata,
            Err(error) => return Err(unread(alloc, found.host_path.as_str(), &error)),
        };
        if metadata.is_symlink() {
            return Err(wrong(
                alloc,
                found.host_path.as_str(),
                "a link, and links are not followed",
            ));
        } else if metadata.is_file() {
            put_file(rt, &found, metadata.len(), entity)?;
        } else if metadata.is_dir() {
            let path = path_of(alloc, &found)?;
            let free = entity.core().store().free();
            was_put(alloc, &found, 1, free, entity.put_directory(&path))?;
            directories.push(found)?;
        } else {
            return Err(wrong(
                alloc,
                found.host_path.as_str(),
                "neither a file nor a directory",
            ));
        }
    }
    Ok(directories)
}

/// Puts what a folder has into the filestore of an entity: files and directories, at the paths that they have in it.
/// What it has of another kind is refused by its name.
pub fn put<R: AllocGlobal + Clone + Drop + Files + Input>(
    rt: &R,
    folder: &str,
    names: FolderNames,
    entity: &mut Entity,
) -> Result<(), End> {
    let alloc = rt.alloc();
    let mut open = Vec::new(alloc);
    open.push(FolderEntry {
        host_path: String::from_str(alloc, folder)?,
        path: Vec::new(alloc),
    })?;
    for _ in 0..MOST_DIRECTORIES {
        let Some(directory) = open.pop() else {
            break;
        };
        for found in put_all(rt, &directory, names, entity)? {
            open.push(found)?;
        }
    }
    Ok(())
}
