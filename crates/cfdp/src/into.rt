//! A filestore that is written out, into a folder that is made for it.

use crate::elapsed::{Elapsed, ProgressReport};
use crate::end::End;
use crate::input::PIECE;
use crate::path_text::push_path;
use cfdp_actions::{Entry, Filestore, Kind};
use cfdp_entity::Entity;
use cfdp_paths::Path;
use std::alloc::{AllocError, Global};
use std::fs;
use std::io::{ErrorKind, Write};
use std::rt::{Clock, Files};
use std::time::Instant;

/// Where a path is in a folder, as listings print it. No name of it is empty, `.` or `..`, so no path leads out of the
/// folder.
pub fn path_in(alloc: Global, folder: &str, path: &Path) -> Result<String, AllocError> {
    let mut location = String::from_str(alloc, folder)?;
    location.push('/')?;
    push_path(alloc, &path.text(alloc)?, &mut location)?;
    Ok(location)
}

/// Writes the octets of a file.
fn write_file<W: Write + Drop>(
    alloc: Global,
    entity: &Entity,
    entry: &Entry,
    file: W,
    path: &str,
) -> Result<(), End> {
    let mut out = file;
    let mut room = vec![in alloc; 0_u8; PIECE]?;
    let mut offset = 0u64;
    for _ in 0..=entry.size {
        let store = entity.core().store();
        let count = match store.read_at(entry.path.names(), offset, &mut room) {
            Some(count) if count > 0 => count,
            _ => break,
        };
        let Ok(()) = out.write_all(room.get(..count).unwrap_or(&[])) else {
            return Err(End::unwritten(alloc, path));
        };
        offset = offset.saturating_add(count as u64);
    }
    Ok(())
}

/// Makes a directory at a path that nothing is at.
pub fn make_directory<R: AllocGlobal + Files>(rt: &R, path: &str) -> Result<(), End> {
    match fs::create_dir(rt, path) {
        Ok(()) => Ok(()),
        Err(_) => Err(End::unwritten(rt.alloc(), path)),
    }
}

/// Writes an entry of the filestore into the folder.
fn write_entry<R: AllocGlobal + Files>(
    rt: &R,
    folder: &str,
    entity: &Entity,
    entry: &Entry,
) -> Result<(), End> {
    let alloc = rt.alloc();
    let path = path_in(alloc, folder, &entry.path)?;
    match entry.kind {
        Kind::Directory => make_directory(rt, path.as_str()),
        Kind::File => match fs::File::create_new(rt, path.as_str()) {
            Ok(file) => write_file(alloc, entity, entry, file, path.as_str()),
            Err(_) => Err(End::unwritten(alloc, path.as_str())),
        },
    }
}

/// Makes the folder.
pub fn make<R: AllocGlobal + Files>(rt: &R, folder: &str) -> Result<(), End> {
    let alloc = rt.alloc();
    match fs::create_dir(rt, folder) {
        Ok(()) => Ok(()),
        Err(error) if error.kind() == ErrorKind::AlreadyExists => {
            let said = format!(in alloc;
                "{folder}: exists already: expected the name of a folder that can be made"
            )?;
            Err(End::Failed(said.into_bytes()))
        }
        Err(_) => Err(End::unwritten(alloc, folder)),
    }
}

/// Removes the folder, to which nothing was written.
pub fn unmake<R: Files>(rt: &R, folder: &str) {
    // Where that fails, an empty folder is left.
    let _ = fs::remove_dir(rt, folder);
}

/// Writes all that the filestore of an entity has into the folder. Where that takes long, it says on standard error how
/// far it is.
pub fn write<R: AllocGlobal + Clock + Eprint + Files>(
    rt: &R,
    folder: &str,
    entity: &Entity,
) -> Result<(), End> {
    let entries = entity.core().store().listing(rt.alloc())?;
    let count = entries.len();
    let mut time_taken = Elapsed::new();
    for (index, entry) in entries.iter().enumerate() {
        let begun = Instant::now(rt);
        write_entry(rt, folder, entity, entry)?;
        let progress = ProgressReport {
            done: index.saturating_add(1),
            count,
            what: "written",
        };
        time_taken.tell(rt, begun, folder, progress);
    }
    Ok(())
}
