//! What lines `put` make of the filestore with which a script begins.

ghost use Rattle.std.specs.Prelude.{◌≡◌, ◌≢◌, [], ◌∷◌, map, length, None, Ok, IfOk, OnOk};
ghost use Rattle.std.specs.List.{list_any};
ghost use Rattle.cfdp_actions.specs.Filestore.{Directory, File, is_file, node_at};
ghost use Rattle.cfdp_paths.specs.Paths.{IsPath};
ghost use Rattle.cfdp_transactions.specs.Restart.{CanPutAll, put_all};
ghost use Rattle.cfdp_run.specs.Putting.{as_directory, missing, path_wrong, room_wrong, with_put};

use crate::wrong::Wrong;
use cfdp_actions::{Filestore, Kind, PAYLOAD_OCTETS};
use cfdp_entity::Entity;
use cfdp_paths::Path;
use std::alloc::{AllocError, Global};

/// Whether one of some paths is a file.
fn has_file(entity: &Entity, paths: &[Path]) -> bool
    ensures { result ≡ list_any (λ q. is_file (node_at entity.now.filestore q)) paths.now }
{
    let store = entity.core().store();
    for path in paths {
        if store.kind(path) == Some(Kind::File) {
            return true;
        }
    }
    false
}

/// Why nothing can be put at a path, whatever it is.
pub(crate) fn path_fault(
    alloc: Global,
    entity: &Entity,
    path: &Path,
) -> Result<Option<Wrong>, AllocError>
    ensures { IfOk result (λ wrong. wrong ≡ path_wrong entity.now.filestore path.now) }
{
    if entity.core().store().kind(path).is_some() {
        return Ok(Some(Wrong::Taken));
    }
    if has_file(entity, &path.ancestors(alloc)?) {
        return Ok(Some(Wrong::ParentIsFile));
    }
    Ok(None)
}

/// The parents of a path at which nothing exists, shortest first.
fn missing(alloc: Global, entity: &Entity, path: &Path) -> Result<Vec<Path>, AllocError>
    ensures paths { IfOk result (λ paths. paths.items ≡ missing entity.now.filestore path.now) }
    ensures within { OnOk result (IsPath path.now) }
{
    let store = entity.core().store();
    let parents = path.ancestors(alloc)?;
    let mut paths = Vec::with_capacity(alloc, path.depth() - 1)?;
    for parent in &parents {
        if store.kind(parent).is_none() {
            paths.push(parent.copy(alloc)?)?;
        }
    }
    Ok(paths)
}

/// Makes directories at some paths, one after the other.
fn make_directories(entity: &mut Entity, paths: &[Path])
    requires { CanPutAll entity.old (map as_directory paths.now) }
    ensures { entity.new ≡ put_all entity.old (map as_directory paths.now) }
{
    for path in paths {
        let Ok(()) = entity.put_directory(path) else {
            unreachable!()
        };
    }
}

/// Puts a directory at a path, and directories at the parents that are missing. Returns why there is no room for them.
///
/// # Errors
///
/// [`AllocError`] when out of memory. The entity is as before.
pub(crate) fn put_directory(
    alloc: Global,
    entity: &mut Entity,
    path: &Path,
) -> Result<Option<Wrong>, AllocError>
    requires idle { entity.old.table ≡ [] }
    requires vacant { path_wrong entity.old.filestore path.now ≡ None }
    ensures room { IfOk result (λ wrong. wrong ≡ room_wrong entity.old path.now Directory) }
    ensures put { result ≡ Ok None → entity.new ≡ with_put entity.old path.now Directory }
    ensures same { result ≢ Ok None → entity.new ≡ entity.old }
{
    let parents = missing(alloc, entity, path)?;
    if u64::from(entity.core().store().free()) < parents.len() as u64 + 1 {
        return Ok(Some(Wrong::NoRoom));
    }
    make_directories(entity, &parents);
    let Ok(()) = entity.put_directory(path) else {
        unreachable!()
    };
    Ok(None)
}

/// Puts a file with these octets at a path, as [`put_directory`] puts a directory.
///
/// # Errors
///
/// [`AllocError`] when out of memory. The entity is as before.
pub(crate) fn put_file(
    alloc: Global,
    entity: &mut Entity,
    path: &Path,
    octets: &[u8],
) -> Result<Option<Wrong>, AllocError>
    requires idle { entity.old.table ≡ [] }
    requires vacant { path_wrong entity.old.filestore path.now ≡ None }
    ensures room { IfOk result (λ wrong. wrong ≡ room_wrong entity.old path.now (File octets.now)) }
    ensures put { result ≡ Ok None → entity.new ≡ with_put entity.old path.now (File octets.now) }
    ensures same { result ≢ Ok None → entity.new ≡ entity.old }
{
    let parents = missing(alloc, entity, path)?;
    let blocks = 1 + (octets.len() as u64).div_ceil(PAYLOAD_OCTETS);
    if u64::from(entity.core().store().free()) < parents.len() as u64 + blocks {
        return Ok(Some(Wrong::NoRoom));
    }
    make_directories(entity, &parents);
    let Ok(()) = entity.put_file(path, octets) else {
        unreachable!()
    };
    Ok(None)
}
