//! The rows of the action table that are not refused, on kinds and sizes alone, with unlimited room.

ghost use Rattle.std.specs.Prelude.{◌≡◌, false, IsTrue, OnOk, OnErr};
ghost use Rattle.std.specs.FinMap as finite;
ghost use Rattle.cfdp_status.specs.declared.status.Status.TheVariants.{Successful};
ghost use Rattle.cfdp_paths.specs.Paths.{Path};
ghost use Rattle.cfdp_paths.specs.PathMaps.{is_too_deep, tree_in};
ghost use Rattle.cfdp_actions.specs.Filestore.{Filestore};
ghost use Rattle.cfdp_actions.specs.Actions.{RenameFile, action_in, succeeded, table};
ghost use Rattle.cfdp_states.specs.Sketching.{makes_path};
ghost use Rattle.cfdp_states.specs.code.Sketching.{IsOutline, Does, resized, size_in};

use crate::extent::Extent;
use crate::extents::Extents;
use cfdp_actions::Request;
use cfdp_paths::{Memory, Path};

/// Changes the extents as the row of the request says. Only a request that makes a path takes memory; when out of it
/// they are as before.
pub fn change(extents: &mut Extents, request: &Request) -> Result<(), Memory>
    requires allowed { (F : Filestore) → IsOutline extents.old F → IsTrue (succeeded (table F request.now).answer) }
    requires shallow { (p q : Path) → request.now ≡ RenameFile p q
        → is_too_deep p q (tree_in p (finite.entries extents.old)) ≡ false }
    ensures done { OnOk result (Does extents.old extents.new request.now (Successful (action_in request.now))) }
    ensures err { OnErr result (extents.new ≡ extents.old) }
    ensures thrifty { OnErr result (IsTrue (makes_path request.now)) }
{
    match request {
        Request::CreateFile(path) => extents.put(path, Extent::File(0)),
        Request::CreateDirectory(path) => extents.put(path, Extent::Directory),
        Request::DeleteFile(path)
        | Request::RemoveDirectory(path)
        | Request::DenyFile(path)
        | Request::DenyDirectory(path) => {
            extents.remove(path);
            Ok(())
        }
        Request::RenameFile(from, to) => extents.relocate(from, to),
        Request::AppendFile(first, second) => {
            let more = size(extents, second);
            resize(extents, first, size(extents, first).saturating_add(more));
            Ok(())
        }
        Request::ReplaceFile(first, second) => {
            resize(extents, first, size(extents, second));
            Ok(())
        }
    }
}

/// The most octets that a file has: 0 where no file exists.
fn size(extents: &Extents, path: &Path) -> u64
    ensures { result ≡ size_in (finite.get extents.now path.now) }
{
    match extents.get(path) {
        Some(Extent::File(octets)) => octets,
        _ => 0,
    }
}

/// From now on what is at the path, if anything is there, is a file of at most this many octets.
fn resize(extents: &mut Extents, path: &Path, octets: u64)
    ensures { extents.new ≡ resized path.now octets extents.old }
{
    if extents.get(path).is_some() {
        extents.set(path, Extent::File(octets));
    }
}
