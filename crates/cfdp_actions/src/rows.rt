//! The rows of the action table that are not refused: the room that each takes, and what it changes.

ghost use Rattle.std.specs.Prelude.{◌≡◌, ◌+◌, ◌≤◌, false, nat_le, if◌then◌else◌, is_none, [], ◌∷◌, None, IsTrue, IsOk, IfOk, OnOk, OnErr};
ghost use Rattle.cfdp_actions.specs.Filestore.{node_at, Becomes, has_entries, is_directory, weight};
ghost use Rattle.cfdp_actions.specs.Actions.{succeeded, table, ticks};
ghost use Rattle.cfdp_actions.specs.Store.{free_blocks, with_changes};

use crate::blocks::blocks_of;
use crate::{Filestore, Request};
use cfdp_paths::{Memory, Path};

/// Whether the blocks that the row takes are free, or given back by it.
pub fn has_room<S: Filestore>(store: &S, request: &Request) -> bool
    requires { IsTrue (succeeded (table (S.state store.now).filestore request.now).answer) }
    ensures { let o = table (S.state store.now).filestore request.now in
        result ≡ nat_le o.taken (free_blocks (S.state store.now) + o.given) }
{
    match request {
        Request::CreateFile(_) | Request::CreateDirectory(_) => store.free() > 0,
        Request::AppendFile(first, second) => {
            let size = store.size(first);
            blocks_of(size + store.size(second)) - blocks_of(size) <= store.free()
        }
        Request::ReplaceFile(first, second) => {
            let given = blocks_of(store.size(first));
            blocks_of(store.size(second)) <= store.free() + given
        }
        _ => true,
    }
}

/// Changes the store as the row says, and returns its ticks. When out of memory the store is as before.
pub fn change<S: Filestore>(store: &mut S, request: &Request) -> Result<u32, Memory>
    requires allowed { IsTrue (succeeded (table (S.state store.old).filestore request.now).answer) }
    requires room { let o = table (S.state store.old).filestore request.now in
        o.taken ≤ free_blocks (S.state store.old) + o.given }
    ensures ticks { IfOk result (λ count. count ≡ ticks (table (S.state store.old).filestore request.now)) }
    ensures state { OnOk result (S.state store.new
        ≡ with_changes (S.state store.old) (table (S.state store.old).filestore request.now).changes) }
    ensures err { OnErr result (S.state store.new ≡ S.state store.old) }
    ensures thrifty { IsTrue (S.state store.old).takes_no_memory → IsOk result }
{
    match request {
        Request::CreateFile(path) => store.make_file(path),
        Request::CreateDirectory(path) => store.make_dir(path),
        Request::DeleteFile(path) | Request::RemoveDirectory(path) => store.remove(path),
        Request::DenyFile(path) | Request::DenyDirectory(path) => deny(store, path),
        Request::RenameFile(from, to) => store.rename(from, to),
        Request::AppendFile(first, second) => store.append(first, second),
        Request::ReplaceFile(first, second) => store.replace(first, second),
    }
}

/// Removes what is at the path; an absent path is denied already.
fn deny<S: Filestore>(store: &mut S, path: &Path) -> Result<u32, Memory>
    requires { IsTrue (is_directory (node_at (S.state store.old).filestore path.now))
        → has_entries (S.state store.old).filestore path.now ≡ false }
    ensures ticks { IfOk result (λ count. count ≡ weight (node_at (S.state store.old).filestore path.now)) }
    ensures gone { OnOk result (S.state store.new ≡ with_changes (S.state store.old)
        (if is_none (node_at (S.state store.old).filestore path.now) then [] else Becomes path.now None ∷ [])) }
    ensures err { OnErr result (S.state store.new ≡ S.state store.old) }
    ensures thrifty { IsTrue (S.state store.old).takes_no_memory → IsOk result }
{
    if store.kind(path).is_none() {
        return Ok(0);
    }
    store.remove(path)
}
