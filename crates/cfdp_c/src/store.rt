//! What an engine says of its filestore. Nothing here changes anything, or takes memory.
ghost use Rattle.std.specs.Prelude.{◌≡◌, All};
ghost use Rattle.cfdp_actions.specs.Filestore.{node_at};
ghost use Rattle.cfdp_paths.specs.Paths.{IsName};
ghost use Rattle.cfdp_c.specs.Answers.{answer_code};
ghost use Rattle.cfdp_c.specs.Creation.{path_in_fields};
ghost use Rattle.cfdp_c.specs.Stored.{CopiesFile, CopiesPath, Looks, LooksUp, ReadsFile, looked};

use crate::answer::CallAnswer;
use crate::fields::{EntryFields, PathFields};
use crate::handle::Handle;
use crate::numbers;
use crate::paths::names_of;
use cfdp_actions::Kind;
use cfdp_paths::Names;
use cfdp_transactions::Core;
use cfdp_tree::TreeStore;
use std::alloc::Global;

/// What is at the path of these names.
fn look_up(core: &Core<TreeStore>, names: Names<'_>) -> Option<EntryFields>
    requires { All IsName names }
    ensures { result ≡ looked core.now.world.filestore names.entry }
{
    let found = core.store().find(names)?;
    let kind = match found.kind {
        Kind::File => numbers::ENTRY_FILE,
        Kind::Directory => numbers::ENTRY_DIRECTORY,
    };
    Some(EntryFields {
        kind,
        checksum: found.checksum,
        size: found.size,
    })
}

/// Copies a file's octets from an offset on, as many as there are and as fit.
fn copy_file(
    core: &Core<TreeStore>,
    names: Names<'_>,
    at: u64,
    out: &mut [u8],
    count: &mut usize,
) -> CallAnswer
    requires { All IsName names }
    ensures { CopiesFile (node_at core.now.world.filestore names.entry) at out.old out.new count.old count.new
        (answer_code result) }
{
    match core.store().read_at(names, at, out) {
        None => CallAnswer::Nothing,
        Some(copied) => {
            *count = copied;
            CallAnswer::Done
        }
    }
}

/// Looks up the path of a struct: what exists there, or why its octets spell no path.
pub(crate) fn tell_entry(
    core: &Core<TreeStore>,
    path: &PathFields,
    entry: &mut EntryFields,
) -> CallAnswer
    ensures { Looks (path_in_fields path.now) core.now.world entry.old entry.new (answer_code result) }
{
    let mut path = *path;
    let names = match names_of(&mut path) {
        Err(answer) => return answer,
        Ok(names) => names,
    };
    match look_up(core, names) {
        None => CallAnswer::Nothing,
        Some(found) => {
            *entry = found;
            CallAnswer::Done
        }
    }
}

/// Copies the octets of the file at the path of a struct, where its octets spell one.
pub(crate) fn copy_path(
    core: &Core<TreeStore>,
    path: &PathFields,
    at: u64,
    out: &mut [u8],
    count: &mut usize,
) -> CallAnswer
    ensures { CopiesPath (path_in_fields path.now) core.now.world at out.old out.new count.old count.new
        (answer_code result) }
{
    let mut path = *path;
    match names_of(&mut path) {
        Err(answer) => answer,
        Ok(names) => copy_file(core, names, at, out, count),
    }
}

/// What is at a path.
#[unsafe(no_mangle)]
pub extern "C" fn cfdp_look_up(
    alloc: Global,
    engine: &mut Handle,
    path: &PathFields,
    entry: &mut EntryFields,
) -> u32
    ensures read { LooksUp path.now engine.old.slot.engine entry.old entry.new result }
    ensures kept { engine.new.slot.engine ≡ engine.old.slot.engine }
{
    let Some(entity) = engine.take(alloc) else {
        return CallAnswer::NoEngine.code();
    };
    let answer = tell_entry(entity.core(), path, entry);
    engine.put(entity);
    answer.code()
}

/// A file's octets from an offset on.
#[unsafe(no_mangle)]
pub extern "C" fn cfdp_read(
    alloc: Global,
    engine: &mut Handle,
    path: &PathFields,
    at: u64,
    out: &mut [u8],
    count: &mut usize,
) -> u32
    ensures read { ReadsFile path.now engine.old.slot.engine at out.old out.new count.old count.new result }
    ensures kept { engine.new.slot.engine ≡ engine.old.slot.engine }
{
    let Some(entity) = engine.take(alloc) else {
        return CallAnswer::NoEngine.code();
    };
    let answer = copy_path(entity.core(), path, at, out, count);
    engine.put(entity);
    answer.code()
}
