//! What is in an engine's filestore, entry by entry. Nothing here changes it, or takes memory.
ghost use Rattle.std.specs.Prelude.{◌≡◌, ◌≤◌, All, IfOk, IfErr, None, Some, length};
ghost use Rattle.cfdp_paths.specs.Paths.{IsName};
ghost use Rattle.cfdp_c.specs.Answers.{answer_code};
ghost use Rattle.cfdp_c.specs.Next.{NextOrNone, GoesOnFrom, TellsNext, cursor_in, spelled_fields};
ghost use Rattle.cfdp_c.specs.code.Next.{kind_number};
ghost use Rattle.cfdp_c.specs.declared.answer.CallAnswer.TheVariants.{BadPath};

use crate::answer::CallAnswer;
use crate::fields::{EntryFields, PATH_OCTETS, PathFields};
use crate::handle::Handle;
use crate::numbers;
use crate::paths::names_of;
use cfdp_actions::Kind;
use cfdp_paths::Names;
use cfdp_transactions::Core;
use cfdp_tree::TreeStore;
use std::alloc::Global;

/// The names of the path that is given as a struct, lent out of its octets; none where there are no octets. Takes no
/// memory.
fn cursor_of(fields: &mut PathFields) -> Result<Names<'_>, CallAnswer>
    ensures ok { IfOk result (λ names. cursor_in fields.old ≡ Some names) }
    ensures names { IfOk result (All IsName) }
    ensures err { IfErr result (λ answer. (answer ≡ BadPath) × (cursor_in fields.old ≡ None)) }
{
    if fields.length == 0 {
        return Ok(Names::none());
    }
    names_of(fields)
}

/// The number of a kind.
fn kind_number(kind: Kind) -> u32
    ensures { result ≡ kind_number kind }
{
    match kind {
        Kind::File => numbers::ENTRY_FILE,
        Kind::Directory => numbers::ENTRY_DIRECTORY,
    }
}

/// The octets that spell a path as a struct.
fn path_fields(spelled: &[u8]) -> PathFields
    requires { length spelled.now ≤ 776 }
    ensures { result ≡ spelled_fields spelled.now }
{
    let mut octets = [0; PATH_OCTETS];
    octets[..spelled.len()].copy_from_slice(spelled);
    PathFields {
        length: spelled.len() as u32,
        octets,
    }
}

/// Goes on from a path to what is next.
fn go_on(
    core: &Core<TreeStore>,
    after: Names<'_>,
    path: &mut PathFields,
    entry: &mut EntryFields,
) -> CallAnswer
    requires { All IsName after }
    ensures { NextOrNone core.now.world.filestore after.entry path.old path.new entry.old entry.new
        (answer_code result) }
{
    let mut text = [0; PATH_OCTETS];
    let Some(found) = core.store().next_entry(after, &mut text) else {
        return CallAnswer::Nothing;
    };
    let (_, spelled) = text.split_at(found.start);
    *path = path_fields(spelled);
    *entry = EntryFields {
        kind: kind_number(found.kind),
        checksum: found.checksum,
        size: found.size,
    };
    CallAnswer::Done
}

/// Goes on from the path of a struct, where its octets spell one.
pub(crate) fn go_on_from(
    core: &Core<TreeStore>,
    path: &mut PathFields,
    entry: &mut EntryFields,
) -> CallAnswer
    ensures { GoesOnFrom (cursor_in path.old) core.now.world.filestore path.old path.new entry.old entry.new
        (answer_code result) }
{
    let mut cursor = *path;
    match cursor_of(&mut cursor) {
        Ok(after) => go_on(core, after, path, entry),
        Err(answer) => answer,
    }
}

/// The entry of the filestore that comes next after a path, in path order.
#[unsafe(no_mangle)]
pub extern "C" fn cfdp_next(
    alloc: Global,
    engine: &mut Handle,
    path: &mut PathFields,
    entry: &mut EntryFields,
) -> u32
    ensures read { TellsNext path.old engine.old.slot.engine path.new entry.old entry.new result }
    ensures kept { engine.new.slot.engine ≡ engine.old.slot.engine }
{
    let Some(entity) = engine.take(alloc) else {
        return CallAnswer::NoEngine.code();
    };
    let answer = go_on_from(entity.core(), path, entry);
    engine.put(entity);
    answer.code()
}
