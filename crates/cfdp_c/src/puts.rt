//! Directories and files that C puts into an engine's filestore, before its first PDU.
ghost use Rattle.cfdp_c.specs.Answers.{answer_code};
ghost use Rattle.cfdp_c.specs.Puts.{Puts, PutsNode, node_in};

use crate::answer::CallAnswer;
use crate::fields::PathFields;
use crate::handle::Handle;
use crate::numbers;
use crate::paths::path_of;
use cfdp_entity::Entity;
use cfdp_paths::Path;
use std::alloc::Global;

/// Puts a directory, or a file with these octets, at a path.
fn put_at(entity: &mut Entity, path: &Path, kind: u32, octets: &[u8]) -> CallAnswer
    ensures { PutsNode (node_in kind octets.now) entity.old path.now entity.new (answer_code result) }
{
    let put = match kind {
        numbers::ENTRY_FILE => entity.put_file(path, octets),
        numbers::ENTRY_DIRECTORY => entity.put_directory(path),
        _ => return CallAnswer::Nothing,
    };
    match put {
        Ok(()) => CallAnswer::Done,
        Err(why) => CallAnswer::of_not_put(why),
    }
}

/// Puts a directory, or a file with these octets, at a path, while no transaction is known.
#[unsafe(no_mangle)]
pub extern "C" fn cfdp_put(
    alloc: Global,
    engine: &mut Handle,
    path: &PathFields,
    kind: u32,
    octets: &[u8],
) -> u32
    ensures { Puts path.now (node_in kind octets.now) engine.old.slot.engine engine.new.slot.engine result }
{
    let Some(mut entity) = engine.take(alloc) else {
        return CallAnswer::NoEngine.code();
    };
    let answer = match path_of(alloc, path) {
        Ok(path) => put_at(&mut entity, &path, kind, octets),
        Err(answer) => answer,
    };
    engine.put(entity);
    answer.code()
}
