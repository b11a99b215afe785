//! The lines that `replay` writes of all that is in the filestore.
ghost use Rattle.std.specs.Prelude.{◌≡◌, ◌++◌, OnOk};
ghost use Rattle.cfdp_actions.specs.Filestore.{blocks};
ghost use Rattle.cfdp_texts.specs.Replies.{blocks_line, entry_line, listing_text};

use crate::encoding::encode;
use crate::replies::push_labelled;
use crate::shown::push_path;
use cfdp_actions::{Entry, Filestore, Kind};
use cfdp_transactions::Core;
use std::alloc::{AllocError, Global};

/// Appends the line of what is at a path.
fn push_entry(alloc: Global, entry: &Entry, text: &mut Vec<u8>) -> Result<(), AllocError>
    ensures { OnOk result (text.new.items ≡ text.old.items ++ entry_line entry.now) }
{
    match entry.kind {
        Kind::Directory => {
            text.extend_from_slice(b"dir ")?;
            push_path(alloc, &entry.path, text)?;
        }
        Kind::File => {
            text.extend_from_slice(b"file ")?;
            push_path(alloc, &entry.path, text)?;
            push_labelled(b" ", entry.size, text)?;
            text.push(b' ')?;
            encode(&entry.checksum.to_be_bytes(), text)?;
        }
    }
    Ok(text.push(b'\n')?)
}

/// How many blocks are in use.
fn blocks_in_use<S: Filestore>(core: &Core<S>) -> u32
    ensures { result ≡ blocks core.now.world.filestore }
{
    core.config().blocks() - core.store().free()
}

/// Appends the line of the blocks: those in use, those that are free, and those of them that nobody was granted.
fn push_blocks<S: Filestore>(core: &Core<S>, text: &mut Vec<u8>) -> Result<(), AllocError>
    ensures { OnOk result (text.new.items ≡ text.old.items ++ blocks_line core.now.world) }
{
    push_labelled(b"store used ", u64::from(blocks_in_use(core)), text)?;
    push_labelled(b" free ", u64::from(core.store().free()), text)?;
    push_labelled(b" spare ", u64::from(core.spare()), text)?;
    Ok(text.push(b'\n')?)
}

/// Appends the line of the blocks, and a line for each file and each directory, in path order.
///
/// # Errors
///
/// [`AllocError`] when out of memory: a beginning of the text may be appended.
///
/// Cost: that of the store's listing, and one pass over the text.
pub fn write_listing<S: Filestore>(
    alloc: Global,
    core: &Core<S>,
    text: &mut Vec<u8>,
) -> Result<(), AllocError>
    ensures { OnOk result (text.new.items ≡ text.old.items ++ listing_text core.now.world) }
{
    push_blocks(core, text)?;
    let entries = core.store().listing(alloc)?;
    for entry in &entries {
        push_entry(alloc, entry, text)?;
    }
    Ok(())
}
