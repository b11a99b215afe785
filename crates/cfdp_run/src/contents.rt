//! What a script asks for a path of the filestore.

ghost use Rattle.std.specs.Prelude.{◌≡◌, ◌++◌, IsTrue, codes, length, OnOk};
ghost use Rattle.cfdp_actions.specs.Filestore.{is_file, node_at, file_octets_at};
ghost use Rattle.cfdp_texts.specs.Replies.{labelled};
ghost use Rattle.cfdp_run.specs.Contents.{get_line, octets_text};

use cfdp_actions::{Filestore, Kind};
use cfdp_entity::Entity;
use cfdp_paths::Path;
use cfdp_texts::{encode, push_labelled, push_path};
use std::alloc::{AllocError, Global};

/// Appends a space and the octets of a file, in hexadecimal. Of an empty file it appends nothing.
fn push_octets(octets: &[u8], text: &mut Vec<u8>) -> Result<(), AllocError>
    ensures { OnOk result (text.new.items ≡ text.old.items ++ octets_text octets.now) }
{
    if octets.is_empty() {
        return Ok(());
    }
    text.push(b' ')?;
    encode(octets, text)
}

/// Appends the size and the octets of a file.
fn push_content(
    alloc: Global,
    entity: &Entity,
    path: &Path,
    text: &mut Vec<u8>,
) -> Result<(), AllocError>
    requires { IsTrue (is_file (node_at entity.now.filestore path.now)) }
    ensures { OnOk result (text.new.items ≡ text.old.items
        ++ (labelled (codes " ") (length (file_octets_at entity.now.filestore path.now))
        ++ octets_text (file_octets_at entity.now.filestore path.now))) }
{
    let store = entity.core().store();
    let mut octets = vec![in alloc; 0u8; store.size(path) as usize]?;
    store.read(path, 0, &mut octets);
    push_labelled(b" ", octets.len() as u64, text)?;
    push_octets(&octets, text)
}

/// Appends the line of a question for a path: the octets of a file, that it is a directory, or that nothing is there.
///
/// # Errors
///
/// [`AllocError`] when out of memory. Cost: three passes over the octets of the file.
pub(crate) fn push_get_line(
    alloc: Global,
    entity: &Entity,
    path: &Path,
    text: &mut Vec<u8>,
) -> Result<(), AllocError>
    ensures { OnOk result (text.new.items ≡ text.old.items ++ get_line entity.now.filestore path.now) }
{
    match entity.core().store().kind(path) {
        None => {
            text.extend_from_slice(b"absent ")?;
            push_path(alloc, path, text)?;
        }
        Some(Kind::Directory) => {
            text.extend_from_slice(b"dir ")?;
            push_path(alloc, path, text)?;
        }
        Some(Kind::File) => {
            text.extend_from_slice(b"content ")?;
            push_path(alloc, path, text)?;
            push_content(alloc, entity, path, text)?;
        }
    }
    Ok(text.push(b'\n')?)
}
