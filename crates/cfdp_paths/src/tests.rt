//! The calls that take memory, with ample memory, on the names of worked transactions.

mod moves;
mod octets;
mod separators;

use crate::{Memory, Path, PathFault};
use std::alloc::Global;
use std::process::Abort;

/// A file name of a worked transaction, and what the calls return for it.
struct Row {
    name: &'static str,
    /// The octets of the file name.
    octets: &'static [u8],
    /// The text of the path.
    text: &'static [u8],
    /// The texts of its proper ancestors; the last one is its parent.
    ancestors: &'static [&'static [u8]],
}

static ROWS: [Row; 4] = [
    Row {
        name: "a file",
        octets: b"a",
        text: b"a",
        ancestors: &[],
    },
    Row {
        name: "the same file, spelled in another way",
        octets: b"/a",
        text: b"a",
        ancestors: &[],
    },
    Row {
        name: "the destination of a delivered file",
        octets: b"f",
        text: b"f",
        ancestors: &[],
    },
    Row {
        name: "a file in a directory",
        octets: b"d/x",
        text: b"d/x",
        ancestors: &[b"d"],
    },
];

/// Whether the path has this text.
fn has_text(alloc: Global, path: &Path, text: &[u8]) -> Result<bool, Memory> {
    Ok(path.text(alloc)?.as_slice() == text)
}

/// Whether the parent has this text; `None` for the root.
fn has_parent(alloc: Global, path: &Path, text: Option<&&[u8]>) -> Result<bool, Memory> {
    match (path.parent(alloc)?, text) {
        (Some(parent), Some(text)) => has_text(alloc, &parent, text),
        (parent, text) => Ok(parent.is_none() && text.is_none()),
    }
}

/// Whether the ancestors have these texts.
fn has_ancestors(alloc: Global, path: &Path, texts: &[&[u8]]) -> Result<bool, Memory> {
    let ancestors = path.ancestors(alloc)?;
    for (ancestor, text) in ancestors.iter().zip(texts) {
        if !has_text(alloc, ancestor, text)? {
            return Ok(false);
        }
    }
    Ok(ancestors.len() == texts.len())
}

/// Each call returns for the file name as the row says.
fn answers(rt: &impl Abort, alloc: Global, row: &Row) -> Result<(), PathFault> {
    let name = row.name;
    let path = Path::parse(alloc, row.octets)?;
    assert!(rt; has_text(alloc, &path, row.text)?, "text of {name}");
    assert!(rt;
        has_text(alloc, &path.copy(alloc)?, row.text)?,
        "copy of {name}"
    );
    assert!(rt;
        has_parent(alloc, &path, row.ancestors.last())?,
        "parent of {name}"
    );
    assert!(rt;
        has_ancestors(alloc, &path, row.ancestors)?,
        "ancestors of {name}"
    );
    Ok(())
}

#[test]
fn ample(rt: HostRuntime) -> Result<(), PathFault> {
    for row in &ROWS {
        answers(&rt, rt.alloc(), row)?;
    }
    Ok(())
}
