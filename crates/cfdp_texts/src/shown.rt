//! Octets and paths as listings print them.
ghost use Rattle.std.specs.Prelude.{◌≡◌, ◌++◌, OnOk};
ghost use Rattle.cfdp_texts.specs.Replies.{is_plain, shown, shown_octet, shown_path};

use crate::encoding::encode;
use cfdp_paths::Path;
use std::alloc::{AllocError, Global};

/// Whether an octet is written as it is: visible ASCII, but for `%`.
pub fn is_plain(octet: u8) -> bool
    ensures { result ≡ is_plain octet }
{
    octet.is_ascii_graphic() && octet != b'%'
}

/// Appends an octet: as it is, or `%` and two digits.
#[tactic(auto, unfolding(crate::specs::Replies::two_digits))]
fn push_octet(octet: u8, text: &mut Vec<u8>) -> Result<(), AllocError>
    ensures { OnOk result (text.new.items ≡ text.old.items ++ shown_octet octet) }
{
    if is_plain(octet) {
        return Ok(text.push(octet)?);
    }
    text.push(b'%')?;
    encode(&[octet], text)
}

/// Appends octets: visible ASCII as it is, but for `%`; each other octet as `%` and two hexadecimal digits.
///
/// # Errors
///
/// [`AllocError`] when out of memory: a beginning of the text may be appended. Cost: one pass over the octets.
#[tactic(auto, unfolding(crate::specs::Replies::shown))]
pub fn push_shown(octets: &[u8], text: &mut Vec<u8>) -> Result<(), AllocError>
    ensures { OnOk result (text.new.items ≡ text.old.items ++ shown octets.now) }
{
    for octet in octets {
        push_octet(*octet, text)?;
    }
    Ok(())
}

/// Appends a path, its octets as [`push_shown`] writes them.
///
/// # Errors
///
/// [`AllocError`] when out of memory: a beginning of the text may be appended. Cost: a copy of the path's octets, and
/// one pass over them.
#[tactic(auto, unfolding(crate::specs::Replies::shown))]
pub fn push_path(alloc: Global, path: &Path, text: &mut Vec<u8>) -> Result<(), AllocError>
    ensures { OnOk result (text.new.items ≡ text.old.items ++ shown_path path.now) }
{
    push_shown(&path.text(alloc)?, text)
}
