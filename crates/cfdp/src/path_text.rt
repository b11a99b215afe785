//! Paths of the filestore as listings print them.

use std::alloc::{AllocError, Global};

/// Appends the octets of a path. One that is no visible ASCII character, and `%`, are `%` and two digits.
pub fn push_path(alloc: Global, octets: &[u8], text: &mut String) -> Result<(), AllocError> {
    for octet in octets {
        if octet.is_ascii_graphic() && *octet != b'%' {
            text.push(char::from(*octet))?;
        } else {
            text.push_str(format!(in alloc; "%{octet:02x}")?.as_str())?;
        }
    }
    Ok(())
}
