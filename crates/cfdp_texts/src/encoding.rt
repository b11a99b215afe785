//! Octets in hexadecimal.
ghost use Rattle.std.specs.Prelude.{◌≡◌, ◌++◌, OnOk, OnErr};
ghost use Rattle.hex.specs.Hex.{encode_lower};

use std::alloc::AllocError;

/// Appends octets in lower-case hexadecimal.
///
/// # Errors
///
/// Out of memory: nothing was appended. Cost: a pass over the octets.
pub fn encode(octets: &[u8], out: &mut Vec<u8>) -> Result<(), AllocError>
    ensures ok { OnOk result (out.new.items ≡ out.old.items ++ encode_lower octets.now) }
    ensures kept { OnErr result (out.new.items ≡ out.old.items) }
{
    let start = out.len();
    let digits = octets.len().checked_mul(2).ok_or(AllocError)?;
    let len = start.checked_add(digits).ok_or(AllocError)?;
    out.resize(len, 0)?;
    let room = &mut out.as_mut_slice()[start..];
    hex::encode_to_slice(octets, room).unwrap();
    Ok(())
}
