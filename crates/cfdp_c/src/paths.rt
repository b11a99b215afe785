//! Paths that C gives.
ghost use Rattle.std.specs.Prelude.{◌≡◌, ◌≢◌, None, Some, IfOk, IfErr};
ghost use Rattle.cfdp_paths.specs.Paths.{IsPath};
ghost use Rattle.cfdp_c.specs.Creation.{path_in_fields};
ghost use Rattle.cfdp_c.specs.declared.answer.CallAnswer.TheVariants.{BadPath, Memory};

use crate::answer::CallAnswer;
use crate::fields::{PATH_OCTETS, PathFields};
use cfdp_paths::{Names, Path, PathFault};
use std::alloc::Global;

/// The path that is given as a struct.
pub(crate) fn path_of(alloc: Global, fields: &PathFields) -> Result<Path, CallAnswer>
    ensures ok { IfOk result (λ path. path_in_fields fields.now ≡ Some path) }
    ensures err { IfErr result (λ answer. answer ≢ Memory → (answer ≡ BadPath) × (path_in_fields fields.now ≡ None)) }
{
    let length = fields.length as usize;
    if length > PATH_OCTETS {
        return Err(CallAnswer::BadPath);
    }
    match Path::parse(alloc, &fields.octets[..length]) {
        Ok(path) => Ok(path),
        Err(PathFault::Memory) => Err(CallAnswer::Memory),
        Err(_) => Err(CallAnswer::BadPath),
    }
}

/// The names of the path that is given as a struct, lent out of its octets. Takes no memory.
pub(crate) fn names_of(fields: &mut PathFields) -> Result<Names<'_>, CallAnswer>
    ensures ok { IfOk result (λ names. path_in_fields fields.old ≡ Some names) }
    ensures within { IfOk result (λ names. IsPath names) }
    ensures err { IfErr result (λ answer. (answer ≡ BadPath) × (path_in_fields fields.old ≡ None)) }
{
    let length = fields.length as usize;
    if length > PATH_OCTETS {
        return Err(CallAnswer::BadPath);
    }
    let octets = &mut fields.octets[..length];
    if Names::fault_in(octets).is_some() {
        return Err(CallAnswer::BadPath);
    }
    Ok(Names::lend(octets))
}
