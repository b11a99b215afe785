//! Names and paths in a plan.

ghost use Rattle.std.specs.Prelude.{◌≡◌, ◌<◌, length, Some, None, IfOk, IfSome, IfNone};
ghost use Rattle.std.specs.Option.{option_map};
ghost use Rattle.hex.specs.Hex.{hex_digit_value};
ghost use Rattle.cfdp_lines.specs.Words.{number_before};
ghost use Rattle.cfdp_plans.specs.Names.{octet_of_pair, name_in, path_spelled, path_octets_in};

use cfdp_paths::{Path, PathFault};
use cfdp_texts::is_plain;
use std::alloc::{AllocError, Global};

/// The value of a hexadecimal digit, of either case.
fn digit(octet: u8) -> Option<u8>
    ensures { result ≡ hex_digit_value octet }
{
    match octet {
        b'A'..=b'F' => Some(octet - b'A' + 10),
        b'a'..=b'f' => Some(octet - b'a' + 10),
        b'0'..=b'9' => Some(octet - b'0'),
        _ => None,
    }
}

/// The octet of two hexadecimal digits.
fn pair(high: u8, low: u8) -> Option<u8>
    ensures { result ≡ octet_of_pair (hex_digit_value high) (hex_digit_value low) }
{
    let high = digit(high)?;
    let low = digit(low)?;
    Some(16 * high + low)
}

/// The first octet of the name that a text spells, and the rest of the text.
#[tactic(auto, unfolding(crate::specs::Names::name_in))]
fn first_octet(text: &[u8]) -> Option<(u8, &[u8])>
    requires { 0 < length text.now }
    ensures some { IfSome result (λ first. name_in text.now ≡ number_before (Some first.0) (name_in first.1.now)) }
    ensures shorter { IfSome result (λ first. length first.1.now < length text.now) }
    ensures none { IfNone result (name_in text.now ≡ None) }
{
    match text {
        [b'%', high, low, rest @ ..] => Some((pair(*high, *low)?, rest)),
        [octet, rest @ ..] if is_plain(*octet) => Some((*octet, rest)),
        _ => None,
    }
}

/// The octets that a text spells: visible ASCII characters are themselves, but for `%`, which is followed by two
/// hexadecimal digits of an octet. `None` exactly if the text spells no name.
///
/// # Errors
///
/// Out of memory. Cost: one pass over the text.
pub fn read_name(alloc: Global, text: &[u8]) -> Result<Option<Vec<u8>>, AllocError>
    ensures { IfOk result (λ name. option_map (λ octets. octets.items) name ≡ name_in text.now) }
{
    let mut name = Vec::new(alloc);
    let mut rest = text;
    'octets: while !rest.is_empty() {
        let Some((octet, others)) = first_octet(rest) else {
            return Ok(None);
        };
        name.push(octet)?;
        rest = others;
    }
    Ok(Some(name))
}

/// The octets that a text spells, if they are a path of the filestore: 1 to 8 names of 1 to 96 octets with `/` between
/// them. `None` exactly if the text spells none.
///
/// # Errors
///
/// Out of memory. Cost: two passes over the text.
pub fn read_path(alloc: Global, text: &[u8]) -> Result<Option<Vec<u8>>, AllocError>
    ensures { IfOk result (λ path. option_map (λ octets. octets.items) path ≡ path_octets_in text.now) }
{
    let Some(octets) = read_name(alloc, text)? else {
        return Ok(None);
    };
    match Path::parse(alloc, &octets) {
        Ok(_) => Ok(Some(octets)),
        Err(PathFault::Memory) => Err(AllocError),
        Err(_) => Ok(None),
    }
}

/// The path of the filestore that a text spells, as listings print it: as [`read_path`], but the path itself. `None`
/// exactly if the text spells none.
///
/// # Errors
///
/// Out of memory. Cost: two passes over the text.
pub fn parse_path(alloc: Global, text: &[u8]) -> Result<Option<Path>, AllocError>
    ensures { IfOk result (λ path. path ≡ path_spelled text.now) }
{
    let Some(octets) = read_name(alloc, text)? else {
        return Ok(None);
    };
    match Path::parse(alloc, &octets) {
        Err(PathFault::Memory) => Err(AllocError),
        parsed => Ok(parsed.ok()),
    }
}
