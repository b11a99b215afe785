//! How fields are written.

ghost use Rattle.std.specs.Prelude.{◌≡◌, ◌++◌, OnOk, decimal, map};
ghost use Rattle.hex.specs.Hex.{encode_lower};
ghost use Rattle.cfdp_words.specs.Style.{key_octet, is_quoted, octet_text, name_text};

use cfdp_texts::{encode, is_plain, push_number};
use std::alloc::AllocError;

/// How a PDU is shown.
#[derive(Clone, Copy, Debug, PartialEq, Eq)]
pub enum Style {
    /// For people: a line with the kind, and a line for each field.
    Text,
    /// A JSON object in one line. Its keys are the names of the fields, in small letters and with `_` for a space.
    Json,
}

/// A letter of a field's name, in a key.
fn key_octet(octet: u8) -> u8
    ensures { result ≡ key_octet octet }
{
    match octet {
        b' ' => b'_',
        b'A'..=b'Z' => octet + 32,
        _ => octet,
    }
}

/// Appends the key of a field's name.
pub(crate) fn push_key(name: &[u8], text: &mut Vec<u8>) -> Result<(), AllocError>
    ensures { OnOk result (text.new.items ≡ text.old.items ++ map key_octet name.now) }
{
    for octet in name {
        text.push(key_octet(*octet))?;
    }
    Ok(())
}

/// Appends a number in decimal.
#[tactic(auto, unfolding(cfdp_texts::specs::Replies::number_text))]
pub(crate) fn push_decimal(number: u64, text: &mut Vec<u8>) -> Result<(), AllocError>
    ensures { OnOk result (text.new.items ≡ text.old.items ++ decimal number) }
{
    push_number(number, text)
}

/// Appends octets in lower-case hexadecimal.
pub(crate) fn push_digits(octets: &[u8], text: &mut Vec<u8>) -> Result<(), AllocError>
    ensures { OnOk result (text.new.items ≡ text.old.items ++ encode_lower octets.now) }
{
    encode(octets, text)
}

/// Whether an octet has a `\` before it in JSON.
fn is_quoted(octet: u8) -> bool
    ensures { result ≡ is_quoted octet }
{
    octet == b'"' || octet == b'\\'
}

/// Appends an octet of a name.
fn push_octet(style: Style, octet: u8, text: &mut Vec<u8>) -> Result<(), AllocError>
    ensures { OnOk result (text.new.items ≡ text.old.items ++ octet_text style octet) }
{
    if !is_plain(octet) {
        text.push(b'%')?;
        return push_digits(&[octet], text);
    }
    if style == Style::Json && is_quoted(octet) {
        text.push(b'\\')?;
    }
    Ok(text.push(octet)?)
}

/// Appends a name.
pub(crate) fn push_name(style: Style, name: &[u8], text: &mut Vec<u8>) -> Result<(), AllocError>
    ensures { OnOk result (text.new.items ≡ text.old.items ++ name_text style name.now) }
{
    for octet in name {
        push_octet(style, *octet, text)?;
    }
    Ok(())
}
