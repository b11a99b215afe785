//! Fields: a name and a value.

ghost use Rattle.std.specs.Prelude.{◌≡◌, ◌++◌, OnOk};
ghost use Rattle.cfdp_words.specs.Style.{label, field_end, quote, number_field, plain_field, flag_word, flag_field, meaning_text, code_field, name_field, digits_field};

use crate::Style;
use crate::names::Name;
use crate::style::{push_decimal, push_digits, push_key, push_name};
use std::alloc::AllocError;

/// Appends what comes before a value.
pub(crate) fn push_label(style: Style, name: Name, text: &mut Vec<u8>) -> Result<(), AllocError>
    ensures { OnOk result (text.new.items ≡ text.old.items ++ label style name) }
{
    match style {
        Style::Text => {
            text.extend_from_slice(b"  ")?;
            text.extend_from_slice(name.words())?;
            text.extend_from_slice(b": ")
        }
        Style::Json => {
            text.extend_from_slice(b",\"")?;
            push_key(name.words(), text)?;
            text.extend_from_slice(b"\":")
        }
    }
}

/// Appends what comes after a field: the end of its line.
fn push_end(style: Style, text: &mut Vec<u8>) -> Result<(), AllocError>
    ensures { OnOk result (text.new.items ≡ text.old.items ++ field_end style) }
{
    match style {
        Style::Text => text.extend_from_slice(b"\n"),
        Style::Json => Ok(()),
    }
}

/// Appends what a value that is no number is put in.
fn push_quote(style: Style, text: &mut Vec<u8>) -> Result<(), AllocError>
    ensures { OnOk result (text.new.items ≡ text.old.items ++ quote style) }
{
    match style {
        Style::Text => Ok(()),
        Style::Json => text.extend_from_slice(b"\""),
    }
}

/// Appends a field with a number.
#[tactic(auto, unfolding(crate::specs::Style::number_field))]
pub(crate) fn push_number_field(
    style: Style,
    name: Name,
    number: u64,
    text: &mut Vec<u8>,
) -> Result<(), AllocError>
    ensures { OnOk result (text.new.items ≡ text.old.items ++ number_field style name number) }
{
    push_label(style, name, text)?;
    push_decimal(number, text)?;
    push_end(style, text)
}

/// Appends a field with a word.
#[tactic(auto, unfolding(crate::specs::Style::plain_field))]
pub(crate) fn push_field(
    style: Style,
    name: Name,
    word: &[u8],
    text: &mut Vec<u8>,
) -> Result<(), AllocError>
    ensures { OnOk result (text.new.items ≡ text.old.items ++ plain_field style name word.now) }
{
    push_label(style, name, text)?;
    push_quote(style, text)?;
    text.extend_from_slice(word)?;
    push_quote(style, text)?;
    push_end(style, text)
}

/// Appends a field that is yes or no.
#[tactic(auto, unfolding(crate::specs::Style::flag_field))]
pub(crate) fn push_flag_field(
    style: Style,
    name: Name,
    flag: bool,
    text: &mut Vec<u8>,
) -> Result<(), AllocError>
    ensures { OnOk result (text.new.items ≡ text.old.items ++ flag_field style name flag) }
{
    push_label(style, name, text)?;
    text.extend_from_slice(flag_word(style, flag))?;
    push_end(style, text)
}

/// How a flag is written.
fn flag_word(style: Style, flag: bool) -> &'static [u8]
    ensures { result.now ≡ flag_word style flag }
{
    match (style, flag) {
        (Style::Text, true) => b"yes",
        (Style::Text, false) => b"no",
        (Style::Json, true) => b"true",
        (Style::Json, false) => b"false",
    }
}

/// Appends a field with a code, and what it means.
#[tactic(auto, unfolding(crate::specs::Style::code_field))]
pub(crate) fn push_code_field(
    style: Style,
    name: Name,
    code: u64,
    meaning: &[u8],
    text: &mut Vec<u8>,
) -> Result<(), AllocError>
    ensures { OnOk result (text.new.items ≡ text.old.items ++ code_field style name code meaning.now) }
{
    push_label(style, name, text)?;
    push_decimal(code, text)?;
    push_meaning(style, name, meaning, text)
}

/// Appends what a code means: after a comma, or in a member of its own.
fn push_meaning(
    style: Style,
    name: Name,
    meaning: &[u8],
    text: &mut Vec<u8>,
) -> Result<(), AllocError>
    ensures { OnOk result (text.new.items ≡ text.old.items ++ meaning_text style name meaning.now) }
{
    match style {
        Style::Text => {
            text.extend_from_slice(b", ")?;
            text.extend_from_slice(meaning)?;
            text.extend_from_slice(b"\n")
        }
        Style::Json => {
            text.extend_from_slice(b",\"")?;
            push_key(name.words(), text)?;
            text.extend_from_slice(b"_means\":\"")?;
            text.extend_from_slice(meaning)?;
            text.extend_from_slice(b"\"")
        }
    }
}

/// Appends a field with a file name or a message.
#[tactic(auto, unfolding(crate::specs::Style::name_field))]
pub(crate) fn push_name_field(
    style: Style,
    name: Name,
    value: &[u8],
    text: &mut Vec<u8>,
) -> Result<(), AllocError>
    ensures { OnOk result (text.new.items ≡ text.old.items ++ name_field style name value.now) }
{
    push_label(style, name, text)?;
    push_quote(style, text)?;
    push_name(style, value, text)?;
    push_quote(style, text)?;
    push_end(style, text)
}

/// Appends a field with octets in hexadecimal.
#[tactic(auto, unfolding(crate::specs::Style::digits_field))]
pub(crate) fn push_digits_field(
    style: Style,
    name: Name,
    octets: &[u8],
    text: &mut Vec<u8>,
) -> Result<(), AllocError>
    ensures { OnOk result (text.new.items ≡ text.old.items ++ digits_field style name octets.now) }
{
    push_label(style, name, text)?;
    push_quote(style, text)?;
    push_digits(octets, text)?;
    push_quote(style, text)?;
    push_end(style, text)
}
