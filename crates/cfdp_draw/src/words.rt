//! Words of a picture.

ghost use Rattle.std.specs.Prelude.{◌≡◌, ◌<◌, ◌≤◌, ◌++◌, flat_map, OnOk};
ghost use Rattle.cfdp_draw.specs.Words.{digit_of, digits_of, escaped, escaped_octet, is_plain_in_xml, labelled_number};

use itoa::Buffer;
use std::alloc::AllocError;

/// Appends a label, and a number in decimal.
#[tactic(auto, unfolding(crate::specs::Words::labelled_number))]
pub(crate) fn push_labelled(label: &[u8], number: u64, text: &mut Vec<u8>) -> Result<(), AllocError>
    ensures { OnOk result (text.new.items ≡ text.old.items ++ labelled_number label.now number) }
{
    text.extend_from_slice(label)?;
    let mut buffer = Buffer::new();
    text.extend_from_slice(buffer.format(number).as_bytes())
}

/// How many digits a number has.
#[tactic(auto, unfolding(crate::specs::Words::digits_of))]
pub(crate) fn digits_of(number: u64) -> u64
    ensures value { result ≡ digits_of number }
    ensures most { result ≤ 20 }
{
    let mut buffer = Buffer::new();
    buffer.format(number).len().min(20) as u64
}

/// A hexadecimal digit.
fn digit_of(value: u8) -> u8
    requires { value < 16 }
    ensures { result ≡ digit_of value }
{
    if value < 10 {
        b'0' + value
    } else {
        b'a' - 10 + value
    }
}

/// Whether an octet is written as it is.
fn is_plain(octet: u8) -> bool
    ensures { result ≡ is_plain_in_xml octet }
{
    (b' '..=b'~').contains(&octet) && octet != b'%'
}

/// Appends an octet of a text that is shown.
fn push_escaped_octet(octet: u8, text: &mut Vec<u8>) -> Result<(), AllocError>
    ensures { OnOk result (text.new.items ≡ text.old.items ++ escaped_octet octet) }
{
    match octet {
        b'&' => text.extend_from_slice(b"&amp;"),
        b'<' => text.extend_from_slice(b"&lt;"),
        b'>' => text.extend_from_slice(b"&gt;"),
        b'"' => text.extend_from_slice(b"&quot;"),
        _ if is_plain(octet) => Ok(text.push(octet)?),
        _ => text.extend_from_slice(&[b'%', digit_of(octet / 16), digit_of(octet % 16)]),
    }
}

/// Appends a text that is shown.
pub(crate) fn push_escaped(words: &[u8], text: &mut Vec<u8>) -> Result<(), AllocError>
    ensures { OnOk result (text.new.items ≡ text.old.items ++ escaped words.now) }
{
    for octet in words {
        push_escaped_octet(*octet, text)?;
    }
    Ok(())
}
