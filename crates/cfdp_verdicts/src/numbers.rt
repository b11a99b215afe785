//! Numbers, and what is counted.

ghost use Rattle.std.specs.Prelude.{◌≡◌, ◌++◌, if◌then◌else◌, ◌==◌, length, OnOk};
ghost use Rattle.cfdp_verdicts.specs.Words.{counted, grouped, with_commas};

use itoa::Buffer;
use std::alloc::AllocError;

/// Appends digits, with a comma before each three of them from the last one.
#[tactic(auto, unfolding(crate::specs::Words::with_commas))]
fn push_digits(digits: &[u8], text: &mut Vec<u8>) -> Result<(), AllocError>
    ensures { OnOk result (text.new.items ≡ text.old.items ++ with_commas digits.now) }
{
    let mut rest = digits;
    'digits: while let [digit, others @ ..] = rest {
        text.push(*digit)?;
        if !others.is_empty() && others.len() % 3 == 0 {
            text.push(b',')?;
        }
        rest = others;
    }
    Ok(())
}

/// Appends a number in decimal, with a comma before each three digits.
#[tactic(auto, unfolding(crate::specs::Words::grouped))]
pub(crate) fn push_grouped(number: u64, text: &mut Vec<u8>) -> Result<(), AllocError>
    ensures { OnOk result (text.new.items ≡ text.old.items ++ grouped number) }
{
    let mut buffer = Buffer::new();
    push_digits(buffer.format(number).as_bytes(), text)
}

/// Appends a number and its noun, in the singular for 1.
#[tactic(auto, unfolding(crate::specs::Words::counted))]
pub(crate) fn push_counted(
    number: u64,
    one: &[u8],
    many: &[u8],
    text: &mut Vec<u8>,
) -> Result<(), AllocError>
    ensures { OnOk result (text.new.items ≡ text.old.items ++ counted number one.now many.now) }
{
    push_grouped(number, text)?;
    text.extend_from_slice(if number == 1 { one } else { many })
}

/// Appends a text.
pub(crate) fn push_text(said: &[u8], text: &mut Vec<u8>) -> Result<(), AllocError>
    ensures { OnOk result (text.new.items ≡ text.old.items ++ said.now) }
{
    text.extend_from_slice(said)
}
