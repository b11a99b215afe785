//! What is wrong with a bad line, and its text.

ghost use Rattle.std.specs.Prelude.{◌≡◌, ◌++◌, OnOk};
ghost use Rattle.cfdp_run.specs.Wrongs.{expected_text, too_late_text, values_text, wrong_text};

use crate::settings::Key;
use crate::words::FirstWord;
use std::alloc::AllocError;

/// What is wrong with a bad line.
#[derive(Clone, Copy, Debug, PartialEq, Eq)]
pub enum Wrong {
    /// It has more than 200,000 octets.
    TooLong,
    /// Its first word is none that begins a line.
    UnknownWord,
    /// It is a line of the head, and the head is over.
    TooLate(FirstWord),
    /// A word is missing or too many, or is no number or no hexadecimal.
    Expected(FirstWord),
    /// A word of `mib` names no key.
    UnknownKey,
    /// A word of `mib` has a value that this key does not have.
    OutOfRange(Key),
    /// It is a second `config`, or one after `protect` or `put`.
    ConfigTooLate,
    /// A number of `config` is out of range.
    ConfigRange,
    /// A word is no path.
    NoPath,
    /// There are as many protected prefixes as there may be. The playing finds it.
    TooManyProtected,
    /// A file or a directory has the path of `put` already. The playing finds it.
    Taken,
    /// A parent of the path of `put` is a file. The playing finds it.
    ParentIsFile,
    /// The filestore has too few blocks for what `put` puts. The playing finds it.
    NoRoom,
}

/// Appends the text of a line of the head that comes too late.
fn push_too_late(word: FirstWord, text: &mut Vec<u8>) -> Result<(), AllocError>
    ensures { OnOk result (text.new.items ≡ text.old.items ++ too_late_text word) }
{
    text.extend_from_slice(word.spelling())?;
    text.extend_from_slice(b" must come before the first other line")
}

/// Appends how a line has to be written.
fn push_expected(word: FirstWord, text: &mut Vec<u8>) -> Result<(), AllocError>
    ensures { OnOk result (text.new.items ≡ text.old.items ++ expected_text word) }
{
    text.extend_from_slice(b"expected ")?;
    text.extend_from_slice(word.form())
}

/// Appends what the values of a key are.
fn push_range(key: Key, text: &mut Vec<u8>) -> Result<(), AllocError>
    ensures { OnOk result (text.new.items ≡ text.old.items ++ values_text key) }
{
    text.extend_from_slice(key.spelling())?;
    text.extend_from_slice(b" is ")?;
    text.extend_from_slice(key.range())
}

/// Appends the text of what is wrong with a line, without a newline.
///
/// # Errors
///
/// [`AllocError`] when out of memory. Cost: the octets that it appends.
#[tactic(auto, unfolding(crate::specs::Wrongs::wrong_text))]
pub fn push_wrong(wrong: Wrong, text: &mut Vec<u8>) -> Result<(), AllocError>
    ensures { OnOk result (text.new.items ≡ text.old.items ++ wrong_text wrong) }
{
    match wrong {
        Wrong::TooLong => text.extend_from_slice(b"longer than 200000 octets"),
        Wrong::UnknownWord => text.extend_from_slice(b"unknown word"),
        Wrong::TooLate(word) => push_too_late(word, text),
        Wrong::Expected(word) => push_expected(word, text),
        Wrong::UnknownKey => text.extend_from_slice(b"unknown key"),
        Wrong::OutOfRange(key) => push_range(key, text),
        Wrong::ConfigTooLate => {
            text.extend_from_slice(b"config must come once, before protect and put")
        }
        Wrong::ConfigRange => text.extend_from_slice(
            b"config has B 16 to 65536, C 0 to 7864320, K 1 to 1000, J 16 to 1000000",
        ),
        Wrong::NoPath => text.extend_from_slice(b"no path"),
        Wrong::TooManyProtected => text.extend_from_slice(b"at most 8 paths are protected"),
        Wrong::Taken => text.extend_from_slice(b"something is there already"),
        Wrong::ParentIsFile => text.extend_from_slice(b"a parent is a file"),
        Wrong::NoRoom => text.extend_from_slice(b"the filestore has no room for it"),
    }
}
