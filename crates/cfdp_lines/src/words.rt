//! The words of a line, and the numbers that they write.
ghost use Rattle.std.specs.Prelude.{◌≡◌, ◌≢◌, ◌<◌, ◌∷◌, [], length, get_or, Some, None, IfSome, ◌⊎◌};
ghost use Rattle.std.specs.Char.{is_ascii_digit};
ghost use Rattle.std.specs.List.{list_all};
ghost use Rattle.cfdp_lines.specs.Words.{id_by, is_numeral, number_of, numbers_of, words_of};

use arrayvec::ArrayVec;
use cfdp_status::TransactionId;
use memchr::memchr;
use std::str;

/// The most numbers that [`numbers_of`] reads.
pub const MOST_NUMBERS: usize = 5;

/// A line without the spaces that it begins with. Cost: one pass over the line.
pub fn skip_spaces(line: &[u8]) -> &[u8]
    ensures words { words_of result.now ≡ words_of line.now }
    ensures first { 0 < length result.now → get_or result.now 0 0 ≢ 32 }
{
    let mut rest = line;
    'spaces: while let [b' ', others @ ..] = rest {
        rest = others;
    }
    rest
}

/// Takes the first word off a line, with the spaces before it.
pub fn next_word<'a>(line: &mut &'a [u8]) -> Option<&'a [u8]>
    ensures some { IfSome result (λ word. words_of line.old.now ≡ word.now ∷ words_of line.new.now) }
    ensures none { result ≡ None → words_of line.old.now ≡ [] }
{
    let rest = skip_spaces(line);
    if rest.is_empty() {
        return None;
    }
    let Some(end) = memchr(b' ', rest) else {
        *line = &[];
        return Some(rest);
    };
    let (word, following) = rest.split_at(end);
    *line = following;
    Some(word)
}

/// Whether each octet is a decimal digit.
fn are_digits(word: &[u8]) -> bool
    ensures { result ≡ list_all is_ascii_digit word.now }
{
    word.iter().all(|octet| octet.is_ascii_digit())
}

/// Whether a word has decimal digits, and nothing else.
fn is_numeral(word: &[u8]) -> bool
    ensures { result ≡ is_numeral word.now }
{
    !word.is_empty() && are_digits(word)
}

/// The number below 2^64 that a word of decimal digits writes.
pub fn number_of(word: &[u8]) -> Option<u64>
    ensures { result ≡ number_of word.now }
{
    if !is_numeral(word) {
        return None;
    }
    let Ok(digits) = str::from_utf8(word) else {
        return None;
    };
    let Ok(number) = digits.parse() else {
        return None;
    };
    Some(number)
}

/// The numbers that the words of a line write: none where a word writes no number, or there are more than a command
/// has. Cost: one pass over the line.
pub fn numbers_of(line: &[u8]) -> Option<ArrayVec<u64, MOST_NUMBERS>>
    ensures some { IfSome result (λ numbers. numbers_of (words_of line.now) ≡ Some numbers.items) }
    ensures none { result ≡ None → (numbers_of (words_of line.now) ≡ None) ⊎ (5 < length (words_of line.now)) }
{
    let mut numbers = ArrayVec::new();
    let mut rest = line;
    'words: while let Some(word) = next_word(&mut rest) {
        let Some(number) = number_of(word) else {
            return None;
        };
        if numbers.try_push(number).is_err() {
            return None;
        }
    }
    Some(numbers)
}

/// The transaction that the words of a line name, if they are two numbers: its source entity ID, and its sequence
/// number.
pub fn id_in(line: &[u8]) -> Option<TransactionId>
    ensures { result ≡ id_by (numbers_of (words_of line.now)) }
{
    let Some(numbers) = numbers_of(line) else {
        return None;
    };
    match numbers.as_slice() {
        [source, number] => Some(TransactionId {
            source: *source,
            number: *number,
        }),
        _ => None,
    }
}
