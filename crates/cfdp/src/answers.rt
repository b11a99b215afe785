//! What the lines say that a script writes of an input.

use cfdp_lines::{NEWLINE, next_word, number_of, skip_spaces};
use cfdp_status::TransactionId;

/// What an indication to the user says.
#[derive(Clone, Copy)]
pub struct Indicated<'a> {
    /// Its kind: `metadata`, `finished` and so on.
    pub kind: &'a [u8],
    /// The transaction.
    pub id: TransactionId,
    /// The words after it.
    pub words: &'a [u8],
}

/// What became of an input.
#[derive(Clone, Copy)]
pub struct InputResult<'a> {
    /// The transaction. `None`: octets that are no PDU, or a PDU that is not ours.
    pub id: Option<TransactionId>,
    /// The words after it.
    pub words: &'a [u8],
}

/// What a line says.
#[derive(Clone, Copy)]
pub enum AnswerLine<'a> {
    /// A PDU was sent: its octets in hexadecimal.
    Sent(&'a [u8]),
    Indicated(Indicated<'a>),
    Became(InputResult<'a>),
    /// It is none of these lines.
    Other,
}

/// The transaction that a word names.
fn id_of(word: &[u8]) -> Option<TransactionId> {
    let slash = word.iter().position(|octet| *octet == b'/')?;
    let source = number_of(word.get(..slash)?)?;
    let number = number_of(word.get(slash.saturating_add(1)..)?)?;
    Some(TransactionId { source, number })
}

/// What an indication says, after its first word.
fn read_indication(line: &[u8]) -> Option<Indicated<'_>> {
    let mut rest = line;
    let kind = next_word(&mut rest)?;
    let id = id_of(next_word(&mut rest)?)?;
    Some(Indicated {
        kind,
        id,
        words: skip_spaces(rest),
    })
}

/// What a line says of what became of an input.
fn read_became(line: &[u8]) -> Option<InputResult<'_>> {
    let mut rest = line;
    let name = next_word(&mut rest)?;
    let words = skip_spaces(rest);
    if name == b"pdu".as_slice() {
        return Some(InputResult { id: None, words });
    }
    let id = id_of(name)?;
    Some(InputResult {
        id: Some(id),
        words,
    })
}

/// What a line says.
pub fn read_answer(line: &[u8]) -> AnswerLine<'_> {
    if let Some(digits) = line.strip_prefix(b"send ") {
        return AnswerLine::Sent(digits);
    }
    if let Some(rest) = line.strip_prefix(b"tell ") {
        return match read_indication(rest) {
            Some(indicated) => AnswerLine::Indicated(indicated),
            None => AnswerLine::Other,
        };
    }
    match read_became(line) {
        Some(became) => AnswerLine::Became(became),
        None => AnswerLine::Other,
    }
}

/// What became of the first input whose lines these are.
pub fn first_became(text: &[u8]) -> InputResult<'_> {
    for line in text.split(|octet| *octet == NEWLINE) {
        if let AnswerLine::Became(became) = read_answer(line) {
            return became;
        }
    }
    InputResult {
        id: None,
        words: &[],
    }
}

/// Whether a word is one of these.
pub fn is_among(word: &[u8], words: &[&[u8]]) -> bool {
    for known in words {
        if *known == word {
            return true;
        }
    }
    false
}

/// The first of some words.
pub fn first_word(words: &[u8]) -> &[u8] {
    let mut rest = words;
    next_word(&mut rest).unwrap_or(&[])
}
