//! What is noted in words in a picture: what is refused, faulted or dropped.

use crate::answers::{Indicated, InputResult, first_word, is_among};
use crate::hexadecimal::octet_of;
use cfdp_lines::{next_word, number_of};
use cfdp_status::{Status, TransactionId};
use cfdp_tlv::FilestoreRequest;
use cfdp_verdicts::push_refused;
use cfdp_verifier::{Proposal, Refusal};
use cfdp_words::condition_words;
use std::alloc::{AllocError, Global};

/// What is said of a list of which a request would fail, before the number of that request and its status.
const WOULD_FAIL: &[u8] = b"refused would-fail ";

/// What the words mean that are noted: of a refusal, the second word.
const MEANINGS: [(&[u8], &[u8]); 15] = [
    (b"too-many-requests", b"more than 64 requests"),
    (b"bad-path", b"a name is no path of the filestore"),
    (b"conflict", b"that transaction uses a path of it"),
    (
        b"destination",
        b"it has no directory above it, is a directory, or is protected",
    ),
    (
        b"would-fail",
        b"a request would fail: its number from 0, and its status",
    ),
    (b"too-long", b"the steps that it may take, above 65,536"),
    (b"no-room", b"the blocks that it needs, and those to spare"),
    (b"table-full", b"there are 64 transactions"),
    (b"sources-full", b"there are 16 other sources"),
    (b"not-for-us", b"it is for another entity"),
    (b"unknown", b"there is no such transaction"),
    (b"ignored", b"the limit of a timer was reached"),
    (
        b"list-begun",
        b"items of its list were performed, so the list goes on to its end",
    ),
    (b"not-ours", b"no receiver takes such a PDU"),
    (b"performed", b"the request was not successful"),
];

/// The first words that are noted.
const NOTED: [&[u8]; 10] = [
    b"refused",
    b"table-full",
    b"sources-full",
    b"not-for-us",
    b"not-ours",
    b"dropped",
    b"unknown",
    b"ignored",
    b"cancelled",
    b"list-begun",
];

/// What a word means, if there is more to say than the word.
fn meaning_of(word: &[u8]) -> Option<&'static [u8]> {
    for entry in &MEANINGS {
        if entry.0 == word {
            return Some(entry.1);
        }
    }
    None
}

/// Whether a request was performed, and was not successful: the last digit of its status is not 0.
fn has_failed(words: &[u8]) -> bool {
    words.starts_with(b"performed ") && !words.ends_with(b"0")
}

/// Whether it is noted what became of an input. The fault of a timer is noted with its condition, when it is indicated.
pub fn is_noted(words: &[u8]) -> bool {
    words.starts_with(b"faulted ") || has_failed(words) || is_among(first_word(words), &NOTED)
}

/// Whether an indication is noted that has nothing beside it: a transaction finished with a condition.
pub fn is_bad_end(indicated: Indicated<'_>) -> bool {
    indicated.kind == b"finished".as_slice() && first_word(indicated.words) != b"0".as_slice()
}

/// The word of which the meaning is said.
fn key_of(words: &[u8]) -> &[u8] {
    let mut rest = words;
    match next_word(&mut rest) {
        Some(b"refused") => first_word(rest),
        Some(word) => word,
        None => &[],
    }
}

/// Appends the words of a condition code.
fn push_condition(words: &[u8], out: &mut Vec<u8>) -> Result<(), AllocError> {
    let Some(code) = number_of(words) else {
        return Ok(());
    };
    out.extend_from_slice(b" (")?;
    out.extend_from_slice(condition_words(u8::try_from(code).unwrap_or(u8::MAX)))?;
    out.extend_from_slice(b")")
}

/// The request that would fail, and its status, if these words report one.
fn failing(words: &[u8]) -> Option<Refusal> {
    let mut rest = words.strip_prefix(WOULD_FAIL)?;
    let index = number_of(next_word(&mut rest)?)?;
    let status = Status::of_octet(octet_of(next_word(&mut rest)?)?)?;
    Some(Refusal::WouldFail(u8::try_from(index).ok()?, status))
}

/// Appends the request that would fail and its cause, in the words of `cfdp judge`, where words say that one of these
/// requests would fail.
pub fn push_cause(
    alloc: Global,
    words: &[u8],
    requests: &[FilestoreRequest],
    out: &mut Vec<u8>,
) -> Result<(), AllocError> {
    let Some(refusal) = failing(words) else {
        return Ok(());
    };
    let proposal = Proposal {
        destination: None,
        bound: 0,
        requests,
    };
    let nobody = TransactionId {
        source: 0,
        number: 0,
    };
    let mut line = Vec::new(alloc);
    push_refused(nobody, refusal, &proposal, &mut line)?;
    let cause = line.strip_prefix(b"0/0 refused: ").unwrap_or(&[]);
    out.extend_from_slice(cause.strip_suffix(b"\n").unwrap_or(cause))
}

/// What the words mean; `cause` says why a request would fail, if that is known.
fn meaning_with<'a>(words: &[u8], cause: &'a [u8]) -> Option<&'a [u8]> {
    if !cause.is_empty() && words.starts_with(WOULD_FAIL) {
        return Some(cause);
    }
    meaning_of(key_of(words))
}

/// Appends a note of what became of an input, with the cause of a request that would fail, if it is known.
pub fn push_became(
    became: InputResult<'_>,
    cause: &[u8],
    out: &mut Vec<u8>,
) -> Result<(), AllocError> {
    out.extend_from_slice(became.words)?;
    if let Some(code) = became.words.strip_prefix(b"faulted ") {
        return push_condition(code, out);
    }
    let Some(meaning) = meaning_with(became.words, cause) else {
        return Ok(());
    };
    out.extend_from_slice(b": ")?;
    out.extend_from_slice(meaning)
}

/// Appends a note of an indication with a condition code: a fault, or the end of the transaction.
pub fn push_indication_note(indicated: Indicated<'_>, out: &mut Vec<u8>) -> Result<(), AllocError> {
    let code = first_word(indicated.words);
    out.extend_from_slice(indicated.kind)?;
    out.extend_from_slice(b" ")?;
    out.extend_from_slice(code)?;
    push_condition(code, out)
}
