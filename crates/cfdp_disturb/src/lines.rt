//! Lines of PDUs.

ghost use Rattle.std.specs.Prelude.{◌≡◌};
ghost use Rattle.cfdp_lines.specs.Words.{words_of};
ghost use Rattle.cfdp_disturb.specs.Disturbing.{is_at, is_pdu, is_pdu_line, is_pdu_third};

use cfdp_lines::next_word;

/// Whether a word is `pdu`.
#[tactic(auto, unfolding(crate::specs::Disturbing::is_pdu))]
fn is_pdu(word: &[u8]) -> bool
    ensures { result ≡ is_pdu word.now }
{
    word == b"pdu".as_slice()
}

/// Whether a word is `at`.
#[tactic(auto, unfolding(crate::specs::Disturbing::is_at))]
fn is_at(word: &[u8]) -> bool
    ensures { result ≡ is_at word.now }
{
    word == b"at".as_slice()
}

/// Whether the second word of a text is `pdu`.
fn is_second_pdu(text: &[u8]) -> bool
    ensures { result ≡ is_pdu_third (words_of text.now) }
{
    let mut rest = text;
    match (next_word(&mut rest), next_word(&mut rest)) {
        (Some(_), Some(word)) => is_pdu(word),
        _ => false,
    }
}

/// Whether a line of a script hands in a PDU: `pdu HEX ..`, or `at T pdu HEX ..`. Takes no memory.
#[tactic(auto, unfolding(crate::specs::Disturbing::is_pdu_line))]
pub fn is_pdu_line(line: &[u8]) -> bool
    ensures { result ≡ is_pdu_line line.now }
{
    let mut rest = line;
    match next_word(&mut rest) {
        None => false,
        Some(word) => is_pdu(word) || (is_at(word) && is_second_pdu(rest)),
    }
}
