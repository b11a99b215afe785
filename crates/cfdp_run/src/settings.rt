//! The settings of a management information base, as the lines `mib` of a script have them.

ghost use Rattle.std.specs.Prelude.{◌≡◌, ◌≤◌, Some, None, IfSome};
ghost use Rattle.cfdp_run.specs.Settings.{default_mib, handler_of, interval_of, keep_alive_of, key_of, key_text, limit_of, longest_of, nak_mode_of, bounds_text, with_value, number_within, yes_of};

use cfdp_lines::number_of;
use cfdp_receiver::{Handler, Mib, NakMode, Retries, Watch};

/// What a line `mib` sets.
#[derive(Clone, Copy, Debug, PartialEq, Eq)]
pub enum Key {
    /// `ack-interval`: a Finished PDU is sent again after this time without its ACK PDU.
    AckInterval,
    /// `ack-limit`: the expiry that is condition 1.
    AckLimit,
    /// `on-ack-limit`: the handler of condition 1.
    OnAckLimit,
    /// `nak-interval`: what is missing is asked for again after this time without a new octet.
    NakInterval,
    /// `nak-limit`: the expiry that is condition 7.
    NakLimit,
    /// `on-nak-limit`: the handler of condition 7.
    OnNakLimit,
    /// `check-interval`: the time between checks in unacknowledged mode.
    CheckInterval,
    /// `on-check-limit`: the handler of condition 10.
    OnCheckLimit,
    /// `inactivity`: this time without a PDU of the transaction is condition 8.
    Inactivity,
    /// `on-inactivity`: the handler of condition 8.
    OnInactivity,
    /// `keep-alive`: the time between Keep Alive PDUs, or none.
    KeepAlive,
    /// `immediate`: whether a gap is asked for when it begins.
    Immediate,
    /// `crc`: whether PDUs that are sent have a CRC.
    Crc,
    /// `longest`: how many octets a NAK PDU has at most.
    Longest,
    /// `most-ahead`: how far ahead of the latest time another one may be, or no limit.
    MostAhead,
}

/// What is done where a script sets nothing else.
const RETRIES: Retries = Retries {
    interval: 10,
    limit: 3,
    at_limit: Handler::Cancel,
};

/// What is set where a script sets nothing else.
pub fn default_mib() -> Mib
    ensures { result ≡ default_mib }
{
    Mib {
        ack: RETRIES,
        nak: RETRIES,
        check: Watch {
            interval: 10,
            at_limit: Handler::Cancel,
        },
        inactivity: Watch {
            interval: 100,
            at_limit: Handler::Cancel,
        },
        keep_alive: None,
        nak_mode: NakMode::Deferred,
        has_crc: false,
        longest_nak: 65_535,
        most_ahead: None,
    }
}

/// The key that a word names.
pub fn key_of(word: &[u8]) -> Option<Key>
    ensures { result ≡ key_of word.now }
{
    if word == b"ack-interval".as_slice() {
        return Some(Key::AckInterval);
    }
    if word == b"ack-limit".as_slice() {
        return Some(Key::AckLimit);
    }
    if word == b"on-ack-limit".as_slice() {
        return Some(Key::OnAckLimit);
    }
    if word == b"nak-interval".as_slice() {
        return Some(Key::NakInterval);
    }
    if word == b"nak-limit".as_slice() {
        return Some(Key::NakLimit);
    }
    if word == b"on-nak-limit".as_slice() {
        return Some(Key::OnNakLimit);
    }
    if word == b"check-interval".as_slice() {
        return Some(Key::CheckInterval);
    }
    if word == b"on-check-limit".as_slice() {
        return Some(Key::OnCheckLimit);
    }
    if word == b"inactivity".as_slice() {
        return Some(Key::Inactivity);
    }
    if word == b"on-inactivity".as_slice() {
        return Some(Key::OnInactivity);
    }
    if word == b"keep-alive".as_slice() {
        return Some(Key::KeepAlive);
    }
    if word == b"immediate".as_slice() {
        return Some(Key::Immediate);
    }
    if word == b"crc".as_slice() {
        return Some(Key::Crc);
    }
    if word == b"longest".as_slice() {
        return Some(Key::Longest);
    }
    if word == b"most-ahead".as_slice() {
        return Some(Key::MostAhead);
    }
    None
}

/// The number that a word writes in decimal, if it is in this range.
fn within(low: u32, high: u32, word: &[u8]) -> Option<u32>
    ensures { result ≡ number_within low high word.now }
{
    let Some(number) = number_of(word) else {
        return None;
    };
    if number < u64::from(low) || u64::from(high) < number {
        return None;
    }
    Some(number as u32)
}

/// A time in ticks.
fn interval_of(word: &[u8]) -> Option<u32>
    ensures { result ≡ interval_of word.now }
{
    within(1, 4_294_967_295, word)
}

/// A limit of expiries.
fn limit_of(word: &[u8]) -> Option<u32>
    ensures { result ≡ limit_of word.now }
{
    within(1, 1_000, word)
}

/// How many octets a NAK PDU has at most.
fn longest_of(word: &[u8]) -> Option<u16>
    ensures { result ≡ longest_of word.now }
{
    let Some(longest) = within(72, 65_535, word) else {
        return None;
    };
    Some(longest as u16)
}

/// A time in ticks, or none.
fn interval_or_none(word: &[u8]) -> Option<Option<u32>>
    ensures { result ≡ keep_alive_of word.now }
{
    if word == b"none".as_slice() {
        return Some(None);
    }
    match interval_of(word) {
        None => None,
        Some(interval) => Some(Some(interval)),
    }
}

/// Yes or no.
fn yes_of(word: &[u8]) -> Option<bool>
    ensures { result ≡ yes_of word.now }
{
    if word == b"yes".as_slice() {
        return Some(true);
    }
    if word == b"no".as_slice() {
        return Some(false);
    }
    None
}

/// When lost segments are asked for.
fn nak_mode_of(word: &[u8]) -> Option<NakMode>
    ensures { result ≡ nak_mode_of word.now }
{
    match yes_of(word) {
        None => None,
        Some(true) => Some(NakMode::Immediate),
        Some(false) => Some(NakMode::Deferred),
    }
}

/// What is done at a fault.
fn handler_of(word: &[u8]) -> Option<Handler>
    ensures { result ≡ handler_of word.now }
{
    if word == b"cancel".as_slice() {
        return Some(Handler::Cancel);
    }
    if word == b"ignore".as_slice() {
        return Some(Handler::Ignore);
    }
    if word == b"abandon".as_slice() {
        return Some(Handler::Abandon);
    }
    None
}

impl Key {
    /// How it is spelled.
    pub fn spelling(self) -> &'static [u8]
        ensures { result.now ≡ key_text self }
    {
        match self {
            Key::AckInterval => b"ack-interval",
            Key::AckLimit => b"ack-limit",
            Key::OnAckLimit => b"on-ack-limit",
            Key::NakInterval => b"nak-interval",
            Key::NakLimit => b"nak-limit",
            Key::OnNakLimit => b"on-nak-limit",
            Key::CheckInterval => b"check-interval",
            Key::OnCheckLimit => b"on-check-limit",
            Key::Inactivity => b"inactivity",
            Key::OnInactivity => b"on-inactivity",
            Key::KeepAlive => b"keep-alive",
            Key::Immediate => b"immediate",
            Key::Crc => b"crc",
            Key::Longest => b"longest",
            Key::MostAhead => b"most-ahead",
        }
    }

    /// What a value of it has to be, in words.
    pub fn range(self) -> &'static [u8]
        ensures { result.now ≡ bounds_text self }
    {
        match self {
            Key::AckInterval => b"1 to 4294967295",
            Key::AckLimit => b"1 to 1000",
            Key::OnAckLimit => b"cancel, ignore or abandon",
            Key::NakInterval => b"1 to 4294967295",
            Key::NakLimit => b"1 to 1000",
            Key::OnNakLimit => b"cancel, ignore or abandon",
            Key::CheckInterval => b"1 to 4294967295",
            Key::OnCheckLimit => b"cancel, ignore or abandon",
            Key::Inactivity => b"1 to 4294967295",
            Key::OnInactivity => b"cancel, ignore or abandon",
            Key::KeepAlive => b"none or 1 to 4294967295",
            Key::Immediate => b"yes or no",
            Key::Crc => b"yes or no",
            Key::Longest => b"72 to 65535",
            Key::MostAhead => b"none or 1 to 4294967295",
        }
    }

    /// Sets it to the value that a word writes. Returns whether the word writes one that is in its range; else nothing
    /// is set.
    pub fn set(self, mib: &mut Mib, word: &[u8]) -> Option<()>
        ensures some { IfSome result (λ done. with_value mib.old self word.now ≡ Some mib.new) }
        ensures none { result ≡ None → with_value mib.old self word.now ≡ None }
        ensures unchanged { result ≡ None → mib.new ≡ mib.old }
    {
        match self {
            Key::AckInterval => mib.ack.interval = interval_of(word)?,
            Key::AckLimit => mib.ack.limit = limit_of(word)?,
            Key::OnAckLimit => mib.ack.at_limit = handler_of(word)?,
            Key::NakInterval => mib.nak.interval = interval_of(word)?,
            Key::NakLimit => mib.nak.limit = limit_of(word)?,
            Key::OnNakLimit => mib.nak.at_limit = handler_of(word)?,
            Key::CheckInterval => mib.check.interval = interval_of(word)?,
            Key::OnCheckLimit => mib.check.at_limit = handler_of(word)?,
            Key::Inactivity => mib.inactivity.interval = interval_of(word)?,
            Key::OnInactivity => mib.inactivity.at_limit = handler_of(word)?,
            Key::KeepAlive => mib.keep_alive = interval_or_none(word)?,
            Key::Immediate => mib.nak_mode = nak_mode_of(word)?,
            Key::Crc => mib.has_crc = yes_of(word)?,
            Key::Longest => mib.longest_nak = longest_of(word)?,
            Key::MostAhead => mib.most_ahead = interval_or_none(word)?,
        }
        Some(())
    }
}
