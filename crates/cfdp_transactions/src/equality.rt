//! Whether two events, or two replies, are the same.

ghost use Rattle.std.specs.Prelude.{◌≡◌, ◌↔◌, IsTrue};

use crate::event::Event;
use crate::outcome::Outcome;
use crate::reply::Reply;
use cfdp_pdus::{Finished, Metadata};

/// Whether two Metadata PDUs say the same.
fn same_metadata(metadata: &Metadata, other: &Metadata) -> bool
    ensures { IsTrue result ↔ (metadata.now ≡ other.now) }
{
    metadata == other
}

/// Whether two Finished PDUs say the same.
fn same_finished(finished: &Finished, other: &Finished) -> bool
    ensures { IsTrue result ↔ (finished.now ≡ other.now) }
{
    finished == other
}

/// Whether two outcomes say the same to the sender, whatever their headers are.
fn have_same_finished(a: &Outcome, b: &Outcome) -> bool
    ensures { IsTrue result ↔ ((a.now.finished ≡ b.now.finished) × (a.now.send ≡ b.now.send)) }
{
    a.send == b.send && same_finished(&a.finished, &b.finished)
}

/// Whether two outcomes are the same.
fn same_outcome(a: &Outcome, b: &Outcome) -> bool
    ensures { IsTrue result ↔ (a.now ≡ b.now) }
{
    a.header == b.header && have_same_finished(a, b)
}

impl Event {
    /// Whether two events are the same: of one kind, with everything in them equal. Takes no memory. Cost: the octets
    /// that both have, up to the first difference.
    pub fn same(&self, other: &Event) -> bool
        ensures { IsTrue result ↔ (self.now ≡ other.now) }
    {
        match self {
            Event::Metadata(h, a) => {
                matches!(other, Event::Metadata(k, b) if h == k && same_metadata(a, b))
            }
            Event::Data(h, a) => matches!(other, Event::Data(k, b) if h == k && a == b),
            Event::Eof(h, a) => matches!(other, Event::Eof(k, b) if h == k && a == b),
            Event::Step(a) => matches!(other, Event::Step(b) if a == b),
            Event::Cancel(a) => matches!(other, Event::Cancel(b) if a == b),
            Event::Check(a) => matches!(other, Event::Check(b) if a == b),
            Event::Take(a) => matches!(other, Event::Take(b) if a == b),
        }
    }
}

impl Reply {
    /// Whether two replies are the same: of one kind, with everything in them equal, however many share an outcome.
    /// Takes no memory. Cost: the octets that both have, up to the first difference.
    pub fn same(&self, other: &Reply) -> bool
        ensures { IsTrue result ↔ (self.now ≡ other.now) }
    {
        match self {
            Reply::Admitted(blocks, steps) => {
                matches!(other, Reply::Admitted(b, s) if blocks == b && steps == s)
            }
            Reply::Refused(a) => matches!(other, Reply::Refused(b) if a == b),
            Reply::Faulted(a) => matches!(other, Reply::Faulted(b) if a == b),
            Reply::Performed(a) => matches!(other, Reply::Performed(b) if a == b),
            Reply::Taken(a) => {
                matches!(other, Reply::Taken(b) if same_outcome(a.outcome(), b.outcome()))
            }
            Reply::Stored => matches!(other, Reply::Stored),
            Reply::Dropped => matches!(other, Reply::Dropped),
            Reply::Complete => matches!(other, Reply::Complete),
            Reply::Waiting => matches!(other, Reply::Waiting),
            Reply::Installed => matches!(other, Reply::Installed),
            Reply::Done => matches!(other, Reply::Done),
            Reply::Cancelled => matches!(other, Reply::Cancelled),
            Reply::Duplicate => matches!(other, Reply::Duplicate),
            Reply::Unknown => matches!(other, Reply::Unknown),
            Reply::Idle => matches!(other, Reply::Idle),
            Reply::NotForUs => matches!(other, Reply::NotForUs),
            Reply::TableFull => matches!(other, Reply::TableFull),
            Reply::Memory => matches!(other, Reply::Memory),
            Reply::JournalFull => matches!(other, Reply::JournalFull),
        }
    }
}
