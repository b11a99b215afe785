//! One number for all results of a workload.
use cfdp_status::Status;
use cfdp_transactions::Reply;
use cfdp_verifier::{Place, Refusal};

/// A number that depends on all that was added, and on its order.
#[derive(Clone, Copy, Drop)]
pub struct Digest(u64);

impl Digest {
    /// Nothing was added yet.
    pub fn new() -> Digest {
        Digest(0xcbf2_9ce4_8422_2325)
    }

    /// The number.
    pub fn value(&self) -> u64 {
        self.0
    }

    /// Adds a number.
    pub fn add(&mut self, number: u64) {
        let mixed = (self.0 ^ number).wrapping_mul(0x9e37_79b9_7f4a_7c15);
        self.0 = mixed ^ (mixed >> 29);
    }

    /// Adds octets, and how many they are.
    pub fn add_octets(&mut self, octets: &[u8]) {
        self.add(octets.len() as u64);
        for octet in octets {
            self.0 = (self.0 ^ u64::from(*octet)).wrapping_mul(0x0000_0100_0000_01b3);
        }
    }

    /// Adds a few of the octets, and how many they are: the first and the last one, and every 61st between them.
    pub fn add_some(&mut self, octets: &[u8]) {
        self.add(octets.len() as u64);
        for octet in octets.iter().step_by(61).chain(octets.last()) {
            self.add(u64::from(*octet));
        }
    }

    /// Adds lines, each without its first word, so that their order makes no difference.
    pub fn add_lines(&mut self, text: &[u8]) {
        let mut sum = 0_u64;
        for line in text.split(|octet| *octet == b'\n') {
            sum = sum.wrapping_add(of_line(line));
        }
        self.add(sum);
    }

    /// Adds a reply. What an outcome says is in the octets of its Finished PDU.
    pub fn add_reply(&mut self, reply: &Reply) {
        match reply {
            Reply::Admitted(blocks, steps) => self.add_three(
                1,
                u64::from(*blocks),
                u64::from(*steps),
            ),
            Reply::Refused(refusal) => self.add_refusal(refusal),
            Reply::Stored => self.add(3),
            Reply::Dropped => self.add(4),
            Reply::Complete => self.add(5),
            Reply::Waiting => self.add(6),
            Reply::Faulted(condition) => self.add_three(7, u64::from(*condition), 0),
            Reply::Performed(status) => self.add_three(8, code(*status), 0),
            Reply::Installed => self.add(9),
            Reply::Done => self.add(10),
            Reply::Cancelled => self.add(11),
            Reply::Taken(_) => self.add(12),
            Reply::Duplicate => self.add(13),
            Reply::Unknown => self.add(14),
            Reply::Idle => self.add(15),
            Reply::NotForUs => self.add(16),
            Reply::TableFull => self.add(17),
            Reply::Memory => self.add(18),
            Reply::JournalFull => self.add(19),
        }
    }

    fn add_refusal(&mut self, refusal: &Refusal) {
        match refusal {
            Refusal::TooManyRequests => self.add(21),
            Refusal::BadPath(Place::Destination) => self.add(22),
            Refusal::BadPath(Place::Request(number)) => self.add_three(23, u64::from(*number), 0),
            Refusal::Conflict(id) => self.add_three(24, id.source, id.number),
            Refusal::DestinationNotAllowed => self.add(25),
            Refusal::WouldFail(number, status) => {
                self.add_three(26, u64::from(*number), code(*status));
            }
            Refusal::TooLong(steps) => self.add_three(27, u64::from(*steps), 0),
            Refusal::NoRoom(need, spare) => self.add_three(28, u64::from(*need), u64::from(*spare)),
        }
    }

    fn add_three(&mut self, first: u64, second: u64, third: u64) {
        self.add(first);
        self.add(second);
        self.add(third);
    }
}

/// The number of a status.
fn code(status: Status) -> u64 {
    u64::from(status.octet())
}

/// The number of a line, without its first word.
fn of_line(line: &[u8]) -> u64 {
    let mut digest = Digest::new();
    let mut is_first = true;
    for octet in line {
        if !is_first {
            digest.0 = (digest.0 ^ u64::from(*octet)).wrapping_mul(0x0000_0100_0000_01b3);
        }
        is_first = is_first && *octet != b' ';
    }
    digest.0
}
