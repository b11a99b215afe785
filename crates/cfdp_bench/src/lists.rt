//! Command lists by the thousand, over octets in memory.
use crate::digest::Digest;
use crate::fault::WorkloadFault;
use crate::names::{Shape, spell};
use crate::pdus::{List, Sender};
use crate::pool::Pool;
use crate::random::Random;
use crate::receiver::MeasuredEntity;
use crate::tree::{SOURCE, Tree};
use cfdp_status::Action;
use cfdp_transactions::Reply;
use cfdp_verifier::Refusal;
use std::alloc::Global;

/// How many blocks the filestore has.
const BLOCKS: u32 = 65_536;

/// A file that fills the whole filestore, in octets.
const WHOLE: u32 = 7_864_320;

/// The sender of the lists, and that of the transactions which are live beside them.
const SENDER: u16 = 7;

const HOLDER: u16 = 9;

/// Why a list is refused.
#[derive(Clone, Copy)]
enum Reason {
    TooManyRequests,
    BadPath,
    Conflict,
    DestinationNotAllowed,
    WouldFail,
    TooLong,
    NoRoom,
}

static REASONS: [Reason; 7] = [
    Reason::TooManyRequests,
    Reason::BadPath,
    Reason::Conflict,
    Reason::DestinationNotAllowed,
    Reason::WouldFail,
    Reason::TooLong,
    Reason::NoRoom,
];

impl Reason {
    /// Whether a reply refuses a list for this reason.
    fn is_of(self, reply: &Reply) -> bool {
        let Reply::Refused(refusal) = reply else {
            return false;
        };
        match self {
            Reason::TooManyRequests => matches!(refusal, Refusal::TooManyRequests),
            Reason::BadPath => matches!(refusal, Refusal::BadPath(_)),
            Reason::Conflict => matches!(refusal, Refusal::Conflict(_)),
            Reason::DestinationNotAllowed => matches!(refusal, Refusal::DestinationNotAllowed),
            Reason::WouldFail => matches!(refusal, Refusal::WouldFail(..)),
            Reason::TooLong => matches!(refusal, Refusal::TooLong(_)),
            Reason::NoRoom => matches!(refusal, Refusal::NoRoom(..)),
        }
    }
}

/// A filestore and what is live over it.
#[derive(Clone, Copy)]
struct Setting {
    shape: Shape,
    directories: u32,
    files: u32,
    live: u32,
    /// How many requests each of the live transactions has.
    held: u32,
}

/// From a few files in one directory to 30,000 in many, with none to 63 other transactions live.
static SETTINGS: [Setting; 4] = [
    Setting {
        shape: Shape::Short,
        directories: 1,
        files: 64,
        live: 0,
        held: 0,
    },
    Setting {
        shape: Shape::Short,
        directories: 64,
        files: 2_000,
        live: 31,
        held: 8,
    },
    Setting {
        shape: Shape::Long,
        directories: 1,
        files: 8_000,
        live: 7,
        held: 32,
    },
    Setting {
        shape: Shape::Long,
        directories: 128,
        files: 30_000,
        live: 63,
        held: 16,
    },
];

/// The whole workload: in each setting this many lists, one in eight of which is refused. `scale` divides the number of
/// files.
pub fn run(alloc: Global, rounds: u32, scale: u32, seed: u32) -> Result<u64, WorkloadFault> {
    let mut digest = Digest::new();
    for (index, setting) in SETTINGS.iter().enumerate() {
        let random = Random::new(u64::from(seed).wrapping_mul(8).wrapping_add(index as u64));
        let mut setting = *setting;
        setting.files /= scale.max(1);
        let mut lists = Lists::new(alloc, setting, random)?;
        lists.set_up()?;
        for round in 0..rounds {
            lists.round(round)?;
        }
        lists.release()?;
        digest.add(lists.receiver.digest.value());
    }
    Ok(digest.value())
}

/// One setting on its way.
#[derive(Drop)]
struct Lists {
    alloc: Global,
    setting: Setting,
    random: Random,
    pool: Pool,
    receiver: MeasuredEntity,
    tree: Tree,
    list: List,
    name: Vec<u8>,
    number: u32,
}

impl Lists {
    fn new(alloc: Global, setting: Setting, random: Random) -> Result<Lists, WorkloadFault> {
        let mut random = random;
        let pool = Pool::new(alloc, &mut random)?;
        Ok(Lists {
            alloc,
            setting,
            random,
            pool,
            receiver: MeasuredEntity::new(alloc, BLOCKS)?,
            tree: Tree::new(alloc, setting.shape, setting.directories),
            list: List::new(alloc),
            name: Vec::new(alloc),
            number: 0,
        })
    }

    fn sender(&mut self) -> Sender {
        self.number = self.number.wrapping_add(1);
        Sender::new(SENDER, self.number)
    }

    /// The list is sent and performed.
    fn send(&mut self) -> Result<(), WorkloadFault> {
        let sender = self.sender();
        self.receiver.list(sender, &self.list)?;
        self.list.clear();
        Ok(())
    }

    /// The list is sent if it is full.
    fn send_if_full(&mut self) -> Result<(), WorkloadFault> {
        if self.list.count >= 64 {
            self.send()
        } else {
            Ok(())
        }
    }

    /// The directories and files of the setting are made, and the transactions that stay live are admitted.
    fn set_up(&mut self) -> Result<(), WorkloadFault> {
        self.list.one(Action::CreateDirectory, b"held")?;
        for index in 0..self.tree.directories() {
            self.tree.make_directory(&mut self.list, index)?;
            self.send_if_full()?;
        }
        for _ in 0..self.setting.files {
            self.tree.create(&mut self.list)?;
            self.send_if_full()?;
        }
        self.send()?;
        self.deliver_source()?;
        for number in 0..self.setting.live {
            self.hold(number, self.setting.held)?;
        }
        Ok(())
    }

    /// The file that others are appended to from is delivered.
    fn deliver_source(&mut self) -> Result<(), WorkloadFault> {
        let sender = self.sender();
        let random = &mut self.random;
        let pieces = self.pool.file(self.alloc, random, 600, 200, 400)?;
        let receiver = &mut self.receiver;
        receiver.deliver(sender, &self.pool, &pieces, SOURCE, &self.list)
    }

    /// Spells a name that a live transaction leases.
    fn spell_held(&mut self, number: u32, index: u32) -> Result<(), WorkloadFault> {
        self.name.clear();
        spell(&mut self.name, b"held/by-", number, 2)?;
        spell(&mut self.name, b"-", index, 2)
    }

    /// A transaction with `held` requests is admitted, and stays live.
    fn hold(&mut self, number: u32, held: u32) -> Result<(), WorkloadFault> {
        for index in 0..held {
            self.spell_held(number, index)?;
            self.list.one(Action::CreateFile, &self.name)?;
        }
        let sender = Sender::new(HOLDER, number);
        self.receiver.admit(sender, 0, b"", &self.list)?;
        self.list.clear();
        Ok(())
    }

    /// A live transaction is cancelled and taken.
    fn drop_held(&mut self, number: u32) -> Result<(), WorkloadFault> {
        let id = Sender::new(HOLDER, number).id();
        self.receiver.cancel(id);
        self.receiver.take(id)
    }

    /// The live transactions are cancelled and taken.
    fn release(&mut self) -> Result<(), WorkloadFault> {
        for number in 0..self.setting.live {
            self.drop_held(number)?;
        }
        Ok(())
    }

    /// One list.
    fn round(&mut self, round: u32) -> Result<(), WorkloadFault> {
        let count = 8 + self.random.below(57);
        if round % 8 == 7 {
            return self.refused(REASONS[(round / 8 % 7) as usize], count);
        }
        self.tree.mixed(&mut self.random, &mut self.list, count, self.setting.files)?;
        self.send()
    }

    /// A list that is refused for this reason. Where no transaction stays live, one is live during a conflict.
    fn refused(&mut self, reason: Reason, count: u32) -> Result<(), WorkloadFault> {
        let is_held = matches!(reason, Reason::Conflict) && self.setting.live == 0;
        if is_held {
            self.hold(0, 1)?;
        }
        self.name.clear();
        let size = self.write_refused(reason, count)?;
        let sender = self.sender();
        let reply = self.receiver.begin(sender, size, &self.name, &self.list)?;
        if !reason.is_of(&reply) {
            return Err(WorkloadFault::Verdict);
        }
        self.list.clear();
        self.receiver.cancel(sender.id());
        self.receiver.take(sender.id())?;
        if is_held {
            self.drop_held(0)?;
        }
        Ok(())
    }

    /// Writes a list that is refused for this reason, and the name of its file, if it has one. Returns the file's size.
    fn write_refused(&mut self, reason: Reason, count: u32) -> Result<u32, WorkloadFault> {
        match reason {
            Reason::TooManyRequests => self.tree.creates(&mut self.list, 65)?,
            Reason::BadPath => {
                self.tree.creates(&mut self.list, count.saturating_sub(1))?;
                self.list.one(Action::CreateFile, b"a//b")?;
            }
            Reason::Conflict => {
                self.spell_held(0, 0)?;
                self.tree.creates(&mut self.list, count.saturating_sub(1))?;
                self.list.one(Action::DenyFile, &self.name)?;
                self.name.clear();
            }
            Reason::DestinationNotAllowed => {
                self.name.extend_from_slice(self.tree.directory(0)?)?;
                self.tree.creates(&mut self.list, count.min(4))?;
                return Ok(1_000);
            }
            Reason::WouldFail => {
                self.tree.creates(&mut self.list, count.saturating_sub(1))?;
                self.tree.delete_nothing(&mut self.list)?;
            }
            Reason::TooLong => {
                self.name.extend_from_slice(b"whole")?;
                self.list.one(Action::DeleteFile, b"whole")?;
                return Ok(WHOLE);
            }
            Reason::NoRoom => {
                self.name.extend_from_slice(b"whole")?;
                return Ok(WHOLE);
            }
        }
        Ok(0)
    }
}
