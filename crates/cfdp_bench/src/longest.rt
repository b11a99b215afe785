//! The longest single calls: the EOF of a long file, its delete, its cancel, and the admission of a list that renames a
//! large directory.
use crate::fault::WorkloadFault;
use crate::names::spell;
use crate::pdus::{List, Sender};
use crate::pool::Pool;
use crate::random::Random;
use crate::receiver::{MeasuredEntity, size_of};
use cfdp_status::Action;
use std::alloc::Global;

const BLOCKS: u32 = 65_536;

const SENDER: u16 = 3;

/// How many lists rename the directory in a round.
const RENAMES: u32 = 6;

/// The entity, a directory with many entries, and what comes next.
#[derive(Drop)]
struct Longest {
    alloc: Global,
    random: Random,
    pool: Pool,
    receiver: MeasuredEntity,
    list: List,
    name: Vec<u8>,
    other: Vec<u8>,
    number: u32,
    /// How many names the directory had.
    renames: u32,
}

/// The whole workload. `scale` divides the sizes.
pub fn run(alloc: Global, rounds: u32, scale: u32, seed: u32) -> Result<u64, WorkloadFault> {
    let mut random = Random::new(u64::from(seed).wrapping_add(0x10_0000_0000));
    let pool = Pool::new(alloc, &mut random)?;
    let mut longest = Longest {
        alloc,
        random,
        pool,
        receiver: MeasuredEntity::new(alloc, BLOCKS)?,
        list: List::new(alloc),
        name: Vec::new(alloc),
        other: Vec::new(alloc),
        number: 0,
        renames: 0,
    };
    longest.set_up(2_048 / scale.max(1))?;
    for _ in 0..rounds {
        longest.round(scale.max(1))?;
    }
    Ok(longest.receiver.digest.value())
}

impl Longest {
    fn sender(&mut self) -> Sender {
        self.number = self.number.wrapping_add(1);
        Sender::new(SENDER, self.number)
    }

    fn send(&mut self) -> Result<(), WorkloadFault> {
        let sender = self.sender();
        self.receiver.list(sender, &self.list)?;
        self.list.clear();
        Ok(())
    }

    /// Spells the directory as it is named after this many renames.
    fn directory(out: &mut Vec<u8>, renames: u32) -> Result<(), WorkloadFault> {
        out.clear();
        spell(out, b"products-", renames, 4)
    }

    /// The directory and its entries are made.
    fn set_up(&mut self, entries: u32) -> Result<(), WorkloadFault> {
        Longest::directory(&mut self.name, 0)?;
        self.list.one(Action::CreateDirectory, &self.name)?;
        for entry in 0..entries {
            Longest::directory(&mut self.name, 0)?;
            spell(&mut self.name, b"/image-", entry, 5)?;
            self.list.one(Action::CreateFile, &self.name)?;
            if self.list.count >= 64 {
                self.send()?;
            }
        }
        self.send()
    }

    /// A list renames the directory, and makes and deletes a file in it.
    fn rename(&mut self) -> Result<(), WorkloadFault> {
        Longest::directory(&mut self.name, self.renames)?;
        self.renames = self.renames.wrapping_add(1);
        Longest::directory(&mut self.other, self.renames)?;
        self.list.two(Action::RenameFile, &self.name, &self.other)?;
        spell(&mut self.other, b"/index-", self.renames, 1)?;
        self.list.one(Action::CreateFile, &self.other)?;
        self.list.one(Action::DeleteFile, &self.other)?;
        self.send()
    }

    /// A file is delivered and deleted, another one is cancelled before its end, and the directory is renamed.
    fn round(&mut self, scale: u32) -> Result<(), WorkloadFault> {
        let size = (6_500_000 + self.random.below(1_000_000)) / scale.max(1);
        let pieces = self
            .pool
            .file(self.alloc, &mut self.random, size, 8_000, 60_000)?;
        let sender = self.sender();
        self.receiver
            .deliver(sender, &self.pool, &pieces, b"whole", &self.list)?;
        self.list.one(Action::DeleteFile, b"whole")?;
        self.send()?;
        let sender = self.sender();
        self.receiver
            .admit(sender, size_of(&pieces), b"whole", &self.list)?;
        for piece in pieces.iter().skip(1) {
            self.receiver.data(sender, &self.pool, *piece)?;
        }
        self.receiver.cancel(sender.id());
        self.receiver.take(sender.id())?;
        for _ in 0..RENAMES {
            self.rename()?;
        }
        Ok(())
    }
}
