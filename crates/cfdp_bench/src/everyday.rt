//! What the other workloads leave out: deep paths with long names, a directory that was filled in random order,
//! requests alone, small filestores, short and long file data, spaces, and reading back what came.
use crate::deep::{CHAINS, Chain};
use crate::digest::Digest;
use crate::fault::WorkloadFault;
use crate::names::spell;
use crate::pdus::{List, Sender};
use crate::pool::{Pool, push_hex};
use crate::random::Random;
use crate::receiver::MeasuredEntity;
use crate::sessions::ShortScripts;
use cfdp_sim::plain_text;
use cfdp_status::Action;
use std::alloc::Global;

const SENDER: u16 = 8;

/// The least sizes of the files that are delivered and read back in each round, in octets.
static SIZES: [u32; 8] = [
    10_000, 20_000, 40_000, 80_000, 160_000, 320_000, 640_000, 990_000,
];

/// How many files each list on deep paths makes.
const MADE: u32 = 6;

/// How many lists of requests each script of `plain` has.
const LISTS: u32 = 24;

/// The entities and what they were sent.
#[derive(Drop)]
struct Everyday {
    alloc: Global,
    random: Random,
    pool: Pool,
    /// The entity that files are delivered to and read back from.
    files: MeasuredEntity,
    /// The entity with a large directory.
    catalog: MeasuredEntity,
    list: List,
    first: Vec<u8>,
    second: Vec<u8>,
    number: u32,
    /// How many names the large directory had.
    renames: u32,
    digest: Digest,
}

/// The whole workload. `scale` divides the sizes.
pub fn run(alloc: Global, rounds: u32, scale: u32, seed: u32) -> Result<u64, WorkloadFault> {
    let mut random = Random::new(u64::from(seed).wrapping_add(0x60_0000_0000));
    let pool = Pool::new(alloc, &mut random)?;
    let mut everyday = Everyday {
        alloc,
        random,
        pool,
        files: MeasuredEntity::new(alloc, 65_536)?,
        catalog: MeasuredEntity::new(alloc, 16_384)?,
        list: List::new(alloc),
        first: Vec::new(alloc),
        second: Vec::new(alloc),
        number: 0,
        renames: 0,
        digest: Digest::new(),
    };
    let mut sessions = ShortScripts::new(alloc);
    everyday.make_directories()?;
    everyday.fill_catalog(2_048 / scale.max(1))?;
    for round in 0..rounds {
        everyday.round(round, scale.max(1))?;
        let random = &mut everyday.random;
        sessions.run(&everyday.pool, random, &mut everyday.digest, scale.max(1))?;
    }
    everyday.digest.add(everyday.files.digest.value());
    everyday.digest.add(everyday.catalog.digest.value());
    Ok(everyday.digest.value())
}

impl Everyday {
    fn sender(&mut self) -> Sender {
        self.number = self.number.wrapping_add(1);
        Sender::new(SENDER, self.number)
    }

    /// The list is sent to the entity with files, and performed.
    fn send(&mut self) -> Result<(), WorkloadFault> {
        let sender = self.sender();
        self.files.list(sender, &self.list)?;
        self.list.clear();
        Ok(())
    }

    /// The list is sent to the entity with the large directory, and performed.
    fn send_to_catalog(&mut self) -> Result<(), WorkloadFault> {
        let sender = self.sender();
        self.catalog.list(sender, &self.list)?;
        self.list.clear();
        Ok(())
    }

    /// The directories of the deep paths are made.
    fn make_directories(&mut self) -> Result<(), WorkloadFault> {
        for chain in &CHAINS {
            for names in 1..chain.depth {
                chain.directory(&mut self.first, names)?;
                self.list.one(Action::CreateDirectory, &self.first)?;
            }
            self.send()?;
        }
        Ok(())
    }

    /// The large directory is made, and its entries in random order.
    fn fill_catalog(&mut self, entries: u32) -> Result<(), WorkloadFault> {
        let mut order = Vec::new(self.alloc);
        for entry in 0..entries {
            order.push(entry)?;
        }
        for entry in 0..entries {
            let index = entry as usize;
            let other = self.random.below(entry.saturating_add(1)) as usize;
            if index < order.len() && other < order.len() {
                order.swap(index, other);
            }
        }
        self.list.one(Action::CreateDirectory, b"catalog-0000")?;
        for entry in order {
            self.first.clear();
            spell(&mut self.first, b"catalog-0000/image-", entry, 5)?;
            self.list.one(Action::CreateFile, &self.first)?;
            if self.list.count >= 64 {
                self.send_to_catalog()?;
            }
        }
        self.send_to_catalog()
    }

    /// Each kind of work once.
    fn round(&mut self, round: u32, scale: u32) -> Result<(), WorkloadFault> {
        for chain in &CHAINS {
            self.change_deep(chain)?;
        }
        self.rename_catalog()?;
        self.perform_requests(scale)?;
        self.deliver(round, scale)?;
        self.files.list_all()?;
        for number in 0..8_u32 {
            // The two longest files are read back in one of three rounds.
            if number < 6 || round.wrapping_add(number) % 3 == 0 {
                CHAINS[0].file(&mut self.first, b"delivered-", number)?;
                self.files.read_back(&self.first)?;
            }
        }
        Ok(())
    }

    /// A list makes files on deep paths, and deletes them; those of the first chain are renamed before.
    fn change_deep(&mut self, chain: &Chain) -> Result<(), WorkloadFault> {
        for number in 0..MADE {
            chain.file(&mut self.first, b"made-", number)?;
            self.list.one(Action::CreateFile, &self.first)?;
        }
        for number in 0..MADE {
            chain.file(&mut self.first, b"made-", number)?;
            chain.file(&mut self.second, b"kept-", number)?;
            if self.first.len().saturating_add(self.second.len()) <= 252 {
                self.list
                    .two(Action::RenameFile, &self.first, &self.second)?;
                self.list.one(Action::DeleteFile, &self.second)?;
            } else {
                self.list.one(Action::DeleteFile, &self.first)?;
                self.list.one(Action::DenyFile, &self.second)?;
            }
        }
        self.send()
    }

    /// The large directory gets another name.
    fn rename_catalog(&mut self) -> Result<(), WorkloadFault> {
        self.first.clear();
        spell(&mut self.first, b"catalog-", self.renames, 4)?;
        self.renames = self.renames.wrapping_add(1);
        self.second.clear();
        spell(&mut self.second, b"catalog-", self.renames, 4)?;
        self.list
            .two(Action::RenameFile, &self.first, &self.second)?;
        self.send_to_catalog()
    }

    /// `plain` performs lists of mixed requests, of which some are not successful.
    fn perform_requests(&mut self, scale: u32) -> Result<(), WorkloadFault> {
        let mut script = Vec::new(self.alloc);
        for _ in 0..(LISTS / scale.max(1)).max(1) {
            for _ in 0..24 {
                self.write_request()?;
                push_hex(&mut script, &self.list.octets)?;
                self.list.clear();
                script.push(b'\n')?;
            }
            script.push(b'\n')?;
        }
        let text = plain_text(self.alloc, &script)?;
        self.digest.add_octets(&text);
        Ok(())
    }

    /// Writes a request of one of the nine actions on a few names.
    fn write_request(&mut self) -> Result<(), WorkloadFault> {
        spell_some(&mut self.random, &mut self.first)?;
        spell_some(&mut self.random, &mut self.second)?;
        let directory = self
            .first
            .split(|octet| *octet == b'/')
            .next()
            .unwrap_or(&[]);
        match self.random.below(12) {
            0..=2 => self.list.one(Action::CreateFile, &self.first),
            3 => self.list.one(Action::DeleteFile, &self.first),
            4 => self.list.two(Action::RenameFile, &self.first, &self.second),
            5 => self.list.two(Action::AppendFile, &self.first, &self.second),
            6 => self
                .list
                .two(Action::ReplaceFile, &self.first, &self.second),
            7..=8 => self.list.one(Action::CreateDirectory, directory),
            9 => self.list.one(Action::RemoveDirectory, directory),
            10 => self.list.one(Action::DenyFile, &self.first),
            _ => self.list.one(Action::DenyDirectory, directory),
        }
    }

    /// Files of 10 KB to 1 MB are delivered, in file data of 64 octets, of about 1,000, and of 65,000.
    fn deliver(&mut self, round: u32, scale: u32) -> Result<(), WorkloadFault> {
        for (index, least) in SIZES.iter().enumerate() {
            let number = index as u32;
            let size = least.saturating_add(self.random.below(10_000)) / scale.max(1);
            let (low, high) = match (round.wrapping_add(number)) % 4 {
                0 if size < 100_000 => (64, 64),
                1 => (65_000, 65_000),
                _ => (900, 1_000),
            };
            let pieces = self
                .pool
                .file(self.alloc, &mut self.random, size, low, high)?;
            CHAINS[0].file(&mut self.first, b"delivered-", number)?;
            let sender = self.sender();
            let receiver = &mut self.files;
            receiver.deliver(sender, &self.pool, &pieces, &self.first, &self.list)?;
        }
        Ok(())
    }
}

/// Spells one of twelve files.
fn spell_some(random: &mut Random, out: &mut Vec<u8>) -> Result<(), WorkloadFault> {
    out.clear();
    spell(out, b"directory-", random.below(3), 1)?;
    spell(out, b"/file-", random.below(4), 1)
}
