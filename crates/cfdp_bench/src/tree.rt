//! What the sender knows of the filestore, and the lists of requests that it makes of it.
use crate::fault::WorkloadFault;
use crate::names::{Shape, spell};
use crate::pdus::List;
use crate::random::Random;
use cfdp_status::Action;
use std::alloc::Global;

/// The file that others are appended to from, which is always there.
pub const SOURCE: &[u8] = b"src";

/// Files with numbers from `low` on, up to `high`, spread over directories.
#[derive(Drop)]
pub struct Tree {
    shape: Shape,
    directories: u32,
    low: u32,
    high: u32,
    /// How many names were used for a short time.
    spare: u32,
    first: Vec<u8>,
    second: Vec<u8>,
}

impl Tree {
    /// No files.
    pub fn new(alloc: Global, shape: Shape, directories: u32) -> Tree {
        Tree {
            shape,
            directories: directories.max(1),
            low: 0,
            high: 0,
            spare: 0,
            first: Vec::new(alloc),
            second: Vec::new(alloc),
        }
    }

    /// How many files there are.
    fn count(&self) -> u32 {
        self.high.saturating_sub(self.low)
    }

    fn file(
        shape: Shape,
        directories: u32,
        out: &mut Vec<u8>,
        number: u32,
    ) -> Result<(), WorkloadFault> {
        shape.file(out, number % directories.max(1), number)
    }

    /// Adds a request on the file with this number.
    fn one(&mut self, list: &mut List, action: Action, number: u32) -> Result<(), WorkloadFault> {
        Tree::file(self.shape, self.directories, &mut self.first, number)?;
        list.one(action, &self.first)
    }

    /// Adds a request on two files.
    fn two(
        &mut self,
        list: &mut List,
        action: Action,
        first: u32,
        second: u32,
    ) -> Result<(), WorkloadFault> {
        Tree::file(self.shape, self.directories, &mut self.first, first)?;
        Tree::file(self.shape, self.directories, &mut self.second, second)?;
        list.two(action, &self.first, &self.second)
    }

    /// Spells a name that was not used before, in one of the directories.
    fn spell_spare(&mut self) -> Result<(), WorkloadFault> {
        self.spare = self.spare.wrapping_add(1);
        let directory = self.spare % self.directories.max(1);
        self.shape.directory(&mut self.first, directory)?;
        spell(&mut self.first, b"/spare", self.spare, 1)
    }

    /// Spells the directory with this number.
    pub fn directory(&mut self, directory: u32) -> Result<&[u8], WorkloadFault> {
        self.shape.directory(&mut self.first, directory)?;
        Ok(&self.first)
    }

    /// Adds a request that makes a directory of the shape: first those above all, then the others.
    pub fn make_directory(&mut self, list: &mut List, index: u32) -> Result<(), WorkloadFault> {
        let above = self.shape.above();
        match above.get(index as usize) {
            Some(name) => list.one(Action::CreateDirectory, name),
            None => {
                let directory = index.saturating_sub(self.shape.count_above());
                self.shape.directory(&mut self.first, directory)?;
                list.one(Action::CreateDirectory, &self.first)
            }
        }
    }

    /// How many requests make all directories.
    pub fn directories(&self) -> u32 {
        self.directories.saturating_add(self.shape.count_above())
    }

    /// Adds a request that makes a file.
    pub fn create(&mut self, list: &mut List) -> Result<(), WorkloadFault> {
        let number = self.high;
        self.high = self.high.wrapping_add(1);
        self.one(list, Action::CreateFile, number)
    }

    fn delete(&mut self, list: &mut List, action: Action) -> Result<(), WorkloadFault> {
        let number = self.low;
        self.low = self.low.wrapping_add(1);
        self.one(list, action, number)
    }

    fn rename(&mut self, list: &mut List) -> Result<(), WorkloadFault> {
        let (old, new) = (self.low, self.high);
        self.low = self.low.wrapping_add(1);
        self.high = self.high.wrapping_add(1);
        self.two(list, Action::RenameFile, old, new)
    }

    /// Adds requests that make a directory and remove it.
    fn directory_for_a_while(&mut self, list: &mut List) -> Result<(), WorkloadFault> {
        self.spell_spare()?;
        list.one(Action::CreateDirectory, &self.first)?;
        list.one(Action::RemoveDirectory, &self.first)
    }

    /// Adds `count` requests that are all successful, so that about `target` files are there after them.
    pub fn mixed(
        &mut self,
        random: &mut Random,
        list: &mut List,
        count: u32,
        target: u32,
    ) -> Result<(), WorkloadFault> {
        for _ in 0..count {
            if list.count >= count {
                break;
            }
            let last = self.high.wrapping_sub(1);
            match random.below(20) {
                0..=5 if self.count() < target.saturating_add(64) => self.create(list)?,
                0..=5 => self.delete(list, Action::DeleteFile)?,
                6..=10 if self.count() > 2 => self.rename(list)?,
                11..=13 if self.count() > target => self.delete(list, Action::DeleteFile)?,
                14 if self.count() > 2 => {
                    Tree::file(self.shape, self.directories, &mut self.first, last)?;
                    list.two(Action::AppendFile, &self.first, SOURCE)?;
                }
                15 if self.count() > 4 => self.two(list, Action::ReplaceFile, last, self.low)?,
                16 if self.count() > 4 => {
                    self.two(list, Action::AppendFile, last.wrapping_sub(1), last)?;
                }
                17 if self.count() > target => self.delete(list, Action::DenyFile)?,
                18 if list.count.saturating_add(2) <= count => self.directory_for_a_while(list)?,
                19 => {
                    self.spell_spare()?;
                    list.one(Action::DenyDirectory, &self.first)?;
                }
                _ => self.create(list)?,
            }
        }
        Ok(())
    }

    /// Adds requests that make files, none of which is counted.
    pub fn creates(&mut self, list: &mut List, count: u32) -> Result<(), WorkloadFault> {
        for _ in 0..count {
            self.spell_spare()?;
            list.one(Action::CreateFile, &self.first)?;
        }
        Ok(())
    }

    /// Adds a request to delete a file that is not there.
    pub fn delete_nothing(&mut self, list: &mut List) -> Result<(), WorkloadFault> {
        self.spell_spare()?;
        list.one(Action::DeleteFile, &self.first)
    }
}
