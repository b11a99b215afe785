//! A table of a plan or of a setup, and its values by their keys.

use crate::setting_lines::{Owner, Part};
use cfdp_plans::read_path;
use std::alloc::{AllocError, AllocFailed, Global};
use std::ops::RangeInclusive;
use std::time::Duration;
use toml::{Table, Value};

/// Why a plan or a setup is not taken.
#[derive(Debug, Drop)]
pub enum PlanFault {
    /// Out of memory.
    Memory,
    /// What is wrong with a part.
    Wrong(Part, String),
}

impl From<AllocError> for PlanFault {
    fn from(_refused: AllocError) -> PlanFault {
        PlanFault::Memory
    }
}

impl<T: Drop> From<AllocFailed<T>> for PlanFault {
    fn from(_refused: AllocFailed<T>) -> PlanFault {
        PlanFault::Memory
    }
}

/// What a path is, for people.
const PATH: &str =
    "a path: 1 to 8 names of 1 to 96 octets with / between them, %XX for other octets than visible ASCII";

/// What a time is, for people.
const SECONDS: &str = "seconds from 0.001 to 4294967.295";

/// The milliseconds of a time in seconds, if there are 1 to 2^32 - 1.
fn millis_of(value: &Value) -> Option<u32> {
    let time = match value.as_integer() {
        Some(seconds) => Duration::from_secs(u64::try_from(seconds).ok()?),
        None => Duration::try_from_secs_f64(value.as_float()?).ok()?,
    };
    match u32::try_from(time.as_millis()) {
        Ok(millis) if millis > 0 => Some(millis),
        _ => None,
    }
}

/// A table of a plan or of a setup.
#[derive(Drop)]
pub struct Section<'a> {
    alloc: Global,
    table: &'a Table,
    owner: Owner,
}

impl<'a> Section<'a> {
    /// The entity.
    pub fn entity(alloc: Global, table: &'a Table) -> Section<'a> {
        Section {
            alloc,
            table,
            owner: Owner::Entity,
        }
    }

    /// What is left to management.
    pub fn mib(alloc: Global, table: &'a Table) -> Section<'a> {
        Section {
            alloc,
            table,
            owner: Owner::Mib,
        }
    }

    /// The transaction with a number, counted from 0.
    pub fn transaction(alloc: Global, table: &'a Table, number: usize) -> Section<'a> {
        Section {
            alloc,
            table,
            owner: Owner::Transaction(number),
        }
    }

    /// The part that a key is.
    fn part(&self, key: &str) -> Result<Part, AllocError> {
        Ok(Part::Key(self.owner, String::from_str(self.alloc, key)?))
    }

    /// That something else was expected at a key.
    pub fn expected(&self, key: &str, what: &str) -> PlanFault {
        match (
            self.part(key),
            format!(in self.alloc; "{key}: expected {what}"),
        ) {
            (Ok(part), Ok(text)) => PlanFault::Wrong(part, text),
            _ => PlanFault::Memory,
        }
    }

    /// That something is wrong with a key, or with the table where it lacks the key.
    pub fn wrong(&self, key: &str, what: &str) -> PlanFault {
        let part = match self.get(key) {
            Some(_) => self.part(key),
            None => Ok(Part::Table(self.owner)),
        };
        match (part, String::from_str(self.alloc, what)) {
            (Ok(part), Ok(text)) => PlanFault::Wrong(part, text),
            _ => PlanFault::Memory,
        }
    }

    /// That something else was expected in the array at a key.
    pub fn expected_item(&self, key: &str, item: usize, what: &str) -> PlanFault {
        let number = item.saturating_add(1);
        let text = format!(in self.alloc; "{key}, value {number}: {what}");
        match (String::from_str(self.alloc, key), text) {
            (Ok(key), Ok(text)) => PlanFault::Wrong(Part::Item(self.owner, key, item), text),
            _ => PlanFault::Memory,
        }
    }

    /// That each key is one of these.
    pub fn check_keys(&self, known: &[&str]) -> Result<(), PlanFault> {
        for key in self.table.keys() {
            if !known.iter().any(|known| *known == key.as_str()) {
                let part = self.part(key.as_str())?;
                let mut text = format!(in self.alloc; "unknown key '{key}': expected ")?;
                push_choice(known, &mut text)?;
                return Err(PlanFault::Wrong(part, text));
            }
        }
        Ok(())
    }

    /// The value at a key.
    pub fn get(&self, key: &str) -> Option<&'a Value> {
        self.table.get(key)
    }

    /// The number at a key, or another one without it.
    pub fn number(
        &self,
        key: &str,
        range: RangeInclusive<u64>,
        without: u64,
    ) -> Result<u64, PlanFault> {
        let (least, most) = (*range.start(), *range.end());
        let Some(value) = self.get(key) else {
            return Ok(without);
        };
        match value.as_integer().map(u64::try_from) {
            Some(Ok(number)) if least <= number && number <= most => Ok(number),
            _ => {
                let what = format!(in self.alloc; "a number from {least} to {most}")?;
                Err(self.expected(key, what.as_str()))
            }
        }
    }

    /// The time at a key, which has seconds, in milliseconds; or another one without it.
    pub fn millis(&self, key: &str, without: u32) -> Result<u32, PlanFault> {
        let Some(value) = self.get(key) else {
            return Ok(without);
        };
        match millis_of(value) {
            Some(millis) => Ok(millis),
            None => Err(self.expected(key, SECONDS)),
        }
    }

    /// The time at a key, in milliseconds, or `"none"`, as without it.
    pub fn millis_or_none(&self, key: &str) -> Result<Option<u32>, PlanFault> {
        let Some(value) = self.get(key) else {
            return Ok(None);
        };
        if value.as_str() == Some("none") {
            return Ok(None);
        }
        match millis_of(value) {
            Some(millis) => Ok(Some(millis)),
            None => {
                let what = format!(in self.alloc; "\"none\" or {SECONDS}")?;
                Err(self.expected(key, what.as_str()))
            }
        }
    }

    /// The flag at a key, which is `false` without it.
    pub fn flag(&self, key: &str) -> Result<bool, PlanFault> {
        let Some(value) = self.get(key) else {
            return Ok(false);
        };
        value.as_bool().ok_or(self.expected(key, "true or false"))
    }

    /// The text at a key, if there is one.
    pub fn text(&self, key: &str) -> Result<Option<&'a str>, PlanFault> {
        let Some(value) = self.get(key) else {
            return Ok(None);
        };
        match value.as_str() {
            Some(text) => Ok(Some(text)),
            None => Err(self.expected(key, "a text")),
        }
    }

    /// The octets of the path at a key, if there is one.
    pub fn path(&self, key: &str) -> Result<Option<Vec<u8>>, PlanFault> {
        let Some(text) = self.text(key)? else {
            return Ok(None);
        };
        match read_path(self.alloc, text.as_bytes())? {
            Some(octets) => Ok(Some(octets)),
            None => Err(self.expected(key, PATH)),
        }
    }

    /// The values of the array at a key; none without it.
    pub fn items(&self, key: &str) -> Result<&'a [Value], PlanFault> {
        let Some(value) = self.get(key) else {
            return Ok(&[]);
        };
        match value.as_array() {
            Some(items) => Ok(items),
            None => Err(self.expected(key, "an array")),
        }
    }

    /// The octets of the paths in the array at a key.
    pub fn paths(&self, key: &str) -> Result<Vec<Vec<u8>>, PlanFault> {
        let mut paths = Vec::new(self.alloc);
        for (number, item) in self.items(key)?.iter().enumerate() {
            let Some(text) = item.as_str() else {
                return Err(self.expected_item(key, number, "expected a text"));
            };
            let Some(octets) = read_path(self.alloc, text.as_bytes())? else {
                let what = format!(in self.alloc; "expected {PATH}")?;
                return Err(self.expected_item(key, number, what.as_str()));
            };
            paths.push(octets)?;
        }
        Ok(paths)
    }
}

/// Appends words with commas and an `or` between them.
fn push_choice(words: &[&str], text: &mut String) -> Result<(), AllocError> {
    let last = words.len().saturating_sub(1);
    for (number, word) in words.iter().enumerate() {
        if number > 0 {
            text.push_str(if number == last { " or " } else { ", " })?;
        }
        text.push_str(word)?;
    }
    Ok(())
}
