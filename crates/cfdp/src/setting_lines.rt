//! Parts of a plan or of a setup, and the lines that they are in.

use crate::end::End;
use std::alloc::Global;
use std::ops::Range;
use toml::{Table, Value};

/// The table that a key is in. Transactions count from 0.
#[derive(Clone, Copy, Debug)]
pub enum Owner {
    Entity,
    Mib,
    Transaction(usize),
}

/// A part of a plan or of a setup. Values count from 0.
#[derive(Debug, Drop)]
pub enum Part {
    /// The line that an octet is in.
    Octet(usize),
    /// A key of the plan itself.
    Top(String),
    /// A table.
    Table(Owner),
    /// A key of a table.
    Key(Owner, String),
    /// A value in the array at a key of a table.
    Item(Owner, String, usize),
}

/// What can be open where a plan is cut off after a line.
const CLOSINGS: [&[u8]; 6] = [b"", b"]", b"}", b"]}", b"}]", b"]}]"];

/// A table of a plan.
fn table(plan: &Table, owner: Owner) -> Option<&Value> {
    match owner {
        Owner::Entity => plan.get("entity"),
        Owner::Mib => plan.get("mib"),
        Owner::Transaction(number) => plan.get("transaction")?.as_array()?.get(number),
    }
}

/// The value at a key of a table of a plan.
fn value<'a>(plan: &'a Table, owner: Owner, key: &str) -> Option<&'a Value> {
    table(plan, owner)?.get(key)
}

/// Whether a plan has a part.
fn has(plan: &Table, part: &Part) -> bool {
    match part {
        Part::Octet(_) => false,
        Part::Top(key) => plan.get(key.as_str()).is_some(),
        Part::Table(owner) => table(plan, *owner).is_some(),
        Part::Key(owner, key) => value(plan, *owner, key.as_str()).is_some(),
        Part::Item(owner, key, item) => value(plan, *owner, key.as_str())
            .and_then(|items| items.get(*item))
            .is_some(),
    }
}

/// What a plan has that is cut off after a line.
enum Cut {
    /// It is no plan, also if what may be open is closed.
    Unreadable,
    /// It is a plan without the part.
    Lacks,
    /// It is a plan with the part.
    Has,
}

/// What the first octets of a plan have, once what is open is closed.
fn cut_at(alloc: Global, text: &[u8], end: usize, part: &Part) -> Result<Cut, End> {
    let mut octets = Vec::from_slice(alloc, text.get(..end).unwrap_or(text))?;
    let len = octets.len();
    for closing in CLOSINGS {
        octets.extend_from_slice(closing)?;
        let read = toml::table_from_slice(alloc, &octets);
        octets.truncate(len);
        match read {
            Ok(plan) if has(&plan, part) => return Ok(Cut::Has),
            Ok(_) => return Ok(Cut::Lacks),
            Err(error) if error.is_memory() => return Err(End::Memory),
            Err(_) => {}
        }
    }
    Ok(Cut::Unreadable)
}

/// The line of a plan, counted from 1, that an octet is in.
fn line_of_octet(text: &[u8], octet: usize) -> usize {
    let before = text.get(..octet).unwrap_or(text);
    let ends = before.iter().filter(|octet| **octet == b'\n').count();
    ends.saturating_add(1)
}

/// Where the lines of a text end, each after its newline, from the first line on; 0 comes before them.
fn line_ends(alloc: Global, text: &[u8]) -> Result<Vec<usize>, End> {
    let mut ends = Vec::new(alloc);
    ends.push(0)?;
    for (index, octet) in text.iter().enumerate() {
        if *octet == b'\n' {
            ends.push(index.saturating_add(1))?;
        }
    }
    if text.last().is_some_and(|octet| *octet != b'\n') {
        ends.push(text.len())?;
    }
    Ok(ends)
}

/// The first line from one on, and before another, after which a plan that is cut off can be read, and whether it has
/// the part.
fn first_cut(
    alloc: Global,
    text: &[u8],
    ends: &[usize],
    lines: Range<usize>,
    part: &Part,
) -> Result<Option<(usize, bool)>, End> {
    for line in lines {
        match cut_at(alloc, text, ends.get(line).copied().unwrap_or(0), part)? {
            Cut::Unreadable => {}
            Cut::Lacks => return Ok(Some((line, false))),
            Cut::Has => return Ok(Some((line, true))),
        }
    }
    Ok(None)
}

/// The line of a plan, counted from 1, in which a part is: the first one with which the plan has it. The lines are
/// halved again and again, so few of them are tried.
pub fn line_of(alloc: Global, text: &[u8], part: &Part) -> Result<usize, End> {
    if let Part::Octet(octet) = part {
        return Ok(line_of_octet(text, *octet));
    }
    let ends = line_ends(alloc, text)?;
    // The plan lacks the part after the line `lacks`, and has it after `found`. Between `end` and `found` it cannot be
    // read.
    let (mut lacks, mut end, mut found) = (0, ends.len(), ends.len().saturating_sub(1));
    for _ in 0..usize::BITS {
        let middle = lacks / 2 + end / 2 + (lacks % 2 + end % 2) / 2;
        if middle <= lacks {
            break;
        }
        match first_cut(alloc, text, &ends, middle..end, part)? {
            Some((line, false)) => lacks = line,
            Some((line, true)) => (end, found) = (middle, line),
            None => end = middle,
        }
    }
    Ok(found)
}
