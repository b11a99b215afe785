//! The table of a list of items.

ghost use Rattle.std.specs.Prelude.{◌≡◌, ◌-◌, ◌+◌, ◌<◌, ◌^◌, ◌++◌, ◌∷◌, [], OnOk, length, map, vec_len};
ghost use Rattle.std.specs.Option.{option_copied};
ghost use Rattle.cfdp_actions.specs.Actions.{Install, Perform};
ghost use Rattle.cfdp_leases.specs.Items.{items_of};
ghost use Rattle.cfdp_paths.specs.Paths.{joined};
ghost use Rattle.cfdp_verdicts.specs.Tables.{heading, item_words, numbers_text, padded, paths_words, row_text, rows_text, table_text};
ghost use Rattle.cfdp_texts.specs.Replies.{shown};
ghost use Rattle.cfdp_verdicts.specs.Words.{grouped};

use crate::costing::Cost;
use crate::numbers::push_grouped;
use crate::requests::push_acted;
use cfdp_actions::Request;
use cfdp_paths::Path;
use cfdp_status::Action;
use cfdp_texts::{push_labelled, push_shown};
use std::alloc::{AllocError, Global};

/// How many octets a number has at least, with the spaces before it.
const WIDTH: usize = 14;

/// Appends a number in decimal with commas, and spaces before it.
#[tactic(auto, unfolding(crate::specs::Tables::padded))]
fn push_padded(alloc: Global, number: u32, text: &mut Vec<u8>) -> Result<(), AllocError>
    ensures { OnOk result (text.new.items ≡ text.old.items ++ padded 14 (grouped number)) }
{
    let mut digits = Vec::new(alloc);
    push_grouped(u64::from(number), &mut digits)?;
    let missing = WIDTH.saturating_sub(digits.len());
    let len = text.len().checked_add(missing).ok_or(AllocError)?;
    text.resize(len, b' ')?;
    text.extend_from_slice(&digits)
}

/// Appends the steps of an item before which the list takes `before` steps, and the blocks up to and with it.
#[tactic(auto, unfolding(crate::specs::Tables::numbers_text))]
fn push_numbers(
    alloc: Global,
    before: u32,
    cost: Cost,
    text: &mut Vec<u8>,
) -> Result<(), AllocError>
    ensures { OnOk result (text.new.items ≡ text.old.items ++ numbers_text before cost) }
{
    push_padded(alloc, cost.steps.saturating_sub(before), text)?;
    push_padded(alloc, cost.blocks, text)?;
    text.extend_from_slice(b"  ")
}

/// Appends a label and a path.
fn push_path(alloc: Global, label: &[u8], path: &Path, text: &mut Vec<u8>) -> Result<(), AllocError>
    ensures { OnOk result (text.new.items ≡ text.old.items ++ label.now ++ shown (joined path.now)) }
{
    text.extend_from_slice(label)?;
    push_shown(&path.text(alloc)?, text)
}

/// Appends a request by its number.
#[tactic(auto, unfolding(crate::specs::Tables::item_words))]
fn push_request(
    alloc: Global,
    number: u64,
    request: &Request,
    text: &mut Vec<u8>,
) -> Result<(), AllocError>
    ensures { OnOk result (text.new.items ≡ text.old.items ++ item_words number (Perform request.now)) }
{
    push_labelled(b"request ", number, text)?;
    text.extend_from_slice(b", ")?;
    let first = request.first().text(alloc)?;
    match request.second() {
        None => push_acted(request.action(), &first, None, text),
        Some(second) => push_acted(request.action(), &first, Some(&second.text(alloc)?), text),
    }
}

/// Appends the paths that a request changes, and those that it only reads.
#[tactic(auto, unfolding(crate::specs::Tables::paths_words, crate::specs::Tables::listed_paths))]
fn push_paths(alloc: Global, request: &Request, text: &mut Vec<u8>) -> Result<(), AllocError>
    ensures { OnOk result (text.new.items ≡ text.old.items ++ paths_words (Perform request.now)) }
{
    push_path(alloc, b"; changes ", request.first(), text)?;
    match request.second() {
        None => Ok(()),
        Some(second) if request.action() == Action::RenameFile => {
            push_path(alloc, b", ", second, text)
        }
        Some(second) => push_path(alloc, b"; reads ", second, text),
    }
}

/// Appends the line of a request.
#[tactic(auto, unfolding(crate::specs::Tables::row_text))]
fn push_row(
    alloc: Global,
    number: u64,
    before: u32,
    request: &Request,
    cost: Cost,
    text: &mut Vec<u8>,
) -> Result<(), AllocError>
    ensures { OnOk result (text.new.items ≡ text.old.items ++ row_text number before (Perform request.now) cost) }
{
    push_numbers(alloc, before, cost, text)?;
    push_request(alloc, number, request, text)?;
    push_paths(alloc, request, text)?;
    Ok(text.push(b'\n')?)
}

/// Appends the line of the file that is installed first.
#[tactic(auto, unfolding(crate::specs::Tables::row_text, crate::specs::Tables::item_words, crate::specs::Tables::paths_words, crate::specs::Tables::listed_paths))]
fn push_file(alloc: Global, path: &Path, cost: Cost, text: &mut Vec<u8>) -> Result<(), AllocError>
    ensures { OnOk result (text.new.items ≡ text.old.items ++ row_text 1 0 (Install path.now) cost) }
{
    push_numbers(alloc, 0, cost, text)?;
    push_path(alloc, b"file ", path, text)?;
    push_path(alloc, b"; changes ", path, text)?;
    Ok(text.push(b'\n')?)
}

/// Appends the lines of the requests that have a cost. The list takes `before` steps before them.
#[tactic(auto, unfolding(crate::specs::Tables::rows_text))]
fn push_rows(
    alloc: Global,
    before: u32,
    requests: &[Request],
    costs: &[Cost],
    text: &mut Vec<u8>,
) -> Result<(), AllocError>
    ensures { OnOk result (text.new.items ≡ text.old.items ++ rows_text 1 before (map Perform requests.now) costs.now) }
{
    let mut number = 1;
    let mut before = before;
    let mut left = costs;
    let mut rest = requests;
    'rows: while let [request, others @ ..] = rest {
        let [cost, more @ ..] = left else {
            return Ok(());
        };
        push_row(alloc, number, before, request, *cost, text)?;
        number += 1;
        before = cost.steps;
        left = more;
        rest = others;
    }
    Ok(())
}

/// Appends the lines of a file and of the requests after it that have a cost.
#[tactic(auto, unfolding(crate::specs::Tables::rows_text))]
fn push_all(
    alloc: Global,
    path: &Path,
    requests: &[Request],
    costs: &[Cost],
    text: &mut Vec<u8>,
) -> Result<(), AllocError>
    ensures { OnOk result (text.new.items ≡ text.old.items
        ++ rows_text 1 0 (Install path.now ∷ map Perform requests.now) costs.now) }
{
    let [first, others @ ..] = costs else {
        return Ok(());
    };
    push_file(alloc, path, *first, text)?;
    push_rows(alloc, first.steps, requests, others, text)
}

/// Appends the lines of the items that have a cost.
fn push_lines(
    alloc: Global,
    destination: Option<&Path>,
    requests: &[Request],
    costs: &[Cost],
    text: &mut Vec<u8>,
) -> Result<(), AllocError>
    ensures { OnOk result (text.new.items ≡ text.old.items
        ++ rows_text 1 0 (items_of (option_copied destination.entry) requests.now) costs.now) }
{
    match destination {
        None => push_rows(alloc, 0, requests, costs, text),
        Some(path) => push_all(alloc, path, requests, costs, text),
    }
}

/// Appends the line above them.
#[tactic(auto, unfolding(crate::specs::Tables::heading))]
fn push_heading(text: &mut Vec<u8>) -> Result<(), AllocError>
    ensures { OnOk result (text.new.items ≡ text.old.items ++ heading) }
{
    text.extend_from_slice(b"         steps        blocks  item\n")
}

/// Appends the table of a list of items: a heading, and a line for each item that has a cost, as
/// [`costs`](crate::costs) gives them. A line has the steps that the item may take; the most blocks that are in use
/// more than at first, up to and with the item; the item; the paths that it changes; and the paths that it only reads.
/// Without a cost there is no table.
///
/// # Errors
///
/// Out of memory: a part of the table may have been appended. Cost: the octets of the table.
#[tactic(auto, unfolding(crate::specs::Tables::table_text))]
pub fn push_table(
    alloc: Global,
    destination: Option<&Path>,
    requests: &[Request],
    costs: &[Cost],
    text: &mut Vec<u8>,
) -> Result<(), AllocError>
    ensures { OnOk result (text.new.items ≡ text.old.items
        ++ table_text (items_of (option_copied destination.entry) requests.now) costs.now) }
{
    if costs.is_empty() {
        return Ok(());
    }
    push_heading(text)?;
    push_lines(alloc, destination, requests, costs, text)
}
