//! How many steps a search takes, by counts: from the last block of a list to each one before it, and from each block.

ghost use Rattle.std.specs.Prelude.{◌≡◌, ◌+◌, ◌<◌, ◌≤◌, IfOk, length};
ghost use Rattle.cfdp_ways.specs.Ways.{IsLed};

use crate::{Cursor, Way, begin_list, extend_list, step_back};
use cfdp_arena::BlockId;
use std::alloc::{AllocError, Global};
use std::process::Abort;

/// The position at an index of a list of the blocks 0, 1, 2 and so on.
fn cursor_at(index: u32) -> Cursor
    ensures index { result.index ≡ index }
    ensures block { result.block ≡ index }
{
    Cursor {
        block: BlockId::of_number(index),
        index,
    }
}

/// The ways of such a list.
fn list_of(alloc: Global, blocks: u32) -> Result<Vec<Way>, AllocError>
    requires some { 1 ≤ blocks }
    requires few { blocks ≤ 65536 }
    ensures { IfOk result (λ ways. IsLed ways.items (λ k. k) blocks) }
{
    let mut ways = Vec::new(alloc);
    ways.resize(blocks as usize, Way::none())?;
    begin_list(&mut ways, BlockId::of_number(0));
    for index in 1..blocks {
        extend_list(&mut ways, &cursor_at(index - 1), BlockId::of_number(index));
    }
    Ok(ways)
}

/// How many steps lead from an index to an index before it.
fn steps(ways: &[Way], from: u32, index: u32) -> u32
    requires led { IsLed ways.now (λ k. k) (from + 1) }
    requires before { index ≤ from }
    ensures { result ≤ from }
{
    let mut cursor = cursor_at(from);
    let mut steps = 0;
    while index < cursor.index {
        cursor = step_back(ways, &cursor, index);
        steps += 1;
    }
    steps
}

/// The most steps from an index to one before it.
fn most_steps(ways: &[Way], from: u32) -> u32
    requires { IsLed ways.now (λ k. k) (from + 1) }
{
    let mut most = 0;
    for index in 0..from {
        most = most.max(steps(ways, from, index));
    }
    most
}

/// The most steps from each of the first blocks to one before it.
fn most_steps_from_each(ways: &[Way], blocks: u32) -> u32
    requires { IsLed ways.now (λ k. k) blocks }
{
    let mut most = 0;
    for from in 0..blocks {
        let steps = most_steps(ways, from);
        most = most.max(steps);
    }
    most
}

/// The length of a list, and 3 steps for each binary digit of the index of its last block.
struct Row {
    name: &'static str,
    blocks: u32,
    most: u32,
}

static ROWS: [Row; 6] = [
    Row {
        name: "one block",
        blocks: 1,
        most: 0,
    },
    Row {
        name: "two blocks",
        blocks: 2,
        most: 3,
    },
    Row {
        name: "a few blocks",
        blocks: 65,
        most: 21,
    },
    Row {
        name: "some blocks",
        blocks: 400,
        most: 27,
    },
    Row {
        name: "many blocks",
        blocks: 4_096,
        most: 36,
    },
    Row {
        name: "the most blocks",
        blocks: 65_536,
        most: 48,
    },
];

#[test]
fn from_the_last_block(rt: HostRuntime) -> Result<(), AllocError> {
    for row in &ROWS {
        let blocks = row.blocks.clamp(1, 65_536);
        let ways = list_of(rt.alloc(), blocks)?;
        let most = most_steps(&ways, blocks - 1);
        assert!(&rt; most <= row.most, "{}: {most} steps", row.name);
    }
    Ok(())
}

#[test]
fn from_each_block(rt: HostRuntime) -> Result<(), AllocError> {
    let ways = list_of(rt.alloc(), 400)?;
    let most = most_steps_from_each(&ways, 400);
    assert!(&rt; most <= 27, "{most} steps");
    Ok(())
}
