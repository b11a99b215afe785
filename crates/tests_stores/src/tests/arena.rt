//! The arena under the store: what it hands out, what is in a block, and that it may move to another thread.

use cfdp_arena::{Arena, BLOCK_OCTETS, Block, BlockId};
use std::test::Fail;
use std::thread;

/// Whether all octets of a block are 0.
fn is_blank(block: &Block) -> bool {
    *block == [0; BLOCK_OCTETS]
}

/// Whether all octets of a block are 0 but the last one, which is 1.
fn ends_with_one(block: &Block) -> bool {
    let mut wanted = [0; BLOCK_OCTETS];
    wanted[BLOCK_OCTETS - 1] = 1;
    *block == wanted
}

/// Whether three blocks can be taken, no two of them the same, and no fourth one. The first and the third are given
/// back.
fn takes_three(arena: &mut Arena) -> bool {
    let (Some(first), Some(second), Some(third)) = (arena.take(), arena.take(), arena.take()) else {
        return false;
    };
    let are_all = arena.take().is_none();
    arena.give(first);
    arena.give(third);
    are_all && first != second && second != third && first != third
}

/// Whether a block can be taken, and all its octets are 0.
fn takes_blank(arena: &mut Arena) -> bool {
    match arena.take() {
        Some(block) => is_blank(arena.bytes(block)),
        None => false,
    }
}

#[test]
fn three_blocks(rt: HostRuntime) -> Result<(), Fail> {
    let mut arena = Arena::new(rt.alloc(), 3)?;
    let are_three = arena.free() == 3 && takes_three(&mut arena) && arena.free() == 2;
    let are_blank = takes_blank(&mut arena) && takes_blank(&mut arena);
    assert!(rt; are_three, "three are taken, and two given back");
    assert!(rt; are_blank, "the two are taken, and are blank");
    assert!(rt;
        arena.take().is_none() && arena.free() == 0,
        "no block is left"
    );
    Ok(())
}

#[test]
fn the_most_blocks(rt: HostRuntime) -> Result<(), Fail> {
    let mut arena = Arena::new(rt.alloc(), 65_536)?;
    let is_whole = arena.free() == 65_536;
    assert!(rt; is_whole, "all blocks are free");
    assert!(rt;
        takes_blank(&mut arena) && arena.free() == 65_535,
        "one is taken, and is blank"
    );
    Ok(())
}

/// Whether one octet is copied to the last offset of another block, and stays there when the block that it came from is
/// given back, taken again and blank. Of two blocks that are free.
fn copies_one_octet(arena: &mut Arena) -> bool {
    let (Some(first), Some(second)) = (arena.take(), arena.take()) else {
        return false;
    };
    let octets = arena.bytes_mut(first);
    for index in 8..128 {
        octets[index] = 1;
    }
    let before = *arena.bytes(first);
    arena.copy_payload(first, 0, second, 119, 1);
    let is_copied = ends_with_one(arena.bytes(second)) && *arena.bytes(first) == before;
    arena.give(first);
    match arena.take() {
        Some(again) => {
            let is_first = again == first && is_blank(arena.bytes(again));
            is_copied && is_first && ends_with_one(arena.bytes(second))
        }
        None => false,
    }
}

#[test]
fn one_octet_is_copied(rt: HostRuntime) -> Result<(), Fail> {
    let mut arena = Arena::new(rt.alloc(), 2)?;
    assert!(rt; copies_one_octet(&mut arena), "one octet");
    Ok(())
}

#[test]
fn an_arena_moves_to_a_thread(rt: HostRuntime) -> Result<(), Fail> {
    let mut arena = Arena::new(rt.alloc(), 2)?;
    let block = arena.take().expect(&rt, "a block");
    arena.bytes_mut(block)[127] = 9;
    let worker = thread::spawn(&rt, move || (arena.bytes(block)[127], arena.free()))?;
    assert_eq!(rt; worker.join(&rt), (9, 1), "an octet, and the free blocks");
    Ok(())
}

#[test]
fn numbers(rt: HostRuntime) {
    assert_eq!(rt; BlockId::of_number(65535).number(), 65535, "the last block");
}
