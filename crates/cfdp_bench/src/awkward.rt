//! A link that reorders, repeats and lies: pieces of long files in other orders than they were cut, and faulty PDUs
//! between.
use crate::digest::Digest;
use crate::fault::WorkloadFault;
use crate::names::spell;
use crate::pdus::{List, Sender};
use crate::pool::{Pool, PoolPiece};
use crate::random::Random;
use crate::receiver::size_of;
use crate::script::{CONFIG, ScriptText};
use cfdp_sim::replay_text;
use cfdp_status::Action;
use std::alloc::Global;

const SENDER: u16 = 6;

/// The numbers of transactions of which only faulty PDUs come.
const FAULTY: u32 = 1_000_000;

/// How many gaps are filled at the very end.
const GAPS: usize = 24;

/// The order in which the pieces of a file come.
#[derive(Clone, Copy, PartialEq, Eq)]
enum Arrival {
    /// Every two neighbours are swapped.
    Swapped,
    /// The last one first.
    Reversed,
    /// The first, the last, the second, the last but one.
    FromBothEnds,
    /// Each one twice.
    Twice,
    /// A few are filled in at the very end.
    WithGaps,
}

static ORDERS: [Arrival; 5] = [
    Arrival::Swapped,
    Arrival::Reversed,
    Arrival::FromBothEnds,
    Arrival::Twice,
    Arrival::WithGaps,
];

impl Arrival {
    /// The octets of a file that comes so, at least.
    fn size(self) -> u32 {
        match self {
            Arrival::Swapped | Arrival::Twice | Arrival::WithGaps => 2_000_000,
            Arrival::Reversed | Arrival::FromBothEnds => 1_500_000,
        }
    }

    /// How many turns send all of this many pieces.
    fn turns(self, count: usize) -> usize {
        match self {
            Arrival::Twice => count.saturating_mul(2),
            Arrival::WithGaps => count.saturating_add(GAPS),
            _ => count,
        }
    }

    /// The index of the piece of this turn, of this many; none where none comes.
    fn index(self, turn: usize, count: usize) -> Option<usize> {
        let stride = (count / (GAPS + 1)).max(1);
        match self {
            Arrival::Swapped => Some(turn ^ 1),
            Arrival::Reversed => Some(count.saturating_sub(turn).saturating_sub(1)),
            Arrival::FromBothEnds if turn % 2 == 0 => Some(turn / 2),
            Arrival::FromBothEnds => Some(count.saturating_sub(turn / 2).saturating_sub(1)),
            Arrival::Twice => Some(turn / 2),
            Arrival::WithGaps if turn >= count => {
                Some(stride.saturating_mul(turn.saturating_sub(count).saturating_add(1)))
            }
            Arrival::WithGaps if turn % stride == 0 && 0 < turn && turn / stride <= GAPS => None,
            Arrival::WithGaps => Some(turn),
        }
    }
}

/// The whole workload: this many scripts. `scale` divides the sizes.
pub fn run(alloc: Global, rounds: u32, scale: u32, seed: u32) -> Result<u64, WorkloadFault> {
    let mut random = Random::new(u64::from(seed).wrapping_add(0x40_0000_0000));
    let pool = Pool::new(alloc, &mut random)?;
    let mut digest = Digest::new();
    let mut script = ScriptText::new(alloc);
    for _ in 0..rounds {
        script.clear();
        script.line(CONFIG)?;
        let mut number = 0_u32;
        for order in &ORDERS {
            write(
                alloc,
                &mut script,
                &pool,
                &mut random,
                *order,
                number,
                scale.max(1),
            )?;
            number = number.wrapping_add(1);
        }
        let text = replay_text(alloc, &script.text)?;
        digest.add_octets(&text);
    }
    Ok(digest.value())
}

/// Writes a file that comes in this order, and is deleted by its own list.
fn write(
    alloc: Global,
    script: &mut ScriptText,
    pool: &Pool,
    random: &mut Random,
    order: Arrival,
    number: u32,
    scale: u32,
) -> Result<(), WorkloadFault> {
    let mut list = List::new(alloc);
    let mut name = Vec::new(alloc);
    spell(&mut name, b"awkward-", number, 1)?;
    list.one(Action::DeleteFile, &name)?;
    let sender = Sender::new(SENDER, number.wrapping_add(1));
    let size = order.size().saturating_add(random.below(500_000)) / scale.max(1);
    let pieces = pool.file(alloc, random, size, 600, 1_000)?;
    script.metadata(sender, size_of(&pieces), &name, &list)?;
    for turn in 0..order.turns(pieces.len()) {
        let piece = order
            .index(turn, pieces.len())
            .and_then(|index| pieces.get(index));
        if let Some(piece) = piece {
            script.data(sender, pool, *piece)?;
        }
        if random.below(8) == 0 {
            lie(script, pool, random, &list)?;
        }
    }
    for piece in pieces.iter().skip(pieces.len().saturating_sub(2)) {
        script.data(sender, pool, *piece)?;
    }
    script.finish(sender, pool.checksum(&pieces), size_of(&pieces))
}

/// Writes a PDU that has no business here.
fn lie(
    script: &mut ScriptText,
    pool: &Pool,
    random: &mut Random,
    list: &List,
) -> Result<(), WorkloadFault> {
    let number = FAULTY.wrapping_add(random.below(1_000_000));
    let sender = Sender::new(SENDER, number);
    let piece: PoolPiece = pool.piece(random, random_offset(number), 300);
    match random.below(6) {
        0 => script.cut(sender, list, 1 + number as usize % 7),
        1 => script.data(sender, pool, piece),
        2 => script.data(
            Sender {
                destination: 77,
                ..sender
            },
            pool,
            piece,
        ),
        3 => script.metadata(
            Sender {
                destination: 78,
                ..sender
            },
            0,
            b"",
            list,
        ),
        4 => script.eof(sender, number, 1_000),
        _ => wrong_sum(script, pool, sender, pool.piece(random, 0, 300)),
    }
}

/// An offset that depends on a number.
fn random_offset(number: u32) -> u32 {
    number % 5_000 * 4
}

/// Writes a short transaction whose checksum is wrong.
fn wrong_sum(
    script: &mut ScriptText,
    pool: &Pool,
    sender: Sender,
    piece: PoolPiece,
) -> Result<(), WorkloadFault> {
    let list = List::new(*script.text.allocator());
    script.metadata(sender, 300, b"wrong", &list)?;
    script.data(sender, pool, piece)?;
    script.finish(sender, 1, 300)
}
