//! Octets at random, of which files are made.
use crate::fault::WorkloadFault;
use crate::random::Random;
use std::alloc::Global;

/// How many octets there are: a multiple of four.
const OCTETS: u32 = 262_144;

/// The longest piece.
pub const LONGEST: u32 = 65_000;

/// The digits of hexadecimal.
static DIGITS: [u8; 16] = *b"0123456789abcdef";

/// The digit of the lower four bits.
fn digit(number: u8) -> u8 {
    DIGITS[usize::from(number & 15)]
}

/// Appends octets in hexadecimal.
pub fn push_hex(out: &mut Vec<u8>, octets: &[u8]) -> Result<(), WorkloadFault> {
    for octet in octets {
        out.push(digit(octet >> 4))?;
        out.push(digit(*octet))?;
    }
    Ok(())
}

/// A piece of a file: its offset in the file and its length, and the offset of its octets in the pool.
#[derive(Clone, Copy, Drop)]
pub struct PoolPiece {
    pub offset: u32,
    pub len: u32,
    start: u32,
}

/// Octets at random, the same in hexadecimal, and the sums of those before each.
#[derive(Drop)]
pub struct Pool {
    octets: Vec<u8>,
    hex: Vec<u8>,
    /// The modular checksum of the octets before each index.
    sums: Vec<u32>,
}

impl Pool {
    pub fn new(alloc: Global, random: &mut Random) -> Result<Pool, WorkloadFault> {
        let mut octets = Vec::with_capacity(alloc, OCTETS as usize)?;
        let mut hex = Vec::new(alloc);
        let mut sums = Vec::new(alloc);
        let mut sum = 0_u32;
        for at in 0..OCTETS {
            let octet = (random.next() >> 24) as u8;
            sums.push(sum)?;
            sum = sum.wrapping_add(u32::from(octet) << (24 - 8 * (at % 4)));
            octets.push(octet)?;
        }
        sums.push(sum)?;
        push_hex(&mut hex, &octets)?;
        Ok(Pool { octets, hex, sums })
    }

    /// A piece of a file at random. It begins in the pool at an offset that has the same rest by four.
    pub fn piece(&self, random: &mut Random, offset: u32, len: u32) -> PoolPiece {
        let len = len.min(LONGEST);
        let start = 4 * random.below((OCTETS - LONGEST) / 4 - 1) + offset % 4;
        PoolPiece { offset, len, start }
    }

    /// The octets of a piece.
    pub fn octets(&self, piece: PoolPiece) -> &[u8] {
        let start = piece.start as usize;
        let end = start.saturating_add(piece.len as usize);
        self.octets.get(start..end).unwrap_or(&[])
    }

    /// The octets of a piece, as digits of hexadecimal.
    pub fn hex(&self, piece: PoolPiece) -> &[u8] {
        let start = (piece.start as usize).saturating_mul(2);
        let end = start.saturating_add((piece.len as usize).saturating_mul(2));
        self.hex.get(start..end).unwrap_or(&[])
    }

    /// What the piece adds to the modular checksum of its file.
    pub fn sum(&self, piece: PoolPiece) -> u32 {
        let start = piece.start as usize;
        let end = start.saturating_add(piece.len as usize);
        match (self.sums.get(start), self.sums.get(end)) {
            (Some(before), Some(after)) => after.wrapping_sub(*before),
            _ => 0,
        }
    }

    /// The pieces of a file at random: each has from `least` to `most` octets, the last one the rest.
    pub fn file(
        &self,
        alloc: Global,
        random: &mut Random,
        size: u32,
        least: u32,
        most: u32,
    ) -> Result<Vec<PoolPiece>, WorkloadFault> {
        let mut pieces = Vec::new(alloc);
        let mut offset = 0_u32;
        for _ in 0..size {
            let room = most.saturating_sub(least).saturating_add(1).max(1);
            let len = least.saturating_add(random.below(room)).max(1);
            let len = len.min(size.saturating_sub(offset));
            if len == 0 {
                break;
            }
            pieces.push(self.piece(random, offset, len))?;
            offset = offset.saturating_add(len);
        }
        Ok(pieces)
    }

    /// The modular checksum of a file.
    pub fn checksum(&self, pieces: &[PoolPiece]) -> u32 {
        let mut sum = 0_u32;
        for piece in pieces {
            sum = sum.wrapping_add(self.sum(*piece));
        }
        sum
    }
}
