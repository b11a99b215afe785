//! Many transactions at once: 64 live, their file data, steps, checks, cancels and takes in turn.
use crate::digest::Digest;
use crate::fault::WorkloadFault;
use crate::names::spell;
use crate::pdus::{List, Sender};
use crate::pool::{Pool, PoolPiece};
use crate::random::Random;
use crate::receiver::size_of;
use crate::script::{CONFIG, ScriptText};
use cfdp_sim::replay_text;
use cfdp_status::Action;
use std::alloc::Global;

const SENDER: u16 = 5;

/// How many transactions are live at once.
const LIVE: u32 = 64;

/// How many times these begin and end in a script.
const WAVES: u32 = 4;

/// One of the transactions.
#[derive(Drop)]
struct Transfer {
    sender: Sender,
    pieces: Vec<PoolPiece>,
    items: u32,
}

impl Transfer {
    /// Whether it is cancelled before its EOF PDU.
    fn is_cancelled(&self) -> bool {
        self.sender.number % 16 == 5
    }

    /// The index of the piece that comes after the EOF PDU, if one does.
    fn late(&self) -> Option<usize> {
        if self.sender.number % 8 == 3 {
            Some(self.pieces.len() / 2)
        } else {
            None
        }
    }
}

/// The whole workload: this many scripts. `scale` divides the number of transactions.
pub fn run(alloc: Global, rounds: u32, scale: u32, seed: u32) -> Result<u64, WorkloadFault> {
    let mut random = Random::new(u64::from(seed).wrapping_add(0x30_0000_0000));
    let pool = Pool::new(alloc, &mut random)?;
    let live = (LIVE / scale.max(1)).max(2);
    let mut digest = Digest::new();
    let mut script = ScriptText::new(alloc);
    for _ in 0..rounds {
        script.clear();
        begin(alloc, &mut script, live)?;
        for wave in 0..WAVES {
            let transfers = admit(alloc, &mut script, &pool, &mut random, live, wave)?;
            feed(&mut script, &pool, &transfers)?;
            end(&mut script, &pool, &transfers)?;
        }
        let text = replay_text(alloc, &script.text)?;
        digest.add_octets(&text);
    }
    Ok(digest.value())
}

/// The directories of the transactions are made.
fn begin(alloc: Global, script: &mut ScriptText, live: u32) -> Result<(), WorkloadFault> {
    let mut list = List::new(alloc);
    let mut name = Vec::new(alloc);
    script.line(CONFIG)?;
    for number in 0..live {
        name.clear();
        spell(&mut name, b"link-", number, 2)?;
        list.one(Action::CreateDirectory, &name)?;
    }
    script.list(Sender::new(SENDER, 0), &list)
}

/// Spells a file of a transaction.
fn file(out: &mut Vec<u8>, link: u32, word: &[u8], number: u32) -> Result<(), WorkloadFault> {
    out.clear();
    spell(out, b"link-", link, 2)?;
    spell(out, word, number, 1)
}

/// Writes a list: what was delivered before goes, and files are made, renamed and deleted.
fn write_list(
    list: &mut List,
    first: &mut Vec<u8>,
    second: &mut Vec<u8>,
    link: u32,
    wave: u32,
    files: u32,
) -> Result<(), WorkloadFault> {
    list.clear();
    file(first, link, b"/product-", wave.wrapping_sub(1))?;
    list.one(Action::DenyFile, first)?;
    for number in 0..files {
        file(first, link, b"/part-", number)?;
        list.one(Action::CreateFile, first)?;
        file(second, link, b"/kept-", number)?;
        list.two(Action::RenameFile, first, second)?;
    }
    for number in 0..files {
        file(first, link, b"/kept-", number)?;
        list.one(Action::DeleteFile, first)?;
    }
    Ok(())
}

/// The Metadata PDUs of all transactions come.
fn admit(
    alloc: Global,
    script: &mut ScriptText,
    pool: &Pool,
    random: &mut Random,
    live: u32,
    wave: u32,
) -> Result<Vec<Transfer>, WorkloadFault> {
    let mut transfers = Vec::new(alloc);
    let mut list = List::new(alloc);
    let (mut first, mut second) = (Vec::new(alloc), Vec::new(alloc));
    for link in 0..live {
        let number = wave.wrapping_mul(LIVE).wrapping_add(link).wrapping_add(1);
        let size = 500 + random.below(8_000);
        let transfer = Transfer {
            sender: Sender::new(SENDER, number),
            pieces: pool.file(alloc, random, size, 200, 1_000)?,
            items: 0,
        };
        write_list(
            &mut list,
            &mut first,
            &mut second,
            link,
            wave,
            1 + random.below(6),
        )?;
        file(&mut first, link, b"/product-", wave)?;
        script.metadata(transfer.sender, size, &first, &list)?;
        let items = list.count.saturating_add(1);
        transfers.push(Transfer { items, ..transfer })?;
    }
    Ok(transfers)
}

/// The pieces of all files come, one of each in turn, but for those that are late; some transactions are cancelled.
fn feed(script: &mut ScriptText, pool: &Pool, transfers: &[Transfer]) -> Result<(), WorkloadFault> {
    let mut most = 0;
    for transfer in transfers {
        most = most.max(transfer.pieces.len());
    }
    for turn in 0..most {
        for transfer in transfers {
            if transfer.late() == Some(turn) {
                continue;
            }
            if let Some(piece) = transfer.pieces.get(turn) {
                script.data(transfer.sender, pool, *piece)?;
            }
            if turn == 2 && transfer.is_cancelled() {
                script.local(b"cancel", transfer.sender)?;
            }
        }
    }
    Ok(())
}

/// The EOF PDUs of all transactions come, the late pieces, the items in turn, and the outcomes are taken.
fn end(script: &mut ScriptText, pool: &Pool, transfers: &[Transfer]) -> Result<(), WorkloadFault> {
    for transfer in transfers {
        let checksum = pool.checksum(&transfer.pieces);
        script.eof(transfer.sender, checksum, size_of(&transfer.pieces))?;
    }
    let mut most = 0;
    for transfer in transfers {
        most = most.max(transfer.items);
        let Some(late) = transfer.late() else {
            continue;
        };
        script.local(b"check", transfer.sender)?;
        if let Some(piece) = transfer.pieces.get(late) {
            script.data(transfer.sender, pool, *piece)?;
        }
    }
    for item in 0..most {
        for transfer in transfers {
            if item < transfer.items {
                script.local(b"step", transfer.sender)?;
            }
        }
    }
    for transfer in transfers {
        script.local(b"take", transfer.sender)?;
    }
    Ok(())
}
