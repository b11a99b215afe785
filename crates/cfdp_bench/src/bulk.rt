//! A recorded session is replayed: long files whose pieces come in order, each installed and followed by a short list.
use crate::digest::Digest;
use crate::fault::WorkloadFault;
use crate::names::spell;
use crate::pdus::{List, Sender};
use crate::pool::Pool;
use crate::random::Random;
use crate::script::{CONFIG, ScriptText};
use cfdp_sim::replay_text;
use cfdp_status::Action;
use std::alloc::Global;

const SENDER: u16 = 4;

/// How many files each script delivers.
const FILES: u32 = 3;

/// The whole workload: this many scripts. `scale` divides the sizes.
pub fn run(alloc: Global, rounds: u32, scale: u32, seed: u32) -> Result<u64, WorkloadFault> {
    let mut random = Random::new(u64::from(seed).wrapping_add(0x20_0000_0000));
    let pool = Pool::new(alloc, &mut random)?;
    let mut digest = Digest::new();
    let mut script = ScriptText::new(alloc);
    for _ in 0..rounds {
        write(alloc, &mut script, &pool, &mut random, scale.max(1))?;
        let text = replay_text(alloc, &script.text)?;
        digest.add_octets(&text);
    }
    Ok(digest.value())
}

/// Writes a script: each file takes the place of the one before it under the same name.
fn write(
    alloc: Global,
    script: &mut ScriptText,
    pool: &Pool,
    random: &mut Random,
    scale: u32,
) -> Result<(), WorkloadFault> {
    let mut list = List::new(alloc);
    let mut name = Vec::new(alloc);
    script.clear();
    script.line(CONFIG)?;
    list.one(Action::CreateDirectory, b"software")?;
    script.list(Sender::new(SENDER, 0), &list)?;
    for number in 0..FILES {
        let size = (1_000_000 + random.below(2_800_000)) / scale.max(1);
        let least = 200 + random.below(400);
        let most = least + random.below(400);
        let pieces = pool.file(alloc, random, size, least, most)?;
        name.clear();
        spell(&mut name, b"software/upload-", number, 3)?;
        list.clear();
        if number > 0 {
            list.one(Action::DeleteFile, b"software/image")?;
        }
        list.two(Action::RenameFile, &name, b"software/image")?;
        script.deliver(Sender::new(SENDER, number + 1), pool, &pieces, &name, &list)?;
    }
    script.line(b"list\n")
}
