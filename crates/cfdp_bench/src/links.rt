//! Four scripts at once, a worker each, on one entity.
ghost use Rattle.std.specs.Prelude.{◌≡◌, ◌≤◌, IfOk, length};
ghost use Rattle.std.specs.List.{AllByRecursion};
ghost use Rattle.cfdp_lines.specs.Lines.{input_limit};

use crate::digest::Digest;
use crate::fault::WorkloadFault;
use crate::names::spell;
use crate::pdus::{List, Sender};
use crate::pool::Pool;
use crate::random::Random;
use crate::receiver::size_of;
use crate::script::{CONFIG, ScriptText};
use cfdp_sim::{INPUT_LIMIT, Open, ToWrite, links};
use cfdp_status::Action;
use std::alloc::Global;
use std::sync::Wait;
use std::thread::Threads;

/// How many scripts there are.
const LINKS: u16 = 4;

/// How many files each of them delivers.
const FILES: u32 = 3;

/// The whole workload: this many runs of four scripts. `scale` divides the sizes.
pub fn run<R: Threads + Wait + Sync>(
    rt: &R,
    alloc: Global,
    rounds: u32,
    scale: u32,
    seed: u32,
) -> Result<u64, WorkloadFault> {
    let mut random = Random::new(u64::from(seed).wrapping_add(0x50_0000_0000));
    let pool = Pool::new(alloc, &mut random)?;
    let mut digest = Digest::new();
    for _ in 0..rounds {
        let scripts = write_all(alloc, &pool, &mut random, scale.max(1))?;
        let mut writer = ToWrite::new(Vec::new(alloc));
        links(rt, alloc, &scripts, &Open, &mut writer)?;
        digest.add_lines(&writer.into_inner());
    }
    Ok(digest.value())
}

/// The four scripts.
fn write_all(
    alloc: Global,
    pool: &Pool,
    random: &mut Random,
    scale: u32,
) -> Result<Vec<Vec<u8>>, WorkloadFault>
    ensures few { IfOk result (λ scripts. length scripts.items ≤ 4) }
    ensures short { IfOk result (λ scripts. AllByRecursion
        (λ script. length script.items ≤ input_limit) scripts.items) }
{
    let first = write(alloc, pool, random, 0, scale)?;
    let second = write(alloc, pool, random, 1, scale)?;
    let third = write(alloc, pool, random, 2, scale)?;
    let fourth = write(alloc, pool, random, 3, scale)?;
    Ok(Vec::from_array(alloc, [first, second, third, fourth])?)
}

/// One script: it makes a directory of its own, and delivers files there, with a list after each.
fn write(
    alloc: Global,
    pool: &Pool,
    random: &mut Random,
    link: u16,
    scale: u32,
) -> Result<Vec<u8>, WorkloadFault>
    ensures { IfOk result (λ text. length text.items ≤ input_limit) }
{
    let mut script = ScriptText::new(alloc);
    let mut list = List::new(alloc);
    let mut name = Vec::new(alloc);
    let mut other = Vec::new(alloc);
    let source = link.saturating_add(10);
    if link == 0 {
        script.line(CONFIG)?;
    }
    spell(&mut name, b"link-", u32::from(link), 1)?;
    list.one(Action::CreateDirectory, &name)?;
    let sender = Sender::new(source, 0);
    script.metadata(sender, 0, b"", &list)?;
    script.finish_by_steps(sender, 0, 0, 1)?;
    for number in 0..FILES {
        list.clear();
        let size = (150_000 + random.below(250_000)) / scale.max(1);
        let pieces = pool.file(alloc, random, size, 300, 900)?;
        name.clear();
        spell(&mut name, b"link-", u32::from(link), 1)?;
        spell(&mut name, b"/upload-", number, 1)?;
        other.clear();
        spell(&mut other, b"link-", u32::from(link), 1)?;
        spell(&mut other, b"/image-", number, 1)?;
        list.two(Action::RenameFile, &name, &other)?;
        let sender = Sender::new(source, number + 1);
        script.metadata(sender, size_of(&pieces), &name, &list)?;
        for piece in &pieces {
            script.data(sender, pool, *piece)?;
        }
        script.finish_by_steps(sender, pool.checksum(&pieces), size_of(&pieces), 2)?;
    }
    if script.text.len() > INPUT_LIMIT {
        return Err(WorkloadFault::Refused);
    }
    Ok(script.text)
}
