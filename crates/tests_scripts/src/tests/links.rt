//! Runs of `links` over files in memory, and a writer that fails.
ghost use Rattle.std.specs.Prelude.{◌↔◌, ◌<◌, ◌≤◌, IsTrue, length};
ghost use Rattle.std.specs.List.{AllByRecursion};
ghost use Rattle.cfdp_sim.specs.Lines.{input_limit};

use super::fakes::{Stream, Writer};
use cfdp_engine::Gate;
use cfdp_sim::{INPUT_LIMIT, LinkFault, Open, ScriptOut, links};
use std::alloc::{AllocError, Global};
use std::process::Abort;
use std::sync::Wait;
use std::thread::Threads;

/// A file created by a request.
pub(super) const CREATED: &str = "\
    pdu 24000D00010502 07 40 00000000 00 00 00 03 00 01 61\n\
    pdu 24000A00010502 04 00 00000000 00000000\n\
    step 1 5\n\
    take 1 5\n";

/// What is written of it.
const CREATED_TEXT: &str = "\
    0 0 1/5 admitted blocks 1 steps 2\n\
    1 0 1/5 complete\n\
    2 0 1/5 performed 00\n\
    3 0 1/5 finished 2c0008000105020503010400016100\n\
    seat 0 4 dropped 0\n\
    journal 4\n\
    store used 1 free 63 spare 63\n\
    file a 0 00000000\n";

/// The octets of the pieces of a file.
fn octets_of(alloc: Global, pieces: &[&str]) -> Result<Vec<u8>, AllocError> {
    let mut script = Vec::new(alloc);
    for piece in pieces {
        script.extend_from_slice(piece.as_bytes())?;
    }
    Ok(script)
}

/// The octets of each file.
fn scripts_of(alloc: Global, files: &[&[&str]]) -> Result<Vec<Vec<u8>>, AllocError> {
    let mut scripts = Vec::new(alloc);
    for pieces in files {
        scripts.push(octets_of(alloc, pieces)?)?;
    }
    Ok(scripts)
}

/// Whether these are as many scripts as `links` takes, four at most, and none is longer than a script may be.
fn are_linkable(scripts: &[Vec<u8>]) -> bool
    ensures { IsTrue result ↔ ((length scripts.now ≤ 4) × AllByRecursion
        (λ script. length script.items ≤ input_limit) scripts.now) }
{
    for script in scripts {
        if script.len() > INPUT_LIMIT {
            return false;
        }
    }
    scripts.len() <= 4
}

/// Runs the scripts, which can be linked.
pub(super) fn link<R: Abort + Threads + Wait + Sync, G: Gate + Sync>(
    rt: &R,
    alloc: Global,
    scripts: &[Vec<u8>],
    gate: &G,
    writer: &mut Writer,
) -> Result<(), LinkFault> {
    if !are_linkable(scripts) {
        rt.abort();
    }
    links(rt, alloc, scripts, gate, writer)
}

/// Runs the files.
pub(super) fn run<R: Abort + Threads + Wait + Sync, G: Gate + Sync>(
    rt: &R,
    alloc: Global,
    files: &[&[&str]],
    gate: &G,
    writer: &mut Writer,
) -> Result<(), LinkFault> {
    let scripts = scripts_of(alloc, files)?;
    link(rt, alloc, &scripts, gate, writer)
}

/// One file.
static ONE: [&[&str]; 1] = [&[CREATED]];

/// Whether of a text the pieces of 50 octets before the kth are written, where the writer failed at that.
fn ends_at_write(end: Result<(), LinkFault>, writer: &Writer, text: &[u8], k: usize) -> bool
    requires { k < 6 }
{
    let fails = 50 * k < text.len();
    let wanted = if fails { Err(LinkFault::Write) } else { Ok(()) };
    (end, writer.has_failed(), writer.text.len()) == (wanted, fails, (50 * k).min(text.len()))
        && text.starts_with(&writer.text)
}

/// Like `ends_at_write`, of a run of one file.
fn fails_at_write<R: Abort + Threads + Wait + Sync>(rt: &R, alloc: Global, k: usize) -> bool
    requires { k < 6 }
{
    let mut writer = Writer::new(alloc, Stream::failing(50, k));
    let end = run(rt, alloc, &ONE, &Open, &mut writer);
    ends_at_write(end, &writer, CREATED_TEXT.as_bytes(), k)
}

/// The kth write fails, of 50 octets each: what was written before is a beginning of the text.
#[test]
fn a_failing_writer_is_reported(rt: HostRuntime) {
    for k in 0..6 {
        assert!(rt; fails_at_write(&rt, rt.alloc(), k), "the write {k}");
    }
}
