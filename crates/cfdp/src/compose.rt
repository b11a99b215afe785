//! `cfdp compose`: the script of a plan.

use crate::elapsed::{Elapsed, ProgressReport};
use crate::end::End;
use crate::path_text::push_path;
use crate::plan::{EntitySection, Plan};
use crate::show::print;
use crate::uploads::{plan_in, read_files, uploads_of};
use cfdp_plans::{ScriptFault, push_config, push_list, push_protect, write_upload};
use cfdp_streams::ToWrite;
use cfdp_texts::{encode, push_labelled};
use cfdp_uploads::Upload;
use std::alloc::Global;
use std::io;
use std::rt::{Clock, Files};
use std::time::Instant;

/// The command that a script is written for.
#[derive(Clone, Copy)]
pub enum ScriptPlayer {
    /// `cfdpsim replay`.
    Replay,
    /// `cfdp run`: PDUs come one second after the other.
    Run,
}

/// Appends the line of a protected path.
fn push_protected(
    alloc: Global,
    player: ScriptPlayer,
    path: &[u8],
    text: &mut Vec<u8>,
) -> Result<(), End> {
    match player {
        ScriptPlayer::Replay => push_protect(path, text)?,
        ScriptPlayer::Run => {
            let mut line = String::from_str(alloc, "protect ")?;
            push_path(alloc, path, &mut line)?;
            line.push('\n')?;
            text.extend_from_slice(line.as_bytes())?;
        }
    }
    Ok(())
}

/// Writes the first lines of a script.
fn write_head<R: AllocGlobal + Print>(
    rt: &R,
    player: ScriptPlayer,
    entity: &EntitySection,
) -> Result<(), End> {
    let mut text = Vec::new(rt.alloc());
    push_config(
        entity.id,
        entity.blocks,
        entity.cap,
        entity.checks,
        entity.journal,
        &mut text,
    )?;
    for path in &entity.protected {
        push_protected(rt.alloc(), player, path, &mut text)?;
    }
    print(rt, &text)
}

/// Writes the name and the size of an upload as a comment.
fn write_title<R: AllocGlobal + Print>(rt: &R, upload: &Upload<'_>) -> Result<(), End> {
    let header = upload.header();
    let mut text = Vec::new(rt.alloc());
    push_labelled(b"# ", header.source, &mut text)?;
    push_labelled(b"/", header.number, &mut text)?;
    push_labelled(b": ", upload.metadata().size, &mut text)?;
    text.extend_from_slice(b" octets\n")?;
    print(rt, &text)
}

/// Writes the PDUs of an upload, which come from a time on. Returns the time after the last one.
fn write_pdus<R: AllocGlobal + Print>(rt: &R, upload: &Upload<'_>, from: u64) -> Result<u64, End> {
    let mut octets = Vec::new(rt.alloc());
    let mut text = Vec::new(rt.alloc());
    let mut now = from;
    for number in 0..upload.pdu_count() {
        octets.clear();
        text.clear();
        if upload.write(number, &mut octets).is_err() {
            return Err(End::Memory);
        }
        push_labelled(b"at ", now, &mut text)?;
        text.extend_from_slice(b" pdu ")?;
        encode(&octets, &mut text)?;
        text.push(b'\n')?;
        print(rt, &text)?;
        now = now.saturating_add(1);
    }
    Ok(now)
}

/// Writes an upload for `cfdpsim replay`.
fn write_untimed<R: AllocGlobal + Print>(rt: &R, upload: &Upload<'_>) -> Result<(), End> {
    let mut writer = ToWrite::new(io::writer(rt));
    match write_upload(rt.alloc(), upload, &mut writer) {
        Ok(()) => Ok(()),
        Err(ScriptFault::Write) => Err(End::Write),
        Err(ScriptFault::Memory) => Err(End::Memory),
    }
}

/// Writes an upload for `cfdp run`, whose PDUs come from a time on. Returns the time after the last one.
fn write_timed<R: AllocGlobal + Print>(rt: &R, upload: &Upload<'_>, now: u64) -> Result<u64, End> {
    write_title(rt, upload)?;
    write_pdus(rt, upload, now)
}

/// Writes the uploads of the plan with a name. Where that takes long, it says on standard error how far it is.
fn write_uploads<R: AllocGlobal + Clock + Eprint + Print>(
    rt: &R,
    player: ScriptPlayer,
    name: &str,
    uploads: &[Upload<'_>],
) -> Result<(), End> {
    let mut now = 0;
    let mut time_taken = Elapsed::new();
    for (index, upload) in uploads.iter().enumerate() {
        let begun = Instant::now(rt);
        match player {
            ScriptPlayer::Replay => write_untimed(rt, upload)?,
            ScriptPlayer::Run => now = write_timed(rt, upload, now)?,
        }
        let progress = ProgressReport {
            done: index.saturating_add(1),
            count: uploads.len(),
            what: "transactions written",
        };
        time_taken.tell(rt, begun, name, progress);
    }
    Ok(())
}

/// Writes the script of the plan with a name.
fn write<R: AllocGlobal + Clock + Eprint + Print>(
    rt: &R,
    player: ScriptPlayer,
    name: &str,
    entity: &EntitySection,
    uploads: &[Upload<'_>],
) -> Result<(), End> {
    write_head(rt, player, entity)?;
    write_uploads(rt, player, name, uploads)?;
    let mut last = Vec::new(rt.alloc());
    push_list(&mut last)?;
    print(rt, &last)
}

/// Writes the script of the plan in a file to standard output. Nothing is written where something is wrong in the plan,
/// or a file of it cannot be read.
pub fn run<R: AllocGlobal + Clock + Eprint + Files + Input + Print>(
    rt: &R,
    player: ScriptPlayer,
    path: &str,
) -> Result<(), End> {
    let alloc = rt.alloc();
    let (text, plan) = plan_in(rt, path)?;
    let Plan {
        entity,
        transactions,
    } = plan;
    let files = read_files(rt, path, &text, &transactions)?;
    let uploads = uploads_of(alloc, path, &text, entity.id, transactions, &files)?;
    write(rt, player, path, &entity, &uploads)
}
