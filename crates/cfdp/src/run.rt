//! `cfdp run`: a script is played against a receiving entity.

use crate::capture::Capture;
use crate::end::End;
use crate::into;
use crate::pdu_log::PduLog;
use crate::playing::Playing;
use std::alloc::Global;
use std::io::{ErrorKind, Read, Write};
use std::rt::{Clock, Files};
use std::{fs, io};

/// What is done beside the text of a script.
#[derive(Clone, Copy)]
pub struct Options<'a> {
    /// Whether PDUs are reported in words.
    pub tells: bool,
    /// The folder into which the filestore is written at the end.
    pub into: Option<&'a str>,
    /// The file of a capture.
    pub capture: Option<&'a str>,
}

/// Writes text to standard output.
fn write<R: Print>(rt: &R, text: &[u8]) -> Result<(), End> {
    if text.is_empty() {
        return Ok(());
    }
    match io::writer(rt).write_all(text) {
        Ok(()) => Ok(()),
        Err(_) => Err(End::Unwritten),
    }
}

/// Plays a script to its end. What a line writes is written before the next line is looked at.
fn play<R: AllocGlobal + Clock + Eprint + Files + Print, I: Read + Drop, F: Write + Drop>(
    rt: &R,
    playing: &mut Playing<'_, R, I>,
    pdu_log: &mut PduLog<'_, F>,
) -> Result<(), End> {
    let mut text = Vec::new(rt.alloc());
    let mut watched = Vec::new(rt.alloc());
    for _ in 0..u64::MAX {
        if !playing.next(&mut text)? {
            break;
        }
        if pdu_log.is_on() {
            watched.clear();
            pdu_log.line(rt.alloc(), playing.line(), &text, &mut watched)?;
            write(rt, &watched)?;
        } else {
            write(rt, &text)?;
        }
    }
    Ok(())
}

/// Begins the capture, if there is to be one.
fn capture<'a, R: AllocGlobal + Files>(
    rt: &R,
    path: Option<&'a str>,
) -> Result<Option<Capture<'a, R::File>>, End> {
    let Some(path) = path else {
        return Ok(None);
    };
    match fs::create(rt, path) {
        Ok(file) => Ok(Some(Capture::new(rt.alloc(), path, file)?)),
        Err(_) => Err(End::unwritten(rt.alloc(), path)),
    }
}

/// Plays the script while it is watched, and writes the filestore into the folder, if there is one, which was made.
fn play_watched<R: AllocGlobal + Clock + Eprint + Files + Print, I: Read + Drop, F: Write + Drop>(
    rt: &R,
    playing: &mut Playing<'_, R, I>,
    into: Option<&str>,
    pdu_log: &mut PduLog<'_, F>,
) -> Result<(), End> {
    play(rt, playing, pdu_log)?;
    if let Some(capture) = pdu_log.capture() {
        capture.tell_left_out(rt);
    }
    match into {
        None => Ok(()),
        Some(folder) => into::write(rt, folder, playing.script().entity()),
    }
}

/// Plays the script that an input has, while it is watched.
fn play_named<R: AllocGlobal + Clock + Eprint + Files + Print, I: Read + Drop, F: Write + Drop>(
    rt: &R,
    name: &str,
    input: I,
    into: Option<&str>,
    pdu_log: &mut PduLog<'_, F>,
) -> Result<(), End> {
    let mut playing = Playing::new(rt, name, input)?;
    play_watched(rt, &mut playing, into, pdu_log)
}

/// Plays the script, with what its options ask for.
fn play_into<R: AllocGlobal + Clock + Eprint + Files + Print, I: Read + Drop>(
    rt: &R,
    name: &str,
    input: I,
    options: Options<'_>,
) -> Result<(), End> {
    let mut pdu_log = PduLog::new(options.tells, capture(rt, options.capture)?);
    play_named(rt, name, input, options.into, &mut pdu_log)
}

/// Plays the script with this name in messages. Nothing is left of the folder where the script does not end well.
fn run_named<R: AllocGlobal + Clock + Eprint + Files + Print, I: Read + Drop>(
    rt: &R,
    name: &str,
    input: I,
    options: Options<'_>,
) -> Result<(), End> {
    let Some(folder) = options.into else {
        return play_into(rt, name, input, options);
    };
    into::make(rt, folder)?;
    let played = play_into(rt, name, input, options);
    if played.is_err() {
        into::unmake(rt, folder);
    }
    played
}

/// Refuses a capture that would be written over the script.
fn check_capture(alloc: Global, script: Option<&str>, capture: Option<&str>) -> Result<(), End> {
    match (script, capture) {
        (Some(script), Some(capture)) if script == capture => Err(End::Words(format!(in alloc;
            "error: {capture}: the capture would be written over the script: expected another file"
        )?)),
        _ => Ok(()),
    }
}

/// Plays the script of a file, or of standard input without one.
pub fn run<R: AllocGlobal + Clock + Eprint + Files + Input + Print>(
    rt: &R,
    path: Option<&str>,
    options: Options<'_>,
) -> Result<(), End> {
    check_capture(rt.alloc(), path, options.capture)?;
    let Some(path) = path else {
        return run_named(rt, "-", rt.reader(), options);
    };
    match fs::open(rt, path) {
        Ok(file) => run_named(rt, path, file, options),
        Err(error) if error.kind() == ErrorKind::OutOfMemory => Err(End::Memory),
        Err(_) => Err(End::unread(rt.alloc(), path)),
    }
}
