//! `cfdp draw`: a script is played against a receiving entity, and drawn.

use crate::drawing::Drawing;
use crate::end::End;
use crate::playing::Playing;
use cfdp_draw::{Full, MOST_LANES, MOST_MARKS, MOST_MOMENTS};
use std::alloc::Global;
use std::io::{ErrorKind, Read, Write};
use std::rt::{Clock, Files};
use std::{fs, io};

/// A script by its names.
#[derive(Clone, Copy)]
struct ScriptNames<'a> {
    /// In messages.
    name: &'a str,
    /// In the picture.
    title: &'a str,
}

/// How the program ends where a picture has no room for what the line with a number does.
fn end_of(alloc: Global, name: &str, number: u64, full: Full) -> End {
    let said = match full {
        Full::Moments => format!(in alloc;
            "{name}:{number}: a picture has at most {MOST_MOMENTS} inputs"
        ),
        Full::Lanes => format!(in alloc;
            "{name}:{number}: a picture has at most {MOST_LANES} lanes"
        ),
        Full::Marks => format!(in alloc;
            "{name}:{number}: a picture has at most {MOST_MARKS} marks"
        ),
        Full::Memory => return End::Memory,
    };
    match said {
        Ok(said) => End::Script(said.into_bytes()),
        Err(_) => End::Memory,
    }
}

/// Plays a script to its end, and collects what its lines do.
fn play<R: AllocGlobal + Clock + Eprint + Files, I: Read + Drop>(
    rt: &R,
    name: &str,
    playing: &mut Playing<'_, R, I>,
    drawing: &mut Drawing,
) -> Result<(), End> {
    let alloc = rt.alloc();
    let mut text = Vec::new(alloc);
    for number in 1..u64::MAX {
        if !playing.next(&mut text)? {
            break;
        }
        match drawing.line(alloc, playing.line(), &text, playing.script()) {
            Ok(()) => {}
            Err(full) => return Err(end_of(alloc, name, number, full)),
        }
    }
    Ok(())
}

/// Writes a picture to standard output.
fn write<R: AllocGlobal + Print>(rt: &R, drawing: &Drawing) -> Result<(), End> {
    let mut text = Vec::new(rt.alloc());
    drawing.write(&mut text)?;
    match io::writer(rt).write_all(&text) {
        Ok(()) => Ok(()),
        Err(_) => Err(End::Unwritten),
    }
}

/// Writes the picture of a script that was played. Where it stopped at a line, the picture says why.
fn finish<R: AllocGlobal + Print>(
    rt: &R,
    drawing: &mut Drawing,
    played: Result<(), End>,
) -> Result<(), End> {
    let Err(end) = played else {
        return write(rt, drawing);
    };
    if let Some(why) = end.stop_of_script() {
        drawing.end_early(rt.alloc(), why)?;
        write(rt, drawing)?;
    }
    Err(end)
}

/// Draws what is played. Where the script stops at a line, the picture shows what there was up to it.
fn draw_played<R: AllocGlobal + Clock + Eprint + Files + Print, I: Read + Drop>(
    rt: &R,
    names: ScriptNames<'_>,
    playing: &mut Playing<'_, R, I>,
) -> Result<(), End> {
    let mut drawing = Drawing::new(rt.alloc(), names.title, playing.script())?;
    let played = play(rt, names.name, playing, &mut drawing);
    finish(rt, &mut drawing, played)
}

/// Draws the script that an input has.
fn draw<R: AllocGlobal + Clock + Eprint + Files + Print, I: Read + Drop>(
    rt: &R,
    names: ScriptNames<'_>,
    input: I,
) -> Result<(), End> {
    let mut playing = Playing::new(rt, names.name, input)?;
    draw_played(rt, names, &mut playing)
}

/// Draws the script of a file, or of standard input without one.
pub fn run<R: AllocGlobal + Clock + Eprint + Files + Input + Print>(
    rt: &R,
    path: Option<&str>,
) -> Result<(), End> {
    let Some(path) = path else {
        let names = ScriptNames {
            name: "-",
            title: "standard input",
        };
        return draw(rt, names, rt.reader());
    };
    let names = ScriptNames {
        name: path,
        title: path,
    };
    match fs::open(rt, path) {
        Ok(file) => draw(rt, names, file),
        Err(error) if error.kind() == ErrorKind::OutOfMemory => Err(End::Memory),
        Err(_) => Err(End::unread(rt.alloc(), path)),
    }
}
