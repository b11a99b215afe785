//! Files of this computer, which lines `put` of a script name.

use cfdp_run_script::Unread;
use std::alloc::Global;
use std::fs;
use std::io::{Error, ErrorKind, Read};
use std::rt::Files;

/// How many octets of a file are read at most: one more than the largest filestore has room for.
const MOST_READ: u64 = 7_864_321;

/// The files of this computer, by their names. A name is relative to the folder in which the program runs.
#[derive(Drop)]
pub struct PutFiles<'a, R> {
    rt: &'a R,
}

/// Why a file is not read.
fn fault_of(error: &Error) -> Unread {
    match error.kind() {
        ErrorKind::OutOfMemory => Unread::Memory,
        _ => Unread::Failed,
    }
}

/// Reads a file, and no more than [`MOST_READ`] octets of it.
fn read_file<I: Read + Drop>(alloc: Global, file: I) -> Result<Vec<u8>, Unread> {
    let mut octets = Vec::new(alloc);
    match file.take(MOST_READ).read_to_end(&mut octets) {
        Ok(_) => Ok(octets),
        Err(error) => Err(fault_of(&error)),
    }
}

impl<'a, R> PutFiles<'a, R> {
    /// The files that a runtime opens.
    pub fn new(rt: &'a R) -> PutFiles<'a, R> {
        PutFiles { rt }
    }
}

impl<R: Files> cfdp_run_script::Files for PutFiles<'_, R> {
    ghost use Rattle.std.specs.Prelude.{None};

    // No contract says what the files of a computer have.
    ghost known = { λ _. None };

    fn read(&mut self, alloc: Global, name: &[u8]) -> Result<Vec<u8>, Unread> {
        let Ok(name) = str::from_utf8(name) else {
            return Err(Unread::Failed);
        };
        match fs::open(self.rt, name) {
            Ok(file) => read_file(alloc, file),
            Err(error) => Err(fault_of(&error)),
        }
    }
}
