//! The files that the program reads.
ghost use Rattle.std.specs.Prelude.{◌≡◌, ◌≤◌, ℕ, List, length, IfErr, IfOk};
ghost use Rattle.std.specs.IoError.{error_kind};
ghost use Rattle.std.specs.List.{AllByRecursion};
ghost use Rattle.cfdp_lines.specs.Lines.{input_limit};
ghost use Rattle.cfdp_command_line.specs.Files.{AllPaired, IsInputFault, IsRead, IsWhole};
ghost use Rattle.cfdp_command_line.specs.code.Files.{run_fault_of};

use cfdp_lines::{INPUT_LIMIT, RunFault};
use std::alloc::Global;
use std::fs;
use std::io::{Error, ErrorKind, Read};
use std::rt::Files;

/// What a file that cannot be opened or read is to the run.
fn fault_of(error: &Error) -> RunFault
    ensures { result ≡ run_fault_of (error_kind error.now) }
{
    match error.kind() {
        ErrorKind::OutOfMemory => RunFault::Memory,
        _ => RunFault::Read,
    }
}

/// Where files are opened by their paths: the file system, or what is used instead.
pub trait Opens {
    /// A file that is open for reading.
    type Opened: Read + Drop;

    // A file that was opened by this path.
    ghost IsOpened: { List ℕ → Self.Opened → Type 0 };

    /// Opens the file of this path for reading.
    ///
    /// # Errors
    ///
    /// `Read` where it cannot be opened, and `Memory` out of memory.
    fn open(&self, path: &str) -> Result<Self::Opened, RunFault>
        ensures opened { IfOk result (λ file. IsOpened path.now file) }
        ensures ends { IfErr result IsInputFault };
}

impl<F: Files> Opens for F {
    type Opened = F::File;

    // No contract says what the file system opens.
    ghost IsOpened = { λ _ _. Unit };

    fn open(&self, path: &str) -> Result<F::File, RunFault> {
        match fs::open(self, path) {
            Ok(file) => Ok(file),
            Err(error) => Err(fault_of(&error)),
        }
    }
}

/// The files of these paths, in their order.
///
/// # Errors
///
/// The first file that cannot be opened ends it, with the fault of [`Opens::open`]; `Memory` out of memory.
fn open_all<O: Opens>(files: &O, alloc: Global, paths: &[&str]) -> Result<Vec<O::Opened>, RunFault>
    ensures opened { IfOk result (λ opened. AllPaired (λ path file. O.IsOpened path.now file) paths.now opened.items) }
    ensures ends { IfErr result IsInputFault }
{
    let mut opened = Vec::new(alloc);
    for path in paths {
        let file = files.open(path)?;
        let Ok(()) = opened.push(file) else {
            return Err(RunFault::Memory);
        };
    }
    Ok(opened)
}

/// All that this input has, to its end.
///
/// # Errors
///
/// `Read` where a read failed, or the input has more octets than a script may have, and `Memory` out of memory. Cost:
/// one pass over the input.
pub fn read_whole<I: Read + Drop>(alloc: Global, input: I) -> Result<Vec<u8>, RunFault>
    ensures short { IfOk result (λ octets. length octets.items ≤ input_limit) }
    ensures whole { IfOk result (λ octets. IsWhole (I.remaining input) octets.items) }
    ensures ends { IfErr result IsInputFault }
{
    let mut octets = Vec::new(alloc);
    let mut limited = input.take(INPUT_LIMIT as u64 + 1);
    match limited.read_to_end(&mut octets) {
        Ok(count) if count <= INPUT_LIMIT => Ok(octets),
        Ok(_) => Err(RunFault::Read),
        Err(error) => Err(fault_of(&error)),
    }
}

/// All that each of these inputs has, in their order.
///
/// # Errors
///
/// The first input that cannot be read ends it, with the fault of [`read_whole`]; `Memory` out of memory.
fn read_each<I: Read + Drop>(alloc: Global, inputs: Vec<I>) -> Result<Vec<Vec<u8>>, RunFault>
    ensures read { IfOk result (λ scripts. AllPaired (λ input script. IsWhole (I.remaining input) script.items)
        inputs.items scripts.items) }
    ensures short { IfOk result (λ scripts. AllByRecursion
        (λ script. length script.items ≤ input_limit) scripts.items) }
    ensures ends { IfErr result IsInputFault }
{
    let mut scripts = Vec::new(alloc);
    for input in inputs {
        let script = read_whole(alloc, input)?;
        let Ok(()) = scripts.push(script) else {
            return Err(RunFault::Memory);
        };
    }
    Ok(scripts)
}

/// What the files of these paths have, in the order of the paths. All are opened, in their order, before the first is
/// read.
///
/// # Errors
///
/// The first file that cannot be opened ends it, with the fault of [`Opens::open`]; and if all are open, the first that
/// cannot be read, with the fault of [`read_whole`].
///
/// Memory: the octets of all files. Cost: one pass over each file.
pub fn read_all<O: Opens>(
    files: &O,
    alloc: Global,
    paths: &[&str],
) -> Result<Vec<Vec<u8>>, RunFault>
    // Of each path, in order, a file was opened, and this is what it had.
    ensures read { IfOk result (λ scripts. AllPaired (λ path script. IsRead O.IsOpened O.Opened.remaining path.now
        script.items) paths.now scripts.items) }
    ensures each { IfOk result (λ scripts. length scripts.items ≡ length paths.now) }
    ensures short { IfOk result (λ scripts. AllByRecursion
        (λ script. length script.items ≤ input_limit) scripts.items) }
    ensures ends { IfErr result IsInputFault }
{
    let opened = open_all(files, alloc, paths)?;
    read_each(alloc, opened)
}
