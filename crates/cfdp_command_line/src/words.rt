//! The words of the command line.
ghost use Rattle.std.specs.Prelude.{◌≡◌, ◌≢◌, ◌⊎◌, ℕ, List, [], ◌∷◌, map, true, false, codes, unwrap_or, OnOk, IfOk, IfErr, Err};
ghost use Rattle.clap.specs.Words.{all_of, app_of, fault_of, found_of, kind_of, rows_of, shape_of, subcommand_of, subcommand_rows_of, takes};
ghost use Rattle.clap.specs.declared.error.kind.ErrorKind.TheVariants as kind;
ghost use Rattle.cfdp_ends.specs.declared.program_end.ProgramEnd.TheVariants.{Usage, Run};
ghost use Rattle.cfdp_lines.specs.declared.faults.RunFault.TheVariants.{Memory};
ghost use Rattle.cfdp_command_line.specs.Words.{IsAsked, links_shape, program, replay_shape};
ghost use Rattle.cfdp_command_line.specs.code.Words.{has_globals};

use cfdp_ends::ProgramEnd;
use cfdp_lines::RunFault;
use clap::error::ErrorKind;
use clap::{Arg, ArgMatches, Command, Error};
use std::alloc::{AllocError, Global};
use std::convert::AsStr;
use std::rt::Env;
use std::{env, io};

/// What the words ask for.
#[derive(Debug, Drop, PartialEq, Eq)]
pub enum Asked<'a> {
    /// `plain`: to run filestore requests from standard input.
    Plain,
    /// `replay`: to run PDUs and local events from this file, or from standard input.
    Replay(Option<&'a str>),
    /// `links`: to run PDUs and local events from these files, a worker each.
    Links(Vec<&'a str>),
}

/// The words of the command line. Words that are no text are unknown ones.
///
/// # Errors
///
/// `Usage` for words that are no text, and the run's `Memory` out of memory.
pub fn read_words<R: AllocGlobal + Env>(rt: &R) -> Result<Vec<String>, ProgramEnd>
    ensures { IfErr result (λ end. (end ≡ Usage) ⊎ (end ≡ Run Memory)) }
{
    let words = match env::args(rt) {
        Ok(words) => words,
        Err(error) if error.kind() == io::ErrorKind::OutOfMemory => {
            return Err(ProgramEnd::Run(RunFault::Memory));
        }
        Err(_) => return Err(ProgramEnd::Usage),
    };
    words
        .collect(rt.alloc())
        .map_err(|_| ProgramEnd::Run(RunFault::Memory))
}

/// What these words ask for, of which the first is the program's own name. A call for help is no command.
///
/// # Errors
///
/// `Usage` for words that are no command, and the run's `Memory` out of memory.
pub fn parse<'a, S: AsStr>(alloc: Global, words: &'a [S]) -> Result<Asked<'a>, ProgramEnd>
    // It is the command that the words name, with their files.
    ensures asked { IfOk result (IsAsked (subcommand_of program (map S.text words.now))) }
    // The words of a command leave `clap` nothing to refuse, and only words that it does not take are unknown.
    ensures taken { OnOk result (fault_of program (map S.text words.now) ≡ []) }
    ensures refused { result ≡ Err Usage → takes program (map S.text words.now) ≢ true }
    // Whatever the program's own name, `plain` alone is a command, and so is `replay`.
    ensures plain { (name : List ℕ) → map S.text words.now ≡ name ∷ codes "plain" ∷ [] → result ≢ Err Usage }
    ensures replay { (name : List ℕ) → map S.text words.now ≡ name ∷ codes "replay" ∷ [] → result ≢ Err Usage }
    ensures ends { IfErr result (λ end. (end ≡ Usage) ⊎ (end ≡ Run Memory)) }
{
    match parse_command(alloc, words) {
        Ok(asked) => Ok(asked),
        Err(error) if error.kind() == ErrorKind::OutOfMemory => {
            Err(ProgramEnd::Run(RunFault::Memory))
        }
        Err(_) => Err(ProgramEnd::Usage),
    }
}

/// Like `parse`, with the errors of `clap`.
fn parse_command<'a, S: AsStr>(alloc: Global, words: &'a [S]) -> Result<Asked<'a>, Error>
    ensures asked { IfOk result (IsAsked (subcommand_of program (map S.text words.now))) }
    ensures taken { OnOk result (fault_of program (map S.text words.now) ≡ []) }
    ensures refused { IfErr result (λ error. takes program (map S.text words.now) ≡ true → kind_of error
        ≡ kind.OutOfMemory) }
{
    let program = program_of(alloc)?;
    let matches = program.try_get_matches_from(words)?;
    let asked = asked_by(alloc, &matches)?;
    Ok(asked)
}

/// The command `replay`, which may have a file.
fn replay_command<'a>(alloc: Global) -> Result<Command<'a>, AllocError>
    ensures shape { IfOk result (λ command. shape_of command ≡ replay_shape) }
    ensures local { IfOk result (λ command. has_globals command ≡ false) }
{
    let file = Arg::new(alloc, "FILE");
    let command = Command::new(alloc, "replay").arg(file)?;
    Ok(command)
}

/// The command `links`, which has one to four files.
fn links_command<'a>(alloc: Global) -> Result<Command<'a>, AllocError>
    ensures shape { IfOk result (λ command. shape_of command ≡ links_shape) }
    ensures local { IfOk result (λ command. has_globals command ≡ false) }
{
    let files = Arg::new(alloc, "FILE").required(true).num_args(1..=4);
    let command = Command::new(alloc, "links").arg(files)?;
    Ok(command)
}

/// The words that the program knows.
fn program_of<'a>(alloc: Global) -> Result<Command<'a>, AllocError>
    ensures { IfOk result (λ command. app_of command ≡ program) }
{
    let plain = Command::new(alloc, "plain");
    let program = Command::new(alloc, "cfdpsim")
        .subcommand_required(true)
        .subcommand(plain)?
        .subcommand(replay_command(alloc)?)?
        .subcommand(links_command(alloc)?)?;
    Ok(program)
}

/// What the words ask for in which these matches were found.
fn asked_by<'a>(alloc: Global, matches: &ArgMatches<'a>) -> Result<Asked<'a>, AllocError>
    ensures { IfOk result (IsAsked (subcommand_rows_of matches.now)) }
{
    if let Some(found) = matches.subcommand_matches("replay") {
        return Ok(Asked::Replay(found.get_str("FILE")));
    }
    match matches.subcommand_matches("links") {
        Some(found) => Ok(Asked::Links(files_of(alloc, found)?)),
        None => Ok(Asked::Plain),
    }
}

/// The files that come after a command, in their order.
fn files_of<'a>(alloc: Global, found: &ArgMatches<'a>) -> Result<Vec<&'a str>, AllocError>
    ensures { IfOk result (λ files. map (λ name. name.now) files.items
        ≡ unwrap_or (all_of (codes "FILE") (rows_of (found_of found.now))) []) }
{
    match found.get_strs("FILE") {
        Some(files) => Vec::from_slice(alloc, files),
        None => Ok(Vec::new(alloc)),
    }
}
