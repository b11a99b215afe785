//! The words of the command line.

use crate::compose::ScriptPlayer;
use crate::disturb::Odds;
use crate::end::End;
use crate::receive::LiveOptions;
use crate::run::Options;
use crate::usage::program;
use cfdp_words::Style;
use clap::error::ErrorKind;
use clap::{ArgMatches, Error};
use std::alloc::Global;
use std::rt::Env;
use std::{env, io};

/// What the words ask for.
#[derive(Drop)]
pub enum AskedCommand<'a> {
    /// To print this help, or the version.
    Help(String),
    /// To show the PDUs of this file, or of standard input without one.
    Show(Style, Option<&'a str>),
    /// To write the script of the plan in this file, for this command.
    Compose(ScriptPlayer, &'a str),
    /// To judge the plan in this file, on what this folder has, if there is one.
    Judge(&'a str, Option<&'a str>),
    /// To play the script in this file, or of standard input without one.
    Run(Option<&'a str>, Options<'a>),
    /// To draw what the script in this file does, or that of standard input without one.
    Draw(Option<&'a str>),
    /// To write the script in this file, or of standard input without one, as if its PDUs came over a link with these
    /// odds and this seed.
    Disturb(Odds, u64, Option<&'a str>),
    /// To receive until standard input ends.
    Receive(LiveOptions<'a>),
}

/// The words of the command line.
pub fn read<R: AllocGlobal + Env>(rt: &R) -> Result<Vec<String>, End> {
    let words = match env::args(rt) {
        Ok(words) => words,
        Err(error) if error.kind() == io::ErrorKind::OutOfMemory => return Err(End::Memory),
        Err(_) => return Err(End::Words(String::from_str(rt.alloc(), "a word is no text")?)),
    };
    Ok(words.collect(rt.alloc())?)
}

/// What these words ask for, of which the first is the program's own name.
pub fn parse<'a>(alloc: Global, words: &'a [String]) -> Result<AskedCommand<'a>, End> {
    match matches(alloc, words) {
        Ok(matches) => match asked_by(&matches) {
            Some(asked) => Ok(asked),
            None => Err(End::Words(String::from_str(alloc, "expected a command")?)),
        },
        Err(error) => refused(alloc, &error),
    }
}

/// What is found in the words.
fn matches<'a>(alloc: Global, words: &'a [String]) -> Result<ArgMatches<'a>, Error> {
    let program = program(alloc)?;
    program.try_get_matches_from(words)
}

/// What is said where the words are no command: help, or why not.
fn refused<'a>(alloc: Global, error: &Error) -> Result<AskedCommand<'a>, End> {
    match error.kind() {
        ErrorKind::OutOfMemory => Err(End::Memory),
        ErrorKind::DisplayHelp | ErrorKind::DisplayVersion => {
            Ok(AskedCommand::Help(format!(in alloc; "{error}")?))
        }
        _ => Err(End::Words(format!(in alloc; "{error}")?)),
    }
}

/// What `compose` is asked for.
fn compose<'a>(found: &ArgMatches<'a>) -> Option<AskedCommand<'a>> {
    let plan = found.get_str("PLAN")?;
    let player = if found.get_flag("timed") {
        ScriptPlayer::Run
    } else {
        ScriptPlayer::Replay
    };
    Some(AskedCommand::Compose(player, plan))
}

/// What `disturb` is asked for.
fn disturb<'a>(found: &ArgMatches<'a>) -> AskedCommand<'a> {
    let percent = |name: &str| found.get_one(name).unwrap_or(0);
    let odds = Odds {
        loss: percent("loss"),
        twice: percent("twice"),
        swap: percent("swap"),
    };
    let seed = found.get_one("seed").unwrap_or(1);
    AskedCommand::Disturb(odds, seed, found.get_str("FILE"))
}

/// What `run` is asked for.
fn run<'a>(found: &ArgMatches<'a>) -> AskedCommand<'a> {
    let options = Options {
        tells: found.get_flag("tell"),
        into: found.get_str("into"),
        capture: found.get_str("pcap"),
    };
    AskedCommand::Run(found.get_str("FILE"), options)
}

/// What `receive` is asked for.
fn receive<'a>(found: &ArgMatches<'a>) -> Option<AskedCommand<'a>> {
    let into = found.get_str("into")?;
    let mib = found.get_str("mib");
    Some(AskedCommand::Receive(LiveOptions { into, mib }))
}

/// What `judge` is asked for.
fn judge<'a>(found: &ArgMatches<'a>) -> Option<AskedCommand<'a>> {
    let plan = found.get_str("PLAN")?;
    Some(AskedCommand::Judge(plan, found.get_str("on")))
}

/// What `show` is asked for.
fn show<'a>(found: &ArgMatches<'a>) -> AskedCommand<'a> {
    let style = if found.get_flag("json") {
        Style::Json
    } else {
        Style::Text
    };
    AskedCommand::Show(style, found.get_str("FILE"))
}

/// What the words ask for in which these matches were found: a command, with the words that it requires.
fn asked_by<'a>(matches: &ArgMatches<'a>) -> Option<AskedCommand<'a>> {
    if let Some(found) = matches.subcommand_matches("compose") {
        return compose(found);
    }
    if let Some(found) = matches.subcommand_matches("disturb") {
        return Some(disturb(found));
    }
    if let Some(found) = matches.subcommand_matches("run") {
        return Some(run(found));
    }
    if let Some(found) = matches.subcommand_matches("draw") {
        return Some(AskedCommand::Draw(found.get_str("FILE")));
    }
    if let Some(found) = matches.subcommand_matches("receive") {
        return receive(found);
    }
    if let Some(found) = matches.subcommand_matches("judge") {
        return judge(found);
    }
    Some(show(matches.subcommand_matches("show")?))
}
