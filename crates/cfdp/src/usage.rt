//! The commands of the program and their words, for `clap`.

use clap::{Arg, ArgAction, Command, value_parser};
use std::alloc::{AllocError, Global};

/// Whether the program is built without a proof: then it says so. `./build` sets this in a copy of the crate.
const UNPROVED: bool = false;

/// What `judge` does.
const JUDGE: &str =
    "Prints the verdict on each transaction of a plan: each is judged on the filestore after those before it";

/// What `disturb` does.
const DISTURB: &str =
    "Writes a script as if its PDUs came over a bad link; a PDU line passes no line of another kind";

/// The words of `show`.
fn show<'a>(alloc: Global) -> Result<Command<'a>, AllocError> {
    let json = Arg::new(alloc, "json")
        .long("json")
        .action(ArgAction::SetTrue)
        .help("One JSON value for each PDU");
    let file = Arg::new(alloc, "FILE").help(
        "PDUs in hexadecimal, as octets, or a pcap capture; else standard input",
    );
    Command::new(alloc, "show")
        .about("Prints what PDUs say")
        .arg(json)?
        .arg(file)
}

/// A plan of uploads.
fn plan<'a>(alloc: Global) -> Arg<'a> {
    Arg::new(alloc, "PLAN")
        .required(true)
        .help("A plan of uploads: docs/FORMATS.md, 'Plans'")
}

/// The words of `compose`.
fn compose<'a>(alloc: Global) -> Result<Command<'a>, AllocError> {
    let timed = Arg::new(alloc, "timed")
        .long("timed")
        .action(ArgAction::SetTrue)
        .help("For cfdp run, a PDU each second; else for cfdpsim replay");
    Command::new(alloc, "compose")
        .about("Writes the script of a plan, for cfdpsim replay or cfdp run")
        .arg(timed)?
        .arg(plan(alloc))
}

/// The words of `judge`.
fn judge<'a>(alloc: Global) -> Result<Command<'a>, AllocError> {
    let on = Arg::new(alloc, "on")
        .long("on")
        .value_name("DIR")
        .help("What the filestore has at first; nothing without it");
    Command::new(alloc, "judge")
        .about(JUDGE)
        .arg(plan(alloc))?
        .arg(on)
}

/// How likely something is.
fn odds<'a>(alloc: Global, name: &'a str, help: &'a str) -> Arg<'a> {
    Arg::new(alloc, name)
        .long(name)
        .value_name("P")
        .value_parser(value_parser!(u8).range(0..=100))
        .help(help)
}

/// The words of `disturb`.
fn disturb<'a>(alloc: Global) -> Result<Command<'a>, AllocError> {
    let seed = Arg::new(alloc, "seed")
        .long("seed")
        .value_name("N")
        .value_parser(value_parser!(u64))
        .help("What is drawn: the same for the same number; 1 without it");
    let file = Arg::new(alloc, "FILE").help(
        "A script of cfdpsim replay or cfdp run; else standard input",
    );
    Command::new(alloc, "disturb")
        .about(DISTURB)
        .arg(odds(alloc, "loss", "How likely a PDU line is lost, in percent"))?
        .arg(odds(
            alloc,
            "twice",
            "How likely it is written twice, if it is not lost",
        ))?
        .arg(odds(
            alloc,
            "swap",
            "How likely it comes after the next line, if that is a PDU line too",
        ))?
        .arg(seed)?
        .arg(file)
}

/// The words of `run`.
fn run<'a>(alloc: Global) -> Result<Command<'a>, AllocError> {
    let tell = Arg::new(alloc, "tell")
        .long("tell")
        .action(ArgAction::SetTrue)
        .help("Tells what each PDU says, in lines that begin with #");
    let into = Arg::new(alloc, "into")
        .long("into")
        .value_name("DIR")
        .help("Writes the filestore into this new folder at the end");
    let pcap = Arg::new(alloc, "pcap")
        .long("pcap")
        .value_name("CAPTURE")
        .help("Captures all PDUs in this file, as UDP datagrams in the pcap format");
    let file = Arg::new(alloc, "FILE").help(
        "A script: docs/FORMATS.md, 'Scripts of cfdp run'; else standard input",
    );
    Command::new(alloc, "run")
        .about("Plays a script against a receiving entity, and prints what it answers")
        .arg(tell)?
        .arg(into)?
        .arg(pcap)?
        .arg(file)
}

/// What `draw` does.
const DRAW: &str =
    "Plays a script as run does, and writes a picture of the run to standard output, in SVG";

/// The words of `draw`.
fn draw<'a>(alloc: Global) -> Result<Command<'a>, AllocError> {
    let file = Arg::new(alloc, "FILE").help(
        "A script: docs/FORMATS.md, 'Scripts of cfdp run'; else standard input",
    );
    Command::new(alloc, "draw").about(DRAW).arg(file)
}

/// What `receive` does.
const RECEIVE: &str =
    "Receives: PDUs in on standard input and out on standard output, one after the other, until the input ends";

/// The words of `receive`.
fn receive<'a>(alloc: Global) -> Result<Command<'a>, AllocError> {
    let into = Arg::new(alloc, "into")
        .long("into")
        .value_name("DIR")
        .required(true)
        .help("The folder that holds what the filestore holds; it is read first, or made");
    let mib = Arg::new(alloc, "mib").long("mib").value_name("FILE").help(
        "The setup: docs/FORMATS.md, 'A live receiver'; else the defaults",
    );
    Command::new(alloc, "receive")
        .about(RECEIVE)
        .arg(into)?
        .arg(mib)
}

/// What the program is.
fn about() -> &'static str {
    if UNPROVED {
        "File transfers by CFDP (CCSDS 727.0-B-5). This program is not proved"
    } else {
        "File transfers by CFDP (CCSDS 727.0-B-5)"
    }
}

/// What `--version` says after the program's name.
fn version() -> &'static str {
    if UNPROVED {
        "0.1.0, not proved"
    } else {
        "0.1.0"
    }
}

/// The words that the program knows.
pub fn program<'a>(alloc: Global) -> Result<Command<'a>, AllocError> {
    Command::new(alloc, "cfdp")
        .about(about())
        .version(version())
        .subcommand_required(true)
        .subcommand(show(alloc)?)?
        .subcommand(compose(alloc)?)?
        .subcommand(judge(alloc)?)?
        .subcommand(run(alloc)?)?
        .subcommand(draw(alloc)?)?
        .subcommand(disturb(alloc)?)?
        .subcommand(receive(alloc)?)
}
