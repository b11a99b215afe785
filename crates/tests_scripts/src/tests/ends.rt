//! What the program ends with: its status, and its line on standard error.
use super::fakes::{Stream, Writer};
use super::links::{CREATED, run};
use super::runs::{ScriptKind, StreamRun};
use super::{Row, all_hold};
use cfdp_sim::{LinkFault, Open, ProgramEnd, RunFault};
use std::alloc::{AllocError, Global};
use std::fmt::Display;
use std::process::Abort;
use std::sync::Wait;
use std::thread::Threads;

/// Whether this is the end's line.
fn has_line(alloc: Global, end: ProgramEnd, line: &str) -> Result<bool, AllocError> {
    let printed = end.to_string(alloc)?;
    Ok(printed.as_str() == line)
}

/// Whether these are the end's status and line. Out of memory, the line is printed once more.
fn is_end(alloc: Global, end: ProgramEnd, status: u8, line: &str) -> bool {
    let is_line = has_line(alloc, end, line) == Ok(true) || has_line(alloc, end, line) == Ok(true);
    is_line && end.status() == status
}

/// An end, its status and its line.
type End = (ProgramEnd, u8, &'static str);

static ENDS: [(&str, End); 11] = [
    ("fine", (ProgramEnd::Fine, 0, "")),
    ("usage", (ProgramEnd::Usage, 2, "cfdpsim: usage")),
    (
        "a read failed",
        (ProgramEnd::Run(RunFault::Read), 1, "cfdpsim: read failed"),
    ),
    (
        "a write failed",
        (ProgramEnd::Run(RunFault::Write), 1, "cfdpsim: write failed"),
    ),
    (
        "out of memory",
        (
            ProgramEnd::Run(RunFault::Memory),
            1,
            "cfdpsim: out of memory",
        ),
    ),
    (
        "a bad line",
        (ProgramEnd::Run(RunFault::BadLine(7)), 3, "cfdpsim: line 7"),
    ),
    (
        "a write of links failed",
        (
            ProgramEnd::Link(LinkFault::Write),
            1,
            "cfdpsim: write failed",
        ),
    ),
    (
        "links ran out of memory",
        (
            ProgramEnd::Link(LinkFault::Memory),
            1,
            "cfdpsim: out of memory",
        ),
    ),
    (
        "the journal of links is full",
        (
            ProgramEnd::Link(LinkFault::JournalFull),
            1,
            "cfdpsim: journal full",
        ),
    ),
    (
        "receipts of links differ",
        (
            ProgramEnd::Link(LinkFault::ReceiptsDiffer),
            1,
            "cfdpsim: receipts differ",
        ),
    ),
    (
        "a bad line of links",
        (
            ProgramEnd::Link(LinkFault::BadLine(1, 5)),
            3,
            "cfdpsim: line 5",
        ),
    ),
];

impl Row for End {
    fn holds<R: Abort + Print>(&self, _rt: &R, alloc: Global) -> bool {
        is_end(alloc, self.0, self.1, self.2)
    }
}

#[test]
fn ends(rt: HostRuntime) {
    all_hold(&rt, rt.alloc(), &ENDS);
}

/// Creates a file.
const CREATE: &str = "0003000161\n";

/// What is written of it.
const CREATE_REPORT: &str = "010400016100\n";

/// No call fails.
const SOUND: Stream = Stream {
    most: 100,
    fails_at: None,
};

/// The first call fails.
const FIRST_FAILS: Stream = Stream {
    most: 100,
    fails_at: Some(0),
};

/// The second call fails.
const SECOND_FAILS: Stream = Stream {
    most: 100,
    fails_at: Some(1),
};

/// A script, a beginning of what it writes, its reads and its writes, and the status and the line of the end that its
/// run comes to.
struct EndedRun {
    kind: ScriptKind,
    script: &'static str,
    report: &'static str,
    reads: Stream,
    writes: Stream,
    status: u8,
    line: &'static str,
}

static ENDINGS: [(&str, EndedRun); 2] = [
    (
        "the second read fails",
        EndedRun {
            kind: ScriptKind::Plain,
            script: CREATE,
            report: CREATE_REPORT,
            reads: SECOND_FAILS,
            writes: SOUND,
            status: 1,
            line: "cfdpsim: read failed",
        },
    ),
    (
        "the first write fails",
        EndedRun {
            kind: ScriptKind::Plain,
            script: CREATE,
            report: CREATE_REPORT,
            reads: SOUND,
            writes: FIRST_FAILS,
            status: 1,
            line: "cfdpsim: write failed",
        },
    ),
];

/// What the program ends with where the run of a script comes to this.
fn end_of<R: Abort + Print>(rt: &R, alloc: Global, ending: &EndedRun) -> ProgramEnd {
    let run = StreamRun {
        kind: ending.kind,
        script: ending.script.as_bytes(),
        report: ending.report,
        reads: ending.reads,
        writes: ending.writes,
    };
    match run.run(rt, alloc).end {
        Ok(()) => ProgramEnd::Fine,
        Err(fault) => ProgramEnd::Run(fault),
    }
}

impl Row for EndedRun {
    fn holds<R: Abort + Print>(&self, rt: &R, alloc: Global) -> bool {
        is_end(alloc, end_of(rt, alloc, self), self.status, self.line)
    }
}

#[test]
fn ends_of_runs(rt: HostRuntime) {
    all_hold(&rt, rt.alloc(), &ENDINGS);
}

/// What the program ends with where a run of `links` over one file comes to this.
fn end_of_links<R: Abort + Threads + Wait + Sync>(
    rt: &R,
    alloc: Global,
    writes: Stream,
) -> ProgramEnd {
    let mut writer = Writer::new(alloc, writes);
    match run(rt, alloc, &[&[CREATED]], &Open, &mut writer) {
        Ok(()) => ProgramEnd::Fine,
        Err(fault) => ProgramEnd::Link(fault),
    }
}

/// The end of `links` where its writer fails.
#[test]
fn ends_of_links(rt: HostRuntime) {
    let end = end_of_links(&rt, rt.alloc(), FIRST_FAILS);
    assert!(rt;
        is_end(rt.alloc(), end, 1, "cfdpsim: write failed"),
        "a writer that fails"
    );
}
