//! Reads and writes that fail in mid-stream, and std's streams that are interrupted.
use super::fakes::{Call, Reader, Scripted, Stream, Writer};
use super::links::link;
use super::runs::{Ran, ScriptKind, StreamRun, has_text};
use super::{REPLAY_REPORT, REPLAY_SCRIPT, REPORT, Row, SCRIPT, all_hold};
use cfdp_commands::{Requests, Transfers};
use cfdp_lines::{LineFault, Script};
use cfdp_sim::{
    Failed, FromRead, LinkFault, Open, RunFault, ScriptIn, ScriptOut, ToWrite, plain, replay,
};
use cfdp_tree::TreeStore;
use std::alloc::{AllocError, Global};
use std::process::Abort;
use std::sync::Wait;
use std::thread::Threads;

/// A script of either kind, each line of which that is not empty is answered by a line.
struct Example {
    kind: ScriptKind,
    script: &'static str,
    report: &'static str,
}

static EXAMPLES: [(&str, Example); 2] = [
    (
        "three lists of requests",
        Example {
            kind: ScriptKind::Plain,
            script: SCRIPT,
            report: REPORT,
        },
    ),
    (
        "a cancelled list beside another",
        Example {
            kind: ScriptKind::Replay,
            script: REPLAY_SCRIPT,
            report: REPLAY_REPORT,
        },
    ),
];

/// How many lines of a script that begins with a request are requests.
fn requests(octets: &[u8]) -> usize {
    let mut count = 0usize;
    let mut last = b'\n';
    for octet in octets {
        if *octet == b'\n' && last != b'\n' {
            count = count.saturating_add(1);
        }
        last = *octet;
    }
    count
}

impl Example {
    /// A run of it over these streams.
    fn run(&self, reads: Stream, writes: Stream) -> StreamRun<'static> {
        StreamRun {
            kind: self.kind,
            script: self.script.as_bytes(),
            report: self.report,
            reads,
            writes,
        }
    }
}

/// Whether of a script the lines that were read are answered, and no other, where the reader failed at the kth read of
/// one octet each.
fn ends_at_read(ran: &Ran<'_>, example: &Example, k: usize) -> bool {
    let script = example.script.as_bytes();
    let fails = k <= script.len();
    let end = if fails { Err(RunFault::Read) } else { Ok(()) };
    let read = script.get(..k).unwrap_or(script);
    ran.stated() == (end, fails, false)
        && ran.has_begun(example.report)
        && requests(&ran.writer.text) == requests(read)
}

/// The kth read fails, of one octet each: the lines that were read before are answered, and no other.
fn fail_reads<R: Abort + Print>(rt: &R, alloc: Global, name: &str, example: &Example) {
    for k in 0..example.script.len() + 2 {
        let run = example.run(Stream::failing(1, k), Stream::sound(100));
        let ran = run.run(rt, alloc);
        assert!(rt; ends_at_read(&ran, example, k), "{name}: the read {k}");
    }
}

/// Whether of a report the octets before the kth are written, at which the writer failed.
fn ends_at_write(ran: &Ran<'_>, example: &Example, k: usize) -> bool {
    let fails = k < example.report.len();
    let end = if fails { Err(RunFault::Write) } else { Ok(()) };
    ran.stated() == (end, false, fails)
        && ran.has_begun(example.report)
        && ran.writer.text.len() == k
}

/// The kth write fails, of one octet each: the octets before it are a beginning of the report.
fn fail_writes<R: Abort + Print>(rt: &R, alloc: Global, name: &str, example: &Example) {
    for k in 0..example.report.len() + 1 {
        let run = example.run(Stream::sound(100), Stream::failing(1, k));
        let ran = run.run(rt, alloc);
        assert!(rt; ends_at_write(&ran, example, k), "{name}: the write {k}");
    }
}

#[test]
fn reads(rt: HostRuntime) {
    for (name, example) in &EXAMPLES {
        fail_reads(&rt, rt.alloc(), name, example);
    }
}

#[test]
fn writes(rt: HostRuntime) {
    for (name, example) in &EXAMPLES {
        fail_writes(&rt, rt.alloc(), name, example);
    }
}

impl Row for Example {
    fn holds<R: Abort + Print>(&self, rt: &R, alloc: Global) -> bool {
        let run = self.run(Stream::sound(100), Stream::sound(100));
        let ran = run.run(rt, alloc);
        ran.end == Ok(()) && ran.writer.text.as_slice() == self.report.as_bytes()
    }
}

/// Further scripts: a file that is created, two spellings of one path, a file in two pieces, a list that is cancelled.
static REFUSED: [(&str, Example); 4] = [
    (
        "a file that is created",
        Example {
            kind: ScriptKind::Replay,
            script: "\
            pdu 24000D00010502 07 40 00000000 00 00 00 03 00 01 61\n\
            pdu 24000A00010502 04 00 00000000 00000000\n\
            step 1 5\ntake 1 5\n",
            report: "\
            1/5 admitted blocks 1 steps 2\n1/5 complete\n1/5 performed 00\n\
            1/5 finished 2c0008000105020503010400016100\n",
        },
    ),
    (
        "two spellings of one path",
        Example {
            kind: ScriptKind::Replay,
            script: "\
            pdu 24001300010802 0740 00000000 0000 000400022f61 0003100161\n\
            pdu 24000a00010802 0400 00000000 00000000\n\
            step 1 8\nstep 1 8\ntake 1 8\n",
            report: "\
            1/8 admitted blocks 1 steps 4\n1/8 complete\n1/8 performed 00\n1/8 performed 10\n\
            1/8 finished 2c000f000108020503010500022f6100010410016100\n",
        },
    ),
    (
        "a file in two pieces",
        Example {
            kind: ScriptKind::Replay,
            script: "\
            pdu 24000a00010a02 0740 0000000f 0173 0166\n\
            pdu 34000b00010a02 00000008 08090a0b0c0d0e\n\
            pdu 34000e00010a02 00000000 00010203040506070809\n\
            pdu 24000a00010a02 0400 181c2015 0000000f\n\
            step 1 10\ntake 1 10\nlist\n",
            report: "\
            1/10 admitted blocks 2 steps 2\n1/10 stored\n1/10 stored\n1/10 complete\n1/10 installed\n\
            1/10 finished 2c000200010a020502\n\
            store used 2 free 62 spare 62\nfile f 15 181c2015\n",
        },
    ),
    (
        "a list that is cancelled",
        Example {
            kind: ScriptKind::Replay,
            script: "\
            pdu 24001700010c02 0740 00000000 0000 0003000161 0003000162 0003000163\n\
            pdu 24000a00010c02 0400 00000000 00000000\n\
            step 1 12\ncancel 1 12\n\
            pdu 24000d00010d02 0740 00000000 0000 0003100161\n\
            take 1 12\n",
            report: "\
            1/12 admitted blocks 3 steps 6\n1/12 complete\n1/12 performed 00\n1/12 cancelled\n\
            1/13 admitted blocks 0 steps 2\n\
            1/12 finished 2c001700010c0205f301040001610001040f01620001040f016300060102\n",
        },
    ),
];

/// Out of memory, that is reported, and what was written is a beginning of the report; run once more, all is written.
#[test]
fn memory(rt: HostRuntime) {
    all_hold(&rt, rt.alloc(), &EXAMPLES);
    all_hold(&rt, rt.alloc(), &REFUSED);
}

/// Each script in memory has its report for its text.
fn all_have_texts<R: Abort + Print>(rt: &R, alloc: Global, examples: &[(&str, Example)]) {
    for (name, example) in examples {
        let script = example.script.as_bytes();
        let holds = has_text(rt, alloc, example.kind, script, example.report, Ok(()));
        assert!(rt; holds, "{name}");
    }
}

/// A script in memory has its report for its text ..
#[test]
fn texts(rt: HostRuntime) {
    all_have_texts(&rt, rt.alloc(), &EXAMPLES);
    all_have_texts(&rt, rt.alloc(), &REFUSED);
}

/// .. or comes to the fault of its first bad line.
#[test]
fn texts_of_bad_lines(rt: HostRuntime) {
    let end = Err(RunFault::BadLine(2));
    let script = b"# a\n0\n".as_slice();
    assert!(rt;
        has_text(&rt, rt.alloc(), ScriptKind::Plain, script, "", end),
        "plain"
    );
    assert!(rt;
        has_text(&rt, rt.alloc(), ScriptKind::Replay, script, "", end),
        "replay"
    );
}

/// A bad line, and what is bad of it.
type Bad = (&'static str, &'static [u8]);

/// Lines that are bad to `plain`. Each asks for memory, but for the first one.
static BAD_REQUESTS: [Bad; 5] = [
    ("an octet that is no digit, alone", b"z"),
    ("an octet that is no digit", b"0003z00161"),
    ("half a pair", b"000300016"),
    ("a bad word before good ones", b"000 0300 0161"),
    ("a bad word after good ones", b"0003 0001 6"),
];

/// Lines that are bad to `replay`.
static BAD_EVENTS: [Bad; 7] = [
    ("an octet that is no digit", b"pdu 24z0"),
    ("half a pair", b"pdu 240"),
    ("a bad word after good ones", b"pdu 24 00 0"),
    ("no octets", b"pdu  "),
    ("no transaction", b"step 1"),
    ("no path", b"protect 612f2f62"),
    ("no pair of a path", b"protect 61 6"),
];

/// Whether a line of a script is bad.
fn is_bad<S: Script + Drop>(alloc: Global, script: S, line: &[u8]) -> bool {
    let mut script = script;
    let mut out = Vec::new(alloc);
    script.line(alloc, line, &mut out) == Err(LineFault::Bad) && out.is_empty()
}

/// A bad line is reported as bad, and never as a fault of memory: by `plain` ..
#[test]
fn memory_of_bad_requests(rt: HostRuntime) -> Result<(), AllocError> {
    for (name, line) in &BAD_REQUESTS {
        let Ok(store) = TreeStore::new(rt.alloc(), 64) else {
            return Err(AllocError);
        };
        let script = Requests::new(rt.alloc(), store);
        assert!(rt; is_bad(rt.alloc(), script, line), "{name}");
    }
    Ok(())
}

/// .. by `replay` ..
#[test]
fn memory_of_bad_events(rt: HostRuntime) {
    for (name, line) in &BAD_EVENTS {
        assert!(rt;
            is_bad(rt.alloc(), Transfers::new(rt.alloc()), line),
            "{name}"
        );
    }
}

/// Some octets, and `count` times one octet after them.
fn repeated(alloc: Global, before: &[u8], octet: u8, count: usize) -> Result<Vec<u8>, AllocError> {
    let mut octets = Vec::from_slice(alloc, before)?;
    for _ in 0..count {
        octets.push(octet)?;
    }
    Ok(octets)
}

/// .. also a path of 778 octets, two more than one may have ..
#[test]
fn memory_of_a_long_path(rt: HostRuntime) -> Result<(), AllocError> {
    let line = repeated(rt.alloc(), b"protect ", b'6', 2 * 778)?;
    assert!(rt;
        is_bad(rt.alloc(), Transfers::new(rt.alloc()), &line),
        "a path of 778 octets"
    );
    Ok(())
}

/// Whether the first line of a file is bad to `links`.
fn is_bad_file<R: Abort + Threads + Wait + Sync>(
    rt: &R,
    alloc: Global,
    file: Vec<u8>,
) -> Result<bool, AllocError> {
    let mut scripts = Vec::new(alloc);
    scripts.push(file)?;
    let mut writer = Writer::new(alloc, Stream::sound(100));
    let end = link(rt, alloc, &scripts, &Open, &mut writer);
    Ok(end == Err(LinkFault::BadLine(0, 1)) && writer.text.is_empty())
}

/// .. and by `links` ..
#[test]
fn memory_of_bad_files(rt: HostRuntime) -> Result<(), AllocError> {
    for (name, line) in &BAD_EVENTS {
        let file = Vec::from_slice(rt.alloc(), line)?;
        let is_bad = is_bad_file(&rt, rt.alloc(), file)?;
        assert!(rt; is_bad, "{name}");
    }
    Ok(())
}

/// .. also a line that is too long.
#[test]
fn memory_of_long_lines(rt: HostRuntime) -> Result<(), AllocError> {
    for (name, octet) in &[("spaces", b' '), ("a comment", b'#')] {
        let mut file = repeated(rt.alloc(), b"", *octet, 200_001)?;
        file.extend_from_slice(b"\nrun\n")?;
        let is_bad = is_bad_file(&rt, rt.alloc(), file)?;
        assert!(rt; is_bad, "{name}");
    }
    Ok(())
}

/// What calls of std's stream answer, and what the first read and the first write over it then answer.
type Moved = (
    &'static [Call],
    Result<usize, Failed>,
    Result<usize, Failed>,
);

/// A write that takes nothing has failed; an interrupted call is made again.
static STREAMS: [(&str, Moved); 5] = [
    (
        "each call moves",
        (&[Call::Moves, Call::Moves], Ok(1), Ok(1)),
    ),
    (
        "the first call moves nothing",
        (&[Call::Nothing, Call::Moves], Ok(0), Err(Failed)),
    ),
    (
        "the first call is interrupted",
        (&[Call::Interrupted, Call::Moves], Ok(1), Ok(1)),
    ),
    (
        "interrupted, and then broken",
        (&[Call::Interrupted, Call::Broken], Err(Failed), Err(Failed)),
    ),
    (
        "the first call is broken",
        (&[Call::Broken, Call::Moves], Err(Failed), Err(Failed)),
    ),
];

/// What is written.
static OCTETS: [u8; 3] = *b"abc";

/// What a read over the stream answers, and whether it had failed before and has failed then.
fn read(calls: &[Call]) -> (Result<usize, Failed>, bool, bool) {
    let mut reader = FromRead::new(Scripted { calls });
    let before = reader.has_failed();
    let answer = reader.read(&mut [0; 4]);
    (answer, before, reader.has_failed())
}

/// Like `read`, of a write.
fn written(calls: &[Call]) -> (Result<usize, Failed>, bool, bool) {
    let mut writer = ToWrite::new(Scripted { calls });
    let before = writer.has_failed();
    let answer = writer.write(&OCTETS);
    (answer, before, writer.has_failed())
}

impl Row for Moved {
    fn holds<R: Abort + Print>(&self, _rt: &R, _alloc: Global) -> bool {
        let (calls, wanted_read, wanted_write) = *self;
        read(calls) == (wanted_read, false, wanted_read.is_err())
            && written(calls) == (wanted_write, false, wanted_write.is_err())
    }
}

#[test]
fn std_streams(rt: HostRuntime) {
    all_hold(&rt, rt.alloc(), &STREAMS);
}

/// A stream that takes nothing.
static NOTHING: [Call; 1] = [Call::Nothing];

/// How a run ends whose writer takes nothing.
fn end_of_unwritten(alloc: Global, example: &Example) -> Result<(), RunFault> {
    let mut reader = Reader::new(example.script.as_bytes(), Stream::sound(100));
    let mut writer = ToWrite::new(Scripted { calls: &NOTHING });
    match example.kind {
        ScriptKind::Plain => plain(alloc, &mut reader, &mut writer),
        ScriptKind::Replay => replay(alloc, &mut reader, &mut writer),
    }
}

/// Like `end_of_unwritten`, of a second run where the first one ran out of memory.
fn end_of_unwritten_at_last(alloc: Global, example: &Example) -> Result<(), RunFault> {
    match end_of_unwritten(alloc, example) {
        Err(RunFault::Memory) => end_of_unwritten(alloc, example),
        end => end,
    }
}

/// A writer that takes nothing ends the run.
#[test]
fn writers_that_take_nothing(rt: HostRuntime) {
    for (name, example) in &EXAMPLES {
        let end = end_of_unwritten_at_last(rt.alloc(), example);
        assert!(rt; end == Err(RunFault::Write), "{name}");
    }
}

/// A stream that fails once.
static BROKEN_ONCE: [Call; 2] = [Call::Broken, Call::Moves];

/// What two reads over a stream answer, and whether it has failed then.
fn read_twice(calls: &[Call]) -> (Result<usize, Failed>, Result<usize, Failed>, bool) {
    let mut reader = FromRead::new(Scripted { calls });
    let first = reader.read(&mut [0; 4]);
    let second = reader.read(&mut [0; 4]);
    (first, second, reader.has_failed())
}

/// Like `read_twice`, of two writes.
fn written_twice(calls: &[Call]) -> (Result<usize, Failed>, Result<usize, Failed>, bool) {
    let mut writer = ToWrite::new(Scripted { calls });
    let first = writer.write(&OCTETS);
    let second = writer.write(&OCTETS);
    (first, second, writer.has_failed())
}

/// Once a stream has failed, it has failed from then on.
#[test]
fn from_then_on(rt: HostRuntime) {
    assert!(rt;
        written_twice(&BROKEN_ONCE) == (Err(Failed), Ok(1), true),
        "a writer"
    );
    assert!(rt;
        read_twice(&BROKEN_ONCE) == (Err(Failed), Ok(1), true),
        "a reader"
    );
}
