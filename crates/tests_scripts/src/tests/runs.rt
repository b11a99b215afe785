//! Runs of `plain` and of `replay` that are made once more where they are out of memory
//! (`rt try --test --fail-alloc N`). With every allocation granted each runs once.
use super::fakes::{Reader, Stream, Writer};
use cfdp_sim::{RunFault, ScriptIn, ScriptOut, plain, plain_text, replay, replay_text};
use std::alloc::Global;
use std::process::Abort;

/// What runs a script.
#[derive(Clone, Copy)]
pub(super) enum ScriptKind {
    Plain,
    Replay,
}

/// How a run ends.
pub(super) type End = Result<(), RunFault>;

/// How a run ended, and its streams.
#[derive(Drop)]
pub(super) struct Ran<'a> {
    pub(super) end: End,
    pub(super) reader: Reader<'a>,
    pub(super) writer: Writer,
}

impl<'a> Ran<'a> {
    /// How it ended, and whether its reader and its writer have failed.
    pub(super) fn stated(&self) -> (End, bool, bool) {
        let writer_failed = self.writer.has_failed();
        (self.end, self.reader.has_failed(), writer_failed)
    }

    /// Whether what was written is a beginning of the report.
    pub(super) fn has_begun(&self, report: &str) -> bool {
        report.as_bytes().starts_with(&self.writer.text)
    }

    /// Whether the run was out of memory, or its writer was.
    fn was_refused(&self) -> bool {
        self.writer.refused || self.end == Err(RunFault::Memory)
    }

    /// Whether that is reported and nothing else has failed, and a beginning of the report was written, in whole lines
    /// unless the writer was out of memory.
    fn reports_that_alone(&self, report: &str) -> bool {
        let refused = self.writer.refused;
        let text = &self.writer.text;
        let is_whole = refused || text.is_empty() || text.ends_with(b"\n");
        let (_, reader_failed, writer_failed) = self.stated();
        is_whole && !reader_failed && writer_failed == refused && self.has_begun(report)
    }
}

fn run_plain(alloc: Global, reader: &mut Reader<'_>, writer: &mut Writer) -> End {
    plain(alloc, reader, writer)
}

fn run_replay(alloc: Global, reader: &mut Reader<'_>, writer: &mut Writer) -> End {
    replay(alloc, reader, writer)
}

/// A script, what it writes where nothing fails, and the streams that it is run over.
#[derive(Clone, Copy)]
pub(super) struct StreamRun<'a> {
    pub(super) kind: ScriptKind,
    pub(super) script: &'a [u8],
    pub(super) report: &'a str,
    pub(super) reads: Stream,
    pub(super) writes: Stream,
}

impl<'a> StreamRun<'a> {
    fn end(&self, alloc: Global, reader: &mut Reader<'_>, writer: &mut Writer) -> End {
        match self.kind {
            ScriptKind::Plain => run_plain(alloc, reader, writer),
            ScriptKind::Replay => run_replay(alloc, reader, writer),
        }
    }

    fn once(&self, alloc: Global) -> Ran<'a> {
        let mut reader = Reader::new(self.script, self.reads);
        let mut writer = Writer::new(alloc, self.writes);
        let end = self.end(alloc, &mut reader, &mut writer);
        Ran {
            end,
            reader,
            writer,
        }
    }

    /// Runs the script. Where it or the writer is out of memory, that is reported and it runs once more over
    /// streams made anew.
    pub(super) fn run<R: Abort + Print>(&self, rt: &R, alloc: Global) -> Ran<'a> {
        let ran = self.once(alloc);
        if !ran.was_refused() {
            return ran;
        }
        let _ = println!(rt; "a run was out of memory, or its writer");
        assert!(rt;
            ran.reports_that_alone(self.report),
            "a run that was out of memory"
        );
        self.once(alloc)
    }
}

fn is_plain(alloc: Global, script: &[u8], report: &[u8]) -> Result<bool, RunFault> {
    let text = plain_text(alloc, script)?;
    Ok(text.as_slice() == report)
}

fn is_replay(alloc: Global, script: &[u8], report: &[u8]) -> Result<bool, RunFault> {
    let text = replay_text(alloc, script)?;
    Ok(text.as_slice() == report)
}

/// Whether the text of a script in memory is the report.
fn is_text(
    alloc: Global,
    kind: ScriptKind,
    script: &[u8],
    report: &[u8],
) -> Result<bool, RunFault> {
    match kind {
        ScriptKind::Plain => is_plain(alloc, script, report),
        ScriptKind::Replay => is_replay(alloc, script, report),
    }
}

/// Whether the text of a script in memory is the report, made once more where it was out of memory.
fn is_text_at_last<R: Print>(
    rt: &R,
    alloc: Global,
    kind: ScriptKind,
    script: &[u8],
    report: &[u8],
) -> Result<bool, RunFault> {
    match is_text(alloc, kind, script, report) {
        Err(RunFault::Memory) => {
            let _ = println!(rt; "a text was out of memory");
            is_text(alloc, kind, script, report)
        }
        answer => answer,
    }
}

/// Whether a script in memory has the report for its text, or comes to the fault.
pub(super) fn has_text<R: Print>(
    rt: &R,
    alloc: Global,
    kind: ScriptKind,
    script: &[u8],
    report: &str,
    end: End,
) -> bool {
    match is_text_at_last(rt, alloc, kind, script, report.as_bytes()) {
        Ok(same) => same && end.is_ok(),
        Err(fault) => end == Err(fault),
    }
}
