//! A run in the middle of its script.
ghost use Rattle.std.specs.Prelude.{◌≡◌, ◌≢◌, ◌↔◌, ℕ, ◌+◌, ◌<◌, ◌≤◌, ◌^◌, true, List, [], ◌∷◌, ◌++◌, length, take, Option, Some, None, IfOk, OnOk, OnErr, Err};
ghost use Rattle.std.specs.Io.KnownBytes.{Appends, Keeps};
ghost use Rattle.cfdp_lines.specs.Answers.{AnswersLine, Adds};
ghost use Rattle.cfdp_lines.specs.Cutting.{IsOpenLine};
ghost use Rattle.cfdp_lines.specs.Report.{line_answer, wrote, empty_report, stopped_at};
ghost use Rattle.cfdp_lines.specs.Session.{StopsBad};
ghost use Rattle.cfdp_lines.specs.code.Session.{RefusesMemory, Runs, RunsBad, RunsPart, RunsLost, Finishes, FinishesBad, FinishesLost};
ghost use Rattle.cfdp_streams.specs.Streams.{LostWithin};
ghost use Rattle.cfdp_streams.specs.code.Streams.{Spills};
ghost use Rattle.cfdp_lines.specs.declared.faults.RunFault.TheVariants.{Read, Write, Memory, BadLine};
ghost use Rattle.cfdp_lines.specs.declared.faults.LineFault.TheVariants.{Bad};

use crate::cutting::OpenLine;
use crate::faults::{LineFault, RunFault};
use crate::limits::{COMMENT, LINE_LIMIT};
use crate::script::Script;
use cfdp_streams::{ScriptOut, write_all};
use std::alloc::Global;

/// How much text is held back at most before it is written, in octets, the answer to the last line apart.
const FULL: usize = 65_536;

/// A script that is being run: what it does, the octets so far of the line that is being read, and the text that is not
/// written yet.
#[derive(Drop)]
pub(crate) struct LineSession<S> {
    pub(crate) script: S,
    pub(crate) line: OpenLine,
    /// The number of that line, counted from 1.
    pub(crate) number: u64,
    pub(crate) text: Vec<u8>,
    ghost whole: { IsOpenLine line },
}

/// Runs a line, and appends its text. A line that is bad or too long is reported even when out of memory.
fn answer_line<S: Script>(
    script: &mut S,
    alloc: Global,
    line: &[u8],
    text: &mut Vec<u8>,
) -> Result<(), LineFault>
    ensures ok { OnOk result (AnswersLine (line_answer S.answer) (S.state script.old) (S.state script.new)
        line.now text.old.items text.new.items) }
    ensures bad { (result ≡ Err Bad) ↔ (line_answer S.answer (S.state script.old) line.now ≡ None) }
    ensures kept { OnErr result (text.new.items ≡ text.old.items) }
{
    if line.len() > LINE_LIMIT {
        return Err(LineFault::Bad);
    }
    if line.first() == Some(&COMMENT) {
        return Ok(());
    }
    script.line(alloc, line, text)
}

impl<S: Script> LineSession<S> {
    ghost use Rattle.cfdp_lines.specs.code.SessionReading.{session_reading};

    /// Before the first octet.
    pub(crate) fn new(alloc: Global, script: S) -> Self
        ensures script { result.script ≡ script }
        ensures line { result.line ≡ [] }
        ensures number { result.number ≡ 1 }
        ensures text { result.text.items ≡ [] }
    {
        LineSession {
            script,
            line: OpenLine::new(alloc),
            number: 1,
            text: Vec::new(alloc),
        }
    }

    /// The fault of the line that is being read.
    fn fault(&self, fault: LineFault) -> RunFault
        ensures bad { (n : ℕ) → (result ≡ BadLine n) ↔ ((n ≡ self.now.number) × (fault ≡ Bad)) }
        ensures memory { (result ≡ Memory) ↔ (fault ≡ LineFault.Memory) }
        ensures never_reads { result ≢ Read }
        ensures never_writes { result ≢ Write }
    {
        match fault {
            LineFault::Bad => RunFault::BadLine(self.number),
            LineFault::Memory => RunFault::Memory,
        }
    }

    /// Takes the next octets of the script up to the next newline, or all where there is none, and returns how many;
    /// a line that ends is run. Only a line that did not come whole is copied.
    fn take(&mut self, alloc: Global, octets: &[u8]) -> Result<usize, LineFault>
        requires some { 0 < length octets.now }
        requires number { self.old.number + 1 < 2 ^ 64 }
        ensures some { IfOk result (λ n. 0 < n) }
        ensures count { IfOk result (λ n. n ≤ length octets.now) }
        ensures number { OnOk result (self.new.number ≤ self.old.number + 1) }
        ensures ok { IfOk result (λ n. Adds S.answer (session_reading S.state self.old)
            (session_reading S.state self.new)
            (take n octets.now) self.old.text.items self.new.text.items) }
        ensures bad { result ≡ Err Bad → StopsBad S.answer (session_reading S.state self.old) octets.now []
            self.old.number }
        // Of a line that came whole, or is too long already, a bad one is reported even when out of memory.
        ensures refused { result ≡ Err LineFault.Memory → self.old.line ≡ []
            → StopsBad S.answer (session_reading S.state self.old) octets.now [] self.old.number → ⊥ }
        ensures kept { OnErr result (self.new.text.items ≡ self.old.text.items) }
        ensures same { OnErr result (self.new.number ≡ self.old.number) }
    {
        let Some(end) = self.line.take(octets)? else {
            return Ok(octets.len());
        };
        let line = self.line.ended(octets, end);
        answer_line(&mut self.script, alloc, line, &mut self.text)?;
        self.line.clear();
        self.number += 1;
        Ok(end + 1)
    }

    /// Writes the text that was held back.
    fn flush<W: ScriptOut>(&mut self, writer: &mut W) -> Result<(), RunFault>
        ensures script { self.new.script ≡ self.old.script }
        ensures line { self.new.line ≡ self.old.line }
        ensures number { self.new.number ≡ self.old.number }
        ensures ok { OnOk result (Appends (W.contents writer.old) (W.contents writer.new) self.old.text.items) }
        ensures empty { OnOk result (self.new.text.items ≡ []) }
        ensures lost { OnErr result (LostWithin self.old.text.items (W.contents writer.old) (W.contents writer.new)) }
        ensures well { OnOk result (W.failed writer.new ≡ W.failed writer.old) }
        ensures fails { OnErr result (W.failed writer.new ≡ true) }
        ensures only { OnErr result (result ≡ Err Write) }
    {
        write_all(writer, &self.text).map_err(|_| RunFault::Write)?;
        self.text.clear();
        Ok(())
    }

    /// Writes the text that was held back, if it is full.
    fn flush_if_full<W: ScriptOut>(&mut self, writer: &mut W) -> Result<(), RunFault>
        ensures script { self.new.script ≡ self.old.script }
        ensures line { self.new.line ≡ self.old.line }
        ensures number { self.new.number ≡ self.old.number }
        ensures ok { OnOk result (Spills self.old.text.items self.new.text.items (W.contents writer.old)
            (W.contents writer.new)) }
        ensures lost { OnErr result (LostWithin self.old.text.items (W.contents writer.old) (W.contents writer.new)) }
        ensures well { OnOk result (W.failed writer.new ≡ W.failed writer.old) }
        ensures fails { OnErr result (W.failed writer.new ≡ true) }
        ensures only { OnErr result (result ≡ Err Write) }
    {
        if self.text.len() < FULL {
            return Ok(());
        }
        self.flush(writer)
    }

    /// Takes the next octets of the script: each line that ends among them is run, and its text is written.
    pub(crate) fn feed<W: ScriptOut>(
        &mut self,
        alloc: Global,
        octets: &[u8],
        writer: &mut W,
    ) -> Result<(), RunFault>
        requires number { self.old.number + length octets.now < 2 ^ 64 }
        requires empty { self.old.text.items ≡ [] }
        ensures empty { OnOk result (self.new.text.items ≡ []) }
        ensures number { OnOk result (self.new.number ≤ self.old.number + length octets.now) }
        ensures ok { OnOk result (Runs S.answer (session_reading S.state self.old) (session_reading S.state self.new)
            octets.now (W.contents writer.old) (W.contents writer.new)) }
        ensures bad { (n : ℕ) → result ≡ Err (BadLine n) → RunsBad S.answer (session_reading S.state self.old)
            octets.now n (W.contents writer.old) (W.contents writer.new) }
        ensures memory { result ≡ Err Memory → RunsPart S.answer (session_reading S.state self.old)
            octets.now (W.contents writer.old) (W.contents writer.new) }
        // Out of memory, and the line so far is not bad.
        ensures refused { result ≡ Err Memory → RefusesMemory S.answer (session_reading S.state self.old) octets.now }
        ensures write { result ≡ Err Write → RunsLost S.answer (session_reading S.state self.old)
            octets.now (W.contents writer.old) (W.contents writer.new) }
        ensures well { result ≢ Err Write → W.failed writer.new ≡ W.failed writer.old }
        ensures fails { result ≡ Err Write → W.failed writer.new ≡ true }
        ensures never_reads { result ≢ Err Read }
    {
        let mut rest = octets;
        'lines: while !rest.is_empty() {
            let count = match self.take(alloc, rest) {
                Ok(count) => count,
                Err(fault) => {
                    self.flush(writer)?;
                    return Err(self.fault(fault));
                }
            };
            rest = rest.split_at(count).1;
            self.flush_if_full(writer)?;
        }
        self.flush(writer)
    }

    /// The script ends here. A last line without a newline is a line, too.
    pub(crate) fn finish<W: ScriptOut>(
        &mut self,
        alloc: Global,
        writer: &mut W,
    ) -> Result<(), RunFault>
        requires { self.old.text.items ≡ [] }
        ensures ok { OnOk result (Finishes S.answer (session_reading S.state self.old)
            (W.contents writer.old) (W.contents writer.new)) }
        ensures bad { (n : ℕ) → result ≡ Err (BadLine n) → FinishesBad S.answer (session_reading S.state self.old)
            n (W.contents writer.old) (W.contents writer.new) }
        ensures memory { result ≡ Err Memory → Keeps (W.contents writer.old) (W.contents writer.new) }
        ensures refused { result ≡ Err Memory
            → line_answer S.answer (S.state self.old.script) self.old.line ≡ None → ⊥ }
        ensures write { result ≡ Err Write → FinishesLost S.answer (session_reading S.state self.old)
            (W.contents writer.old) (W.contents writer.new) }
        ensures well { result ≢ Err Write → W.failed writer.new ≡ W.failed writer.old }
        ensures fails { result ≡ Err Write → W.failed writer.new ≡ true }
        ensures never_reads { result ≢ Err Read }
    {
        let line = self.line.octets();
        if line.is_empty() {
            return Ok(());
        }
        match answer_line(&mut self.script, alloc, line, &mut self.text) {
            Ok(()) => self.flush(writer),
            Err(fault) => Err(self.fault(fault)),
        }
    }
}
