//! A script of which octets come, piece by piece.

ghost use Rattle.std.specs.Prelude.{◌≡◌, ◌≢◌, ℕ, ◌+◌, ◌<◌, ◌≤◌, ◌^◌, true, List, [], ◌++◌, Option, None, Some, Ok, Err, length, take, IfErr, IfOk, IfSome, OnErr, OnOk};
ghost use Rattle.cfdp_lines.specs.Answers.{Adds};
ghost use Rattle.cfdp_lines.specs.Cutting.{IsOpenLine};
ghost use Rattle.cfdp_lines.specs.Report.{stopped_at};
ghost use Rattle.cfdp_lines.specs.Session.{StopsBad, report_at};
ghost use Rattle.cfdp_lines.specs.declared.faults.LineFault.TheVariants.{Bad};
ghost use Rattle.cfdp_run.specs.Scripts.{answer, script_at_first, line_step};
ghost use Rattle.cfdp_run.specs.Stops.{IsWrong, NoMemory, stop_of};
ghost use Rattle.cfdp_run.specs.declared.wrong.Wrong.TheVariants.{TooLong};

use crate::files::Files;
use crate::script::RunScript;
use cfdp_lines::{LineFault, OpenLine};
use cfdp_run::{ScriptStop, Wrong};
use std::alloc::{AllocError, Global};

/// A script of which octets come. Contracts see it as the number of the line that is being read, how far the script is,
/// and what became of that line.
#[derive(Drop)]
pub struct ScriptSession {
    script: RunScript,
    line: OpenLine,
    /// The number of the line, counted from 1.
    number: u64,
    ghost whole: { IsOpenLine line },
}

/// Why a script stops where octets of its line cannot be taken.
fn stop_at(fault: LineFault) -> ScriptStop
    ensures bad { fault ≡ Bad → stop_of result ≡ IsWrong TooLong }
    ensures memory { fault ≡ LineFault.Memory → stop_of result ≡ NoMemory }
    ensures only { stop_of result ≢ NoMemory → fault ≡ Bad }
{
    match fault {
        LineFault::Bad => ScriptStop::Wrong(Wrong::TooLong),
        LineFault::Memory => ScriptStop::Memory,
    }
}

impl ScriptSession {
    ghost use Rattle.cfdp_run_script.specs.Sessions.{EndsScript, ScriptGoesOn, StopsFor, script_reading, why_at};
    ghost use Rattle.cfdp_run_script.specs.Steps.{Leads, StopsScript, script_of};

    /// Before the first octet.
    ///
    /// # Errors
    ///
    /// [`AllocError`] when out of memory.
    pub fn new(alloc: Global) -> Result<ScriptSession, AllocError>
        ensures state { IfOk result (λ session. (script_reading session).state ≡ script_at_first) }
        ensures line { IfOk result (λ session. (script_reading session).line ≡ []) }
        ensures number { IfOk result (λ session. (script_reading session).number ≡ 1) }
    {
        Ok(ScriptSession {
            script: RunScript::new(alloc)?,
            line: OpenLine::new(alloc),
            number: 1,
        })
    }

    /// The script.
    pub fn script(&self) -> &RunScript
        ensures { script_of result.now ≡ (script_reading self.now).state }
    {
        &self.script
    }

    /// The number of the line that is being read, counted from 1. Where the script has stopped, it is that of the line
    /// at which it did.
    pub fn number(&self) -> u64
        ensures { result ≡ (script_reading self.now).number }
    {
        self.number
    }

    /// Takes the next octets of the script up to the next newline, or all where there is none, and returns how many. A
    /// line that ends is carried out, and what it writes is appended. Only a line that did not come whole is copied.
    ///
    /// # Errors
    ///
    /// Why the script stops here: what the definitions say, or [`ScriptStop::Memory`] when out of memory. The text is
    /// as before.
    pub fn take<F: Files>(
        &mut self,
        alloc: Global,
        files: &mut F,
        octets: &[u8],
        text: &mut Vec<u8>,
    ) -> Result<usize, ScriptStop>
        requires some { 0 < length octets.now }
        requires number { (script_reading self.old).number + 1 < 2 ^ 64 }
        ensures some { IfOk result (λ n. 0 < n) }
        ensures count { IfOk result (λ n. n ≤ length octets.now) }
        ensures number { OnOk result ((script_reading self.new).number ≤ (script_reading self.old).number + 1) }
        // The state of the script moves on by these octets, and what it writes is theirs.
        ensures ok { IfOk result (λ n. IfSome (F.known files.old) (λ map.
            Adds (answer map) (script_reading self.old) (script_reading self.new)
            (take n octets.now) text.old.items text.new.items)) }
        ensures goes_on { IfOk result (λ n. IfSome (F.known files.old)
            (λ map. ScriptGoesOn map (script_reading self.old) (script_reading self.new) (take n octets.now))) }
        // It stops at this line, whatever comes after these octets.
        ensures stops { IfErr result (λ why. stop_of why ≢ NoMemory → IfSome (F.known files.old) (λ map.
            StopsBad (answer map) (script_reading self.old) octets.now [] (script_reading self.old).number)) }
        ensures why { IfErr result (λ why. IfSome (F.known files.old)
            (λ map. StopsFor map (script_reading self.old) octets.now why)) }
        ensures kept { OnErr result (text.new.items ≡ text.old.items) }
        ensures stays { OnErr result ((script_reading self.new).number ≡ (script_reading self.old).number) }
        ensures same { F.known files.new ≡ F.known files.old }
    {
        let end = match self.line.take(octets) {
            Ok(Some(end)) => end,
            Ok(None) => return Ok(octets.len()),
            Err(fault) => return Err(stop_at(fault)),
        };
        let line = self.line.ended(octets, end);
        self.script.line(alloc, files, line, text)?;
        self.line.clear();
        self.number += 1;
        Ok(end + 1)
    }

    /// The script ends here. A last line without a newline is a line, too.
    ///
    /// # Errors
    ///
    /// Why the script stops here, as [`ScriptSession::take`] says it. The text is as before.
    pub fn finish<F: Files>(
        &mut self,
        alloc: Global,
        files: &mut F,
        text: &mut Vec<u8>,
    ) -> Result<(), ScriptStop>
        ensures ok { OnOk result (IfSome (F.known files.old)
            (λ map. EndsScript map (script_reading self.old) text.old.items text.new.items)) }
        ensures well { OnOk result (IfSome (F.known files.old)
            (λ map. why_at map true (script_reading self.old) [] ≡ None)) }
        ensures stops { IfErr result (λ why. stop_of why ≢ NoMemory → IfSome (F.known files.old) (λ map.
            report_at (answer map) true (script_reading self.old) [] ≡ stopped_at (script_reading self.old).number)) }
        ensures why { IfErr result (λ why. stop_of why ≢ NoMemory → IfSome (F.known files.old) (λ map.
            why_at map true (script_reading self.old) [] ≡ Some (stop_of why))) }
        ensures kept { OnErr result (text.new.items ≡ text.old.items) }
        ensures stays { (script_reading self.new).number ≡ (script_reading self.old).number }
        ensures same { F.known files.new ≡ F.known files.old }
    {
        let line = self.line.octets();
        if line.is_empty() {
            return Ok(());
        }
        self.script.line(alloc, files, line, text)
    }
}
