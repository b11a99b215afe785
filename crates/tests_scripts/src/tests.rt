//! What no clause says, and no run of the program shows: streams that fail, running out of memory, workers that wait
//! for each other. The scripts that the program runs, with what it prints, are in `.ci/cases`.
mod ends;
mod failing;
mod fakes;
mod inputs;
mod link_gates;
mod links;
mod runs;

use std::alloc::Global;
use std::process::Abort;

/// A row of a table of worked cases.
trait Row {
    /// Whether all is as the row says.
    fn holds<R: Abort + Print>(&self, rt: &R, alloc: Global) -> bool;
}

/// Each row holds. Of one that does not the name is reported.
fn all_hold<R: Abort + Print, T: Row>(rt: &R, alloc: Global, rows: &[(&str, T)]) {
    for (name, row) in rows {
        assert!(rt; row.holds(rt, alloc), "{name}");
    }
}

/// Three lists of requests in which each of the nine actions succeeds at least once; rename moves a file.
const SCRIPT: &str = "0003500164\n00050003642f78\n0003600164\n\n\
    00072003642f780162\n00054001620163\n\n\
    0003600164\n0003800164\n00053001620162\n0003000161\n00054001620161\n0003100161\n0003700162\n";

/// What is written for it.
const REPORT: &str = "010450016400\n01060003642f7800\n010462016400\n\
    01082003642f78016200\n0106420162016300\n\
    010460016400\n010480016400\n0106300162016200\n010400016100\n0106400162016100\n010410016100\n\
    010470016200\n";

/// A list of several requests that is cancelled, and another beside it: each line is answered by a line.
const REPLAY_SCRIPT: &str = "\
    pdu 24001700010c02 0740 00000000 0000 0003000161 0003000162 0003000163\n\
    pdu 24000a00010c02 0400 00000000 00000000\n\
    step 1 12\ncancel 1 12\nstep 1 12\ncheck 1 12\n\
    pdu 24000d00010d02 0740 00000000 0000 0003100161\n\
    take 1 12\ntake 1 12\n";

/// What is written for it.
const REPLAY_REPORT: &str = "\
    1/12 admitted blocks 3 steps 6\n1/12 complete\n1/12 performed 00\n1/12 cancelled\n1/12 idle\n1/12 idle\n\
    1/13 admitted blocks 0 steps 2\n\
    1/12 finished 2c001700010c0205f301040001610001040f01620001040f016300060102\n1/12 unknown\n";
