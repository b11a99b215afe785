//! Lines of scripts: those that take memory are read when they are handed in again, and what is wrong with a bad one
//! is said without memory.

use cfdp_run::{CommandFault, FirstWord, HeadProgress, Wrong, default_mib, read_run_command};
use std::alloc::{AllocError, Global};

/// A line, and what is wrong with it.
type CheckedLine = (&'static [u8], Option<Wrong>);

const LINES: &[CheckedLine] = &[
    (b"protect a/b", None),
    (b"put a/b/", None),
    (b"put a/b", None),
    (b"put a/b 0a 0b", None),
    (b"put a/b @name", None),
    (b"at 5 pdu 0a 0b", None),
    (b"get a/b", None),
    (b"expect a  b", None),
    (b"get a b", Some(Wrong::Expected(FirstWord::Get))),
    (b"put a/b 0a 0", Some(Wrong::Expected(FirstWord::Put))),
    (b"put a/b @x y", Some(Wrong::Expected(FirstWord::Put))),
    (b"at 5 pdu 0a 0", Some(Wrong::Expected(FirstWord::At))),
    (b"expect", Some(Wrong::Expected(FirstWord::Expect))),
];

/// What is wrong with a line, or that it was out of memory.
fn fault_of(alloc: Global, line: &[u8]) -> Option<CommandFault> {
    read_run_command(alloc, line, default_mib(), HeadProgress::Fresh).err()
}

#[test]
fn lines(rt: HostRuntime) -> Result<(), AllocError> {
    for (line, wrong) in LINES {
        let found = match fault_of(rt.alloc(), line) {
            Some(CommandFault::Memory) if wrong.is_none() => fault_of(rt.alloc(), line),
            found => found,
        };
        let due = wrong.map(CommandFault::Wrong);
        assert!(rt; found == due, "{}", str::from_utf8(line).unwrap_or(""));
    }
    Ok(())
}
