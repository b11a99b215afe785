//! What results from a script, line by line. The expected lines are written by hand.

use crate::{Copies, Draw, Link, is_pdu_line};
use std::alloc::Global;
use std::test::Fail;

/// Nothing happens to a line.
const QUIET: Draw = Draw {
    copies: Copies::Once,
    swapped: false,
};

/// A line is lost.
const LOST: Draw = Draw {
    copies: Copies::Lost,
    swapped: false,
};

/// A line comes twice.
const TWICE: Draw = Draw {
    copies: Copies::Twice,
    swapped: false,
};

/// A line comes after the next one.
const SWAPPED: Draw = Draw {
    copies: Copies::Once,
    swapped: true,
};

/// A script with a draw for each line, and what results from it.
struct Row {
    name: &'static str,
    lines: [(&'static str, Draw); 4],
    come: &'static str,
}

/// What can happen.
const ROWS: [Row; 8] = [
    Row {
        name: "nothing",
        lines: [
            ("pdu 01", QUIET),
            ("at 2 pdu 02", QUIET),
            ("run", QUIET),
            ("pdu 03", QUIET),
        ],
        come: "pdu 01\nat 2 pdu 02\nrun\npdu 03\n",
    },
    Row {
        name: "losses",
        lines: [
            ("pdu 01", LOST),
            ("at 2 pdu 02", LOST),
            ("run", LOST),
            ("pdu 03", QUIET),
        ],
        come: "run\npdu 03\n",
    },
    Row {
        name: "repeats",
        lines: [
            ("pdu 01", TWICE),
            ("at 2 pdu 02", TWICE),
            ("run", TWICE),
            ("pdu 03", QUIET),
        ],
        come: "pdu 01\npdu 01\nat 2 pdu 02\nat 2 pdu 02\nrun\npdu 03\n",
    },
    Row {
        name: "a swap",
        lines: [
            ("pdu 01", SWAPPED),
            ("pdu 02", QUIET),
            ("pdu 03", QUIET),
            ("pdu 04", QUIET),
        ],
        come: "pdu 02\npdu 01\npdu 03\npdu 04\n",
    },
    Row {
        name: "swaps",
        lines: [
            ("pdu 01", SWAPPED),
            ("pdu 02", SWAPPED),
            ("pdu 03", SWAPPED),
            ("pdu 04", SWAPPED),
        ],
        come: "pdu 02\npdu 01\npdu 04\npdu 03\n",
    },
    Row {
        name: "swaps before another line and at the end",
        lines: [
            ("pdu 01", SWAPPED),
            ("at 11", SWAPPED),
            ("# so", SWAPPED),
            ("pdu 04", SWAPPED),
        ],
        come: "pdu 01\nat 11\n# so\npdu 04\n",
    },
    Row {
        name: "a swap with a line that is lost",
        lines: [
            ("pdu 01", SWAPPED),
            ("pdu 02", LOST),
            ("", QUIET),
            ("take 1 1", QUIET),
        ],
        come: "pdu 01\n\ntake 1 1\n",
    },
    Row {
        name: "a swap with a line that comes twice",
        lines: [
            ("pdu 01", SWAPPED),
            ("pdu 02", TWICE),
            ("pdu", QUIET),
            ("pdus 1", LOST),
        ],
        come: "pdu 02\npdu 02\npdu 01\npdu\npdus 1\n",
    },
];

/// What results from a script.
fn come(alloc: Global, lines: &[(&'static str, Draw)]) -> Result<Vec<u8>, Fail> {
    let mut link = Link::new();
    let mut text = Vec::new(alloc);
    for (line, draw) in lines {
        link.take(alloc, line.as_bytes(), *draw, &mut text)?;
    }
    link.finish(&mut text)?;
    Ok(text)
}

#[test]
fn lines_come_as_they_are_drawn(rt: HostRuntime) -> Result<(), Fail> {
    for row in &ROWS {
        let text = come(rt.alloc(), &row.lines)?;
        assert!(rt; text.as_slice() == row.come.as_bytes(), "{}", row.name);
    }
    Ok(())
}

#[test]
fn pdu_lines_are_found(rt: HostRuntime) -> Result<(), Fail> {
    for line in ["pdu", " pdu  20", "at 1 pdu 20", "at  x  pdu"] {
        assert!(rt; is_pdu_line(line.as_bytes()), "{line}");
    }
    for line in [
        "",
        "#pdu 20",
        "# pdu",
        "at pdu 20",
        "at 1 cancel 1 2",
        "put a pdu",
        "PDU 20",
        "pdus",
    ] {
        assert!(rt; !is_pdu_line(line.as_bytes()), "{line}");
    }
    Ok(())
}
