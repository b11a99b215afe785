//! Transactions from their Metadata to their outcome, over both filestores, with what an entity says of them in
//! between: phases, gaps, what they spent, their order. All others, whose replies say all, are in `.ci/cases`.
//!
//! Over a store that takes no memory each File Data, EOF, step, cancel and check has its reply, whichever allocation is
//! refused (`rt try --test --fail-alloc 1..` refuses each in turn); only Metadata and Take are handed in again.

use super::entity::{Case, Given, Replied, Row, check_all};
use cfdp_paths::Memory;
use cfdp_transactions::Phase;

const A_FILE_IN_TWO_PIECES: &[Row] = &[
    Row::On(
        Given::Pdu("24000a00010a0207400000000f01730166"),
        Replied::Admitted(2, 2),
    ),
    Row::Phase(10, Some(Phase::Receiving)),
    Row::On(
        Given::Pdu("34000b00010a020000000808090a0b0c0d0e"),
        Replied::Stored,
    ),
    Row::Gaps(10, &[(0, 8)]),
    Row::On(
        Given::Pdu("34000e00010a020000000000010203040506070809"),
        Replied::Stored,
    ),
    Row::On(
        Given::Pdu("24000a00010a020400181c20150000000f"),
        Replied::Complete,
    ),
    Row::Phase(10, Some(Phase::Executing(0))),
    Row::Gaps(10, &[]),
    Row::Runnable(Some(10)),
    Row::On(Given::Step(10), Replied::Installed),
    Row::Phase(10, Some(Phase::Done)),
    Row::Spent(10, 2, 2),
    Row::Runnable(None),
    Row::On(Given::Take(10), Replied::Finished("2c000200010a020502")),
    Row::Phase(10, None),
    Row::Store(62, 62),
    Row::Existing(&[(b"f", 15, 0x181c2015)]),
];

const CHECKS_UP_TO_THE_LIMIT: &[Row] = &[
    Row::On(
        Given::Pdu("24000a00010b0207400000000f01730166"),
        Replied::Admitted(2, 2),
    ),
    Row::On(
        Given::Pdu("24000a00010b020400181c20150000000f"),
        Replied::Waiting,
    ),
    Row::Gaps(11, &[(0, 15)]),
    Row::Phase(11, Some(Phase::Awaiting(0))),
    Row::On(Given::Check(11), Replied::Waiting),
    Row::Phase(11, Some(Phase::Awaiting(1))),
    Row::On(Given::Check(11), Replied::Faulted(10)),
    Row::On(
        Given::Take(11),
        Replied::Finished("2c000500010b0205a4060102"),
    ),
];

const A_FILE_APPENDED_TO_ITSELF: &[Row] = &[
    Row::On(
        Given::Pdu("240011000132020740000000780173016100053001610161"),
        Replied::Admitted(3, 5),
    ),
    Row::On(
        Given::Pdu(
            "\
            34007c0001320200000000010101010101010101010101010101010101010101010101010101010101010101010101010101\
            0101010101010101010101010101010101010101010101010101010101010101010101010101010101010101010101010101\
            01010101010101010101010101010101010101010101010101010101010101",
        ),
        Replied::Stored,
    ),
    Row::On(
        Given::Pdu("24000a0001320204001e1e1e1e00000078"),
        Replied::Complete,
    ),
    Row::On(Given::Step(50), Replied::Installed),
    Row::On(Given::Step(50), Replied::Performed(0x30)),
    Row::Spent(50, 3, 5),
    Row::Store(61, 61),
    Row::Existing(&[(b"a", 240, 0x3c3c3c3c)]),
];

const A_CANCELLED_LIST: &[Row] = &[
    Row::On(
        Given::Pdu("24001700010c020740000000000000000300016100030001620003000163"),
        Replied::Admitted(3, 6),
    ),
    Row::On(
        Given::Pdu("24000a00010c0204000000000000000000"),
        Replied::Complete,
    ),
    Row::On(Given::Step(12), Replied::Performed(0x00)),
    Row::On(Given::Cancel(12), Replied::Cancelled),
    Row::On(
        Given::Pdu("24000d00010d0207400000000000000003100161"),
        Replied::Admitted(0, 2),
    ),
    Row::On(
        Given::Take(12),
        Replied::Finished("2c001700010c0205f301040001610001040f01620001040f016300060102"),
    ),
];

/// Three files under way, as an entity that asks for what is missing sees them. Refused, cancelled and done
/// transactions stay in the order of admission until their outcome is taken.
const AS_THEY_COME: &[Row] = &[
    Row::Order(&[]),
    Row::Over(None),
    Row::On(
        Given::Pdu("24000a00010a0207400000000f01730166"),
        Replied::Admitted(2, 2),
    ),
    Row::On(
        Given::Pdu("24000a00010b0207400000000f01730167"),
        Replied::Admitted(2, 2),
    ),
    Row::On(
        Given::Pdu("24000a00010c0207400000000f01730166"),
        Replied::Conflict(10),
    ),
    Row::Order(&[10, 11, 12]),
    Row::Over(Some(12)),
    Row::Metadata(11, 15, b"g"),
    Row::Reached(10, 0, 0),
    Row::On(
        Given::Pdu("34000b00010a020000000808090a0b0c0d0e"),
        Replied::Stored,
    ),
    Row::Reached(10, 15, 15),
    Row::On(
        Given::Pdu("24000a00010b020400181c20150000000f"),
        Replied::Waiting,
    ),
    Row::Reached(11, 0, 15),
    Row::On(Given::Cancel(11), Replied::Cancelled),
    Row::Reached(11, 0, 0),
    Row::Over(Some(11)),
    Row::On(
        Given::Take(11),
        Replied::Finished("2c000500010b0205f4060102"),
    ),
    Row::Order(&[10, 12]),
    Row::Over(Some(12)),
];

static CASES: [Case; 5] = [
    ("a file in two pieces", A_FILE_IN_TWO_PIECES),
    ("checks up to the limit", CHECKS_UP_TO_THE_LIMIT),
    ("a file appended to itself", A_FILE_APPENDED_TO_ITSELF),
    ("a cancelled list", A_CANCELLED_LIST),
    ("as they come", AS_THEY_COME),
];

#[test]
fn each_case(rt: HostRuntime) -> Result<(), Memory> {
    check_all(&rt, rt.alloc(), &CASES)
}
