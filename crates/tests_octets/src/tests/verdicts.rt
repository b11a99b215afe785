//! Refusals and grants in words, also those that no plan meets: a destination that is no path, a request that is not in
//! the list, a status that no refusal has. `.ci/cases/judge.txt` has all others, and the tables.

use cfdp_status::{Action, Status, TransactionId};
use cfdp_tlv::FilestoreRequest;
use cfdp_verdicts::{push_admitted, push_refused};
use cfdp_verifier::{Place, Proposal, Refusal};
use std::alloc::Global;
use std::test::Fail;

/// The transaction.
const ID: TransactionId = TransactionId {
    source: 1,
    number: 2,
};

/// All seven refusals, of a list that has two requests, and what is said of each.
const REFUSALS: &[(Refusal, &str)] = &[
    (
        Refusal::TooManyRequests,
        "1/2 refused: 2 requests, and a list may have at most 64\n",
    ),
    (
        Refusal::BadPath(Place::Destination),
        "1/2 refused: the destination app/new: it is no path of the filestore\n",
    ),
    (
        Refusal::BadPath(Place::Request(1)),
        "1/2 refused: request 2, delete-file a%20%25: a name of it is no path of the filestore\n",
    ),
    (
        Refusal::Conflict(TransactionId {
            source: 7,
            number: 1000,
        }),
        "1/2 refused: transaction 7/1000 uses a path of it\n",
    ),
    (
        Refusal::DestinationNotAllowed,
        "1/2 refused: the destination app/new: it has no directory above it, is a directory, or is protected\n",
    ),
    (
        Refusal::WouldFail(0, Status::RenameNewPresent),
        "1/2 refused: request 1, rename app/new to app/prog: app/prog exists (status 22)\n",
    ),
    (
        Refusal::WouldFail(1, Status::NotPerformed(Action::DenyDirectory)),
        "1/2 refused: request 2, delete-file a%20%25: it is not performed (status 8f)\n",
    ),
    (
        Refusal::WouldFail(2, Status::RemoveAbsent),
        "1/2 refused: request 3:  does not exist (status 61)\n",
    ),
    (
        Refusal::TooLong(4_294_967_295),
        "1/2 refused: it may take 4,294,967,295 steps, and 65,536 are granted at most\n",
    ),
    (
        Refusal::NoRoom(1, 1_265),
        "1/2 refused: it needs 1 block, and 1,265 are to spare\n",
    ),
];

/// What is said of a refusal of a list with a destination and two requests.
fn said(alloc: Global, refusal: Refusal) -> Result<Vec<u8>, Fail> {
    let mut requests = Vec::new(alloc);
    requests.push(FilestoreRequest::new(
        alloc,
        Action::RenameFile,
        b"app/new",
        Some(b"app/prog"),
    )?)?;
    requests.push(FilestoreRequest::new(alloc, Action::DeleteFile, b"a %", None)?)?;
    let proposal = Proposal {
        destination: Some(b"app/new"),
        bound: 0,
        requests: &requests,
    };
    let mut text = Vec::new(alloc);
    push_refused(ID, refusal, &proposal, &mut text)?;
    Ok(text)
}

#[test]
fn verdicts_are_said(rt: HostRuntime) -> Result<(), Fail> {
    for (refusal, due) in REFUSALS {
        let text = said(rt.alloc(), *refusal)?;
        assert!(rt; text.as_slice() == due.as_bytes(), "{}", *due);
    }
    let mut text = Vec::new(rt.alloc());
    push_admitted(ID, 1_265, 12, &mut text)?;
    push_admitted(ID, 1, 1, &mut text)?;
    push_admitted(ID, 0, 65_536, &mut text)?;
    assert_eq!(rt;
        text.as_slice(),
        b"1/2 admitted: 1,265 blocks, 12 steps\n1/2 admitted: 1 block, 1 step\n\
          1/2 admitted: 0 blocks, 65,536 steps\n"
            .as_slice(),
        "three verdicts"
    );
    Ok(())
}
