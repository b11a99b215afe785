//! An outcome that is taken as the octets of its Finished PDU (CCSDS 727.0-B-5 §5.2.3), with no outcome made: buffers
//! that are too short, and what is not sent. The Finished PDU of each outcome is in `.ci/cases/finished.txt`.

use super::entity::octets_of;
use cfdp_actions::{Filestore, Protected};
use cfdp_entity::Entity;
use cfdp_paths::Memory;
use cfdp_pdus::condition;
use cfdp_status::TransactionId;
use cfdp_transactions::{Config, Phase, ShortBuffer, TakenFinished};
use std::alloc::{AllocError, Global};
use std::process::Abort;

/// What comes to entity 2 of the transaction with the number 5 of entity 1: PDUs, in hexadecimal, steps, and perhaps a
/// cancel. Then its condition code and its Finished PDU, which is empty where it is not sent.
struct Case {
    name: &'static str,
    pdus: [&'static str; 2],
    steps: u32,
    is_cancelled: bool,
    condition: u8,
    finished: &'static str,
}

/// An EOF PDU without error, of no file.
const EOF: &str = "24000a0001050204000000000000000000";

static CASES: [Case; 3] = [
    Case {
        name: "a request that was performed",
        pdus: ["24000d0001050207400000000000000003000161", EOF],
        steps: 1,
        is_cancelled: false,
        condition: condition::NO_ERROR,
        finished: "2c0008000105020503010400016100",
    },
    Case {
        name: "cancelled after one of two requests",
        pdus: ["24001200010502074000000000000000030001610003000162", EOF],
        steps: 1,
        is_cancelled: true,
        condition: condition::CANCEL_REQUEST_RECEIVED,
        finished: "2c00110001050205f301040001610001040f016200060102",
    },
    Case {
        name: "closure was not requested",
        pdus: ["240008000105020700000000000000", EOF],
        steps: 0,
        is_cancelled: false,
        condition: condition::NO_ERROR,
        finished: "",
    },
];

/// What the octets of a buffer are before.
const BLANK: u8 = 0xee;

const ID: TransactionId = TransactionId {
    source: 1,
    number: 5,
};

/// An entity 2 that has just begun. The limits are good: only memory can be refused.
fn begin(alloc: Global) -> Result<Entity, Memory> {
    match Config::new(2, 128, 2400, 2, 1000, Protected::new()) {
        Ok(config) => Entity::new(alloc, config),
        Err(_) => Err(AllocError),
    }
}

/// Hands in the octets of a PDU, which bring an event: only memory can be refused.
fn receive(alloc: Global, entity: &mut Entity, octets: &[u8]) -> Result<(), Memory> {
    match entity.receive(alloc, octets) {
        Ok(_) => Ok(()),
        Err(_) => Err(AllocError),
    }
}

/// The octets of its Finished PDU by way of its outcome.
fn by_outcome(alloc: Global, entity: &Entity) -> Result<Option<Vec<u8>>, Memory> {
    match entity.outcome(ID)? {
        None => Ok(None),
        Some(outcome) => Ok(Some(outcome.octets(alloc)?)),
    }
}

/// Whether the buffer is one octet too short, and nothing has changed.
fn falls_short(alloc: Global, entity: &mut Entity, pdu: &[u8]) -> Result<bool, Memory> {
    let Some(room) = pdu.len().checked_sub(1) else {
        return Ok(true);
    };
    let before = (entity.core().phase(ID), entity.core().spare());
    let blank = vec![in alloc; BLANK; room]?;
    let mut out = vec![in alloc; BLANK; room]?;
    let short = match entity.take_finished(ID, &mut out) {
        Err(ShortBuffer { needed }) => needed == pdu.len(),
        Ok(_) => false,
    };
    let same = (entity.core().phase(ID), entity.core().spare()) == before && out == blank;
    Ok(short && same && by_outcome(alloc, entity)?.is_some_and(|octets| octets.as_slice() == pdu))
}

/// Whether the Finished PDU is written, and nothing after it; and the transaction is forgotten.
fn is_written(
    alloc: Global,
    entity: &mut Entity,
    condition: u8,
    pdu: &[u8],
) -> Result<bool, Memory> {
    let mut wanted = Vec::from_slice(alloc, pdu)?;
    wanted.extend_from_slice(&[BLANK; 3])?;
    let mut out = vec![in alloc; BLANK; pdu.len() + 3]?;
    let replied = match entity.take_finished(ID, &mut out) {
        Ok(Some(taken)) => {
            taken
                == TakenFinished {
                    condition,
                    len: pdu.len(),
                }
        }
        _ => false,
    };
    Ok(replied && out == wanted && entity.core().phase(ID) == None)
}

/// Whether there is nothing to take, and nothing changes.
fn is_none(entity: &mut Entity) -> bool {
    let before: Option<Phase> = entity.core().phase(ID);
    let mut out = [BLANK; 9];
    matches!(entity.take_finished(ID, &mut out), Ok(None))
        && out == [BLANK; 9]
        && entity.core().phase(ID) == before
}

/// The transaction of a case, of which nothing is taken while it is live.
fn check(rt: &impl Abort, alloc: Global, case: &Case) -> Result<(), Memory> {
    let mut entity = begin(alloc)?;
    for text in &case.pdus {
        assert!(rt; is_none(&mut entity), "{}: taken too early", case.name);
        receive(alloc, &mut entity, &octets_of(alloc, text)?)?;
    }
    for _ in 0..case.steps {
        assert!(rt; is_none(&mut entity), "{}: taken too early", case.name);
        entity.step(ID);
    }
    if case.is_cancelled {
        assert!(rt; is_none(&mut entity), "{}: taken too early", case.name);
        entity.cancel(ID);
    }
    let pdu = octets_of(alloc, case.finished)?;
    let made = by_outcome(alloc, &entity)?;
    assert!(rt;
        made.is_some_and(|octets| octets == pdu),
        "{}: the outcome",
        case.name
    );
    assert!(rt;
        falls_short(alloc, &mut entity, &pdu)?,
        "{}: too short",
        case.name
    );
    assert!(rt;
        is_written(alloc, &mut entity, case.condition, &pdu)?,
        "{}: the octets",
        case.name
    );
    assert!(rt; is_none(&mut entity), "{}: taken twice", case.name);
    Ok(())
}

#[test]
fn each_case(rt: HostRuntime) -> Result<(), Memory> {
    for case in &CASES {
        check(&rt, rt.alloc(), case)?;
    }
    Ok(())
}
