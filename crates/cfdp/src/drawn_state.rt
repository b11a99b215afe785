//! What a picture shows of a receiving entity between two lines of a script.

use cfdp_actions::Filestore;
use cfdp_directives::TransactionStatus;
use cfdp_draw::{Blocks, DrawnPhase, Received, Seen};
use cfdp_entity::Entity;
use cfdp_receiver::Receiver;
use cfdp_sessions::Stage;
use cfdp_status::TransactionId;
use cfdp_transactions::Phase as CorePhase;
use std::alloc::{AllocError, Global};

/// The blocks in use, and those that are reserved beside them.
pub fn blocks_of(entity: &Entity) -> Blocks {
    let core = entity.core();
    let free = core.store().free();
    Blocks {
        used: core.config().blocks().saturating_sub(free),
        reserved: free.saturating_sub(core.spare()),
    }
}

/// How far a transaction of the core is. After a line it is neither performing items nor over.
fn core_phase(phase: CorePhase) -> Option<DrawnPhase> {
    match phase {
        CorePhase::Receiving => Some(DrawnPhase::Receiving),
        CorePhase::Awaiting(_) => Some(DrawnPhase::Awaiting),
        CorePhase::Executing(_) | CorePhase::Refused | CorePhase::Done | CorePhase::Ended(_) => {
            None
        }
    }
}

/// What was received of the file of a transaction that the core knows, if it has a file.
fn received_of(
    alloc: Global,
    entity: &Entity,
    id: TransactionId,
) -> Result<Option<Received>, AllocError> {
    let core = entity.core();
    let Some(metadata) = core.metadata(id) else {
        return Ok(None);
    };
    let Some(gaps) = core.gaps(id) else {
        return Ok(None);
    };
    if metadata.destination_name.is_empty() {
        return Ok(None);
    }
    Ok(Some(Received {
        end: core.reach(id).unwrap_or(0),
        gaps: Vec::from_slice(alloc, gaps.as_slice())?,
    }))
}

/// What there is to see of a transaction that the core knows.
fn look_at_known(alloc: Global, entity: &Entity, id: TransactionId) -> Result<Seen, AllocError> {
    let core = entity.core();
    let size = core.metadata(id).map_or(0, |metadata| metadata.size);
    Ok(Seen {
        phase: core.phase(id).and_then(core_phase),
        received: received_of(alloc, entity, id)?,
        size: size.max(core.reach(id).unwrap_or(0)),
    })
}

/// What there is to see of a transaction after its file was delivered, if it was: this many octets.
fn look_at_end(alloc: Global, phase: Option<DrawnPhase>, delivered: Option<u64>) -> Seen {
    let received = match delivered {
        Some(end) => Some(Received {
            end,
            gaps: Vec::new(alloc),
        }),
        None => None,
    };
    Seen {
        phase,
        received,
        size: 0,
    }
}

/// How far a transaction without a session is.
fn phase_without(status: TransactionStatus) -> Option<DrawnPhase> {
    match status {
        TransactionStatus::Terminated => Some(DrawnPhase::Closed),
        _ => None,
    }
}

/// What there is to see of a transaction. Where its file was delivered, it has this many octets.
pub fn look_at(
    alloc: Global,
    receiver: &Receiver,
    id: TransactionId,
    delivered: Option<u64>,
) -> Result<Seen, AllocError> {
    let Some(session) = receiver.session(id) else {
        let phase = phase_without(receiver.status(id));
        return Ok(look_at_end(alloc, phase, delivered));
    };
    match session.stage {
        Stage::Held(eof) => Ok(Seen {
            phase: Some(DrawnPhase::Held),
            received: None,
            size: eof.size,
        }),
        Stage::Known => look_at_known(alloc, receiver.entity(), id),
        Stage::Over(_) => Ok(look_at_end(alloc, None, delivered)),
        Stage::Waiting => Ok(look_at_end(alloc, Some(DrawnPhase::Waiting), delivered)),
    }
}
