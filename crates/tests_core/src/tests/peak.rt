//! A long list that is refused by name, lent to a core and given to one. `.ci/refused` compares the most memory that
//! each test has in use: a core that copied what is lent before it judged it would need more.

ghost use Rattle.std.specs.Prelude.{◌≡◌};

use super::scene::read;
use cfdp_actions::Protected;
use cfdp_paths::Memory;
use cfdp_pdus::checksum_type::MODULAR_CHECKSUM;
use cfdp_pdus::{Header, Metadata};
use cfdp_transactions::{Config, Core, Event, Reply};
use cfdp_tree::TreeStore;
use cfdp_verifier::Refusal;
use std::alloc::{AllocError, Global};

/// The actions, as the octet that they have in a request.
const CREATE_FILE: u8 = 0x00;

const DELETE_FILE: u8 = 0x10;

/// The TLV of a request on a name of 96 octets, which ends with this one.
fn tlv(alloc: Global, action: u8, last: u8) -> Result<Vec<u8>, Memory> {
    let mut octets = Vec::from_slice(alloc, &[0, 98, action, 96])?;
    octets.resize(99, b'x')?;
    octets.push(last)?;
    Ok(octets)
}

/// Metadata without a file, whose list makes 63 files and deletes one that does not exist.
fn event(alloc: Global) -> Result<Event, Memory> {
    let mut requests = Vec::with_capacity(alloc, 64)?;
    for last in b'0'..=b'n' {
        requests.push(read(alloc, &tlv(alloc, CREATE_FILE, last)?)?)?;
    }
    requests.push(read(alloc, &tlv(alloc, DELETE_FILE, b'o')?)?)?;
    let header = Header {
        toward_sender: false,
        acknowledged: false,
        large: false,
        id_len: 1,
        number_len: 1,
        source: 1,
        number: 1,
        destination: 2,
    };
    let metadata = Metadata {
        closure: false,
        checksum_type: MODULAR_CHECKSUM,
        size: 0,
        source_name: Vec::new(alloc),
        destination_name: Vec::new(alloc),
        requests,
    };
    Ok(Event::Metadata(header, metadata))
}

/// A core that has just begun.
fn core(alloc: Global) -> Result<Core<TreeStore>, Memory> {
    let Ok(config) = Config::new(2, 64, 2_400, 2, 1_000, Protected::new()) else {
        return Err(AllocError);
    };
    let store = TreeStore::new(alloc, config.blocks())?;
    Core::new(alloc, config, store)
}

/// Whether the last request is the reason.
fn is_refused(reply: &Reply) -> bool {
    matches!(reply, Reply::Refused(Refusal::WouldFail(63, _)))
}

#[test]
fn lent(rt: HostRuntime) -> Result<(), Memory> {
    let mut core = core(rt.alloc())?;
    let event = event(rt.alloc())?;
    assert!(rt; is_refused(&core.apply(&event)), "a list that is lent");
    Ok(())
}

#[test]
fn given(rt: HostRuntime) -> Result<(), Memory> {
    let mut core = core(rt.alloc())?;
    let event = event(rt.alloc())?;
    assert!(rt;
        is_refused(&core.apply_owned(event)),
        "a list that is given"
    );
    Ok(())
}
