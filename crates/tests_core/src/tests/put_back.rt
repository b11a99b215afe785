//! What is put into a filestore before the first PDU: each reason for which nothing is put, and out of memory. A
//! filestore that is read out of one entity and put into another is in `examples/c/restart.c`.

use super::entity::octets_of;
use super::scene::path_of;
use cfdp_actions::{Filestore, ListStore, Protected};
use cfdp_entity::Entity;
use cfdp_paths::{Memory, Path};
use cfdp_status::TransactionId;
use cfdp_transactions::{Config, Core, NotPut};
use std::alloc::{AllocError, Global};

/// A path, and a directory, or a file of this many equal octets.
type Put = (&'static [u8], Option<(usize, u8)>);

/// A name, what is put, and why it is not.
type Row = (&'static str, Put, Option<NotPut>);

const FILES: &[Put] = &[
    (b"app", None),
    (b"app/empty", Some((0, 0))),
    (b"app/prog", Some((400, 7))),
    (b"boot", None),
    (b"boot/a", None),
    (b"boot/a/image", Some((24, 1))),
];

/// In a filestore of 16 blocks: `app/prog` takes 5 of them, so that a file of 1,080 octets takes all that are left.
const REASONS: &[Row] = &[
    (
        "a file in no directory",
        (b"app/prog", Some((1, 1))),
        Some(NotPut::NoParent),
    ),
    ("a directory", (b"app", None), None),
    ("the directory again", (b"app", None), Some(NotPut::Exists)),
    (
        "a file in place of the directory",
        (b"app", Some((0, 0))),
        Some(NotPut::Exists),
    ),
    (
        "a file in the directory",
        (b"app/prog", Some((400, 7))),
        None,
    ),
    (
        "a directory in the file",
        (b"app/prog/x", None),
        Some(NotPut::NoParent),
    ),
    (
        "a file that is too large",
        (b"large", Some((1081, 0))),
        Some(NotPut::NoRoom),
    ),
    (
        "a file that takes all that is left",
        (b"large", Some((1080, 0))),
        None,
    ),
    (
        "a directory, where no block is left",
        (b"more", None),
        Some(NotPut::NoRoom),
    ),
];

/// An entity with a filestore of 16 blocks. The limits are good: only memory can be refused.
fn new_entity(alloc: Global) -> Result<Entity, Memory> {
    match Config::new(2, 16, 2400, 2, 1000, Protected::new()) {
        Ok(config) => Entity::new(alloc, config),
        Err(_) => Err(AllocError),
    }
}

/// Like `new_entity`, but a core over a store that takes memory for each change.
fn new_core(alloc: Global) -> Result<Core<ListStore>, Memory> {
    match Config::new(2, 16, 2400, 2, 1000, Protected::new()) {
        Ok(config) => Core::new(alloc, config, ListStore::new(alloc, 16)?),
        Err(_) => Err(AllocError),
    }
}

/// This many equal octets.
fn equal(alloc: Global, count: usize, octet: u8) -> Result<Vec<u8>, Memory> {
    let mut octets = Vec::new(alloc);
    octets.resize(count, octet)?;
    Ok(octets)
}

/// Why it is not put.
fn put(alloc: Global, entity: &mut Entity, what: Put) -> Result<Option<NotPut>, Memory> {
    let (path, octets) = what;
    let path = path_of(alloc, path)?;
    let done = match octets {
        None => entity.put_directory(&path),
        Some((count, octet)) => entity.put_file(&path, &equal(alloc, count, octet)?),
    };
    Ok(done.err())
}

/// The Metadata PDU of transaction 1/1: create directory `app`, create file `app/prog`.
const METADATA: &str = "24001b00010102074000000000000000055003617070000a00086170702f70726f67";

#[test]
fn each_reason(rt: HostRuntime) -> Result<(), Memory> {
    let alloc = rt.alloc();
    let mut entity = new_entity(alloc)?;
    for (name, what, why) in REASONS {
        assert!(&rt; put(alloc, &mut entity, *what)? == *why, "{name}");
    }
    assert!(&rt;
        entity.core().spare() == 0,
        "{} blocks to spare",
        entity.core().spare()
    );
    Ok(())
}

#[test]
fn beside_transactions(rt: HostRuntime) -> Result<(), Memory> {
    let alloc = rt.alloc();
    let mut entity = new_entity(alloc)?;
    let id = TransactionId {
        source: 1,
        number: 1,
    };
    let octets = octets_of(alloc, METADATA)?;
    assert!(&rt; entity.receive(alloc, &octets).is_ok(), "the Metadata PDU");
    assert!(&rt;
        put(alloc, &mut entity, FILES[0])? == Some(NotPut::HasTransactions),
        "while it is live"
    );
    entity.cancel(id);
    assert!(&rt;
        put(alloc, &mut entity, FILES[0])? == Some(NotPut::HasTransactions),
        "once it is cancelled"
    );
    assert!(&rt; entity.take(alloc, id, &mut [0; 64]).is_ok(), "its outcome");
    assert!(&rt;
        put(alloc, &mut entity, FILES[0])?.is_none(),
        "once its outcome is taken"
    );
    Ok(())
}

/// Puts it into a store that takes memory.
fn put_in(core: &mut Core<ListStore>, path: &Path, octets: &Option<Vec<u8>>) -> Result<(), NotPut> {
    match octets {
        None => core.put_directory(path),
        Some(octets) => core.put_file(path, octets),
    }
}

/// Out of memory, all is as before, and the same call can be made again.
#[test]
fn memory(rt: HostRuntime) -> Result<(), Memory> {
    let alloc = rt.alloc();
    let mut core = new_core(alloc)?;
    for (name, file) in FILES {
        let path = path_of(alloc, name)?;
        let octets = match *file {
            None => None,
            Some((count, octet)) => Some(equal(alloc, count, octet)?),
        };
        let before = (core.store().listing(alloc)?, core.spare());
        let mut done = put_in(&mut core, &path, &octets);
        if done == Err(NotPut::Memory) {
            assert!(&rt;
                before == (core.store().listing(alloc)?, core.spare()),
                "out of memory: {}",
                name.escape_ascii()
            );
            done = put_in(&mut core, &path, &octets);
        }
        assert!(&rt; done.is_ok(), "{}", name.escape_ascii());
    }
    Ok(())
}
