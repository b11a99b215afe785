//! What a list is judged on, how it came about, and the verdict in words.

ghost use Rattle.std.specs.Prelude.{◌≡◌, ◌≤◌, IfNone};

use cfdp_actions::{Filestore, Kind, ListStore, Protected, Request, perform};
use cfdp_leases::{Footprint, Leases, footprint};
use cfdp_paths::{Memory, Path};
use cfdp_quota::Quota;
use cfdp_status::{Action, TransactionId};
use cfdp_tlv::{FILESTORE_REQUEST, FilestoreRequest, read_request, read_tlv};
use cfdp_verifier::{Proposal, Verdict, verify};
use std::alloc::{AllocError, Global};
use std::process::Abort;

/// What came before a list is judged. Requests are whole TLVs, and the transactions are of entity 1.
#[derive(Clone, Copy)]
pub enum Before {
    /// The configuration protects this path.
    Protected(&'static [u8]),
    /// A transaction that is over delivered a file of this many octets.
    Delivered(&'static [u8], u64),
    /// A transaction that is over had this request performed.
    Performed(&'static [u8]),
    /// The transaction with this number was admitted with this request, and granted a block.
    Admitted(u8, &'static [u8]),
}

/// What a list is judged on.
#[derive(Drop)]
pub struct Scene {
    blocks: u32,
    pub store: ListStore,
    pub leases: Leases,
    /// Of the free blocks.
    reserved: u32,
    pub protected: Protected,
}

fn id(number: u8) -> TransactionId {
    TransactionId {
        source: 1,
        number: u64::from(number),
    }
}

/// The request of a TLV, which is one, and nothing after it: only memory can be refused.
pub fn read(alloc: Global, tlv: &[u8]) -> Result<FilestoreRequest, Memory> {
    match read_tlv(tlv) {
        Ok(field) if field.kind == FILESTORE_REQUEST && field.rest.is_empty() => {
            read_value(alloc, field.value)
        }
        _ => Err(AllocError),
    }
}

/// The request of a TLV's value.
fn read_value(alloc: Global, value: &[u8]) -> Result<FilestoreRequest, Memory> {
    match read_request(alloc, value) {
        Ok(request) => Ok(request),
        Err(_) => Err(AllocError),
    }
}

/// The requests of TLVs.
fn read_all(alloc: Global, tlvs: &[&[u8]]) -> Result<Vec<FilestoreRequest>, Memory> {
    let mut requests = Vec::new(alloc);
    for tlv in tlvs {
        requests.push(read(alloc, tlv)?)?;
    }
    Ok(requests)
}

/// The path of a name, which spells one: only memory can be refused.
pub fn path_of(alloc: Global, name: &[u8]) -> Result<Path, Memory> {
    match Path::parse(alloc, name) {
        Ok(path) => Ok(path),
        Err(_) => Err(AllocError),
    }
}

/// The path of a second name, which is empty where there is none.
fn second_of(alloc: Global, name: &[u8]) -> Result<Option<Path>, Memory> {
    if name.is_empty() {
        return Ok(None);
    }
    Ok(Some(path_of(alloc, name)?))
}

/// The request for an action at its names, the second of which is empty where there is none. They are neither too few
/// nor too many.
pub fn request(
    alloc: Global,
    action: Action,
    first: &[u8],
    second: &[u8],
) -> Result<Request, Memory> {
    let second = second_of(alloc, second)?;
    Request::new(action, path_of(alloc, first)?, second).ok_or(AllocError)
}

/// The request of a TLV with paths for its names.
pub fn parse(alloc: Global, tlv: &[u8]) -> Result<Request, Memory> {
    let sent = read(alloc, tlv)?;
    let second = sent.second().unwrap_or(b"");
    request(alloc, sent.action(), sent.first(), second)
}

/// Puts a file of this many octets at the path; false where it does not fit or may not be.
#[tactic(auto, unfolding(cfdp_actions::specs::Filestore::blocks_of))]
fn deliver(store: &mut ListStore, path: &Path, size: u64) -> Result<bool, Memory>
    requires { size ≤ 7864320 }
{
    if store.staged_size(0) > 0 || (size + 119) / 120 > u64::from(store.free()) {
        return Ok(false);
    }
    store.stage_extend(0, size)?;
    if !store.parent_is_good(path) || store.free() == 0 {
        return Ok(false);
    }
    match store.kind(path) {
        Some(Kind::Directory) => Ok(false),
        Some(Kind::File) | None => {
            store.install(0, path)?;
            Ok(true)
        }
    }
}

/// Protects a path: whether there is room for it.
pub fn protects(alloc: Global, protected: &mut Protected, name: &[u8]) -> Result<bool, Memory> {
    let path = path_of(alloc, name)?;
    Ok(protected.add(path).is_ok())
}

/// Grants a footprint, with which none conflicts, to a transaction that has none.
pub fn hold(
    rt: &impl Abort,
    leases: &mut Leases,
    transaction: TransactionId,
    footprint: Footprint,
) -> Result<(), Memory> {
    assert!(rt;
        leases.conflict(&footprint).is_none() && !leases.holds(transaction),
        "transaction {}",
        transaction.number
    );
    leases.grant(transaction, footprint)
}

impl Scene {
    pub fn new(
        rt: &impl Abort,
        alloc: Global,
        blocks: u32,
        before: &[Before],
    ) -> Result<Scene, Memory> {
        assert!(rt; 1 <= blocks && blocks <= 65_536, "{blocks} blocks");
        let mut scene = Scene {
            blocks,
            store: ListStore::new(alloc, blocks)?,
            leases: Leases::new(alloc),
            reserved: 0,
            protected: Protected::new(),
        };
        for event in before {
            scene.happen(rt, alloc, *event)?;
        }
        Ok(scene)
    }

    fn happen(&mut self, rt: &impl Abort, alloc: Global, event: Before) -> Result<(), Memory> {
        match event {
            Before::Protected(name) => self.protect(rt, alloc, name),
            Before::Delivered(name, size) => self.deliver(rt, alloc, name, size),
            Before::Performed(tlv) => self.perform(rt, alloc, tlv),
            Before::Admitted(number, tlv) => self.admit(rt, alloc, number, tlv),
        }
    }

    fn protect(&mut self, rt: &impl Abort, alloc: Global, name: &[u8]) -> Result<(), Memory> {
        let is_added = protects(alloc, &mut self.protected, name)?;
        assert!(rt; is_added, "protected: {}", name.escape_ascii());
        Ok(())
    }

    /// Delivers a file of this many octets.
    fn deliver(
        &mut self,
        rt: &impl Abort,
        alloc: Global,
        name: &[u8],
        size: u64,
    ) -> Result<(), Memory> {
        assert!(rt; size <= 7_864_320, "{size} octets");
        let path = path_of(alloc, name)?;
        let is_delivered = deliver(&mut self.store, &path, size)?;
        assert!(rt; is_delivered, "delivered: {}", name.escape_ascii());
        Ok(())
    }

    /// Performs a request on the store, which has to be successful.
    fn perform(&mut self, rt: &impl Abort, alloc: Global, tlv: &[u8]) -> Result<(), Memory> {
        let request = parse(alloc, tlv)?;
        let done = perform(&mut self.store, &self.protected, &request)?;
        assert!(rt;
            done.status.is_successful(),
            "status {}",
            done.status.octet()
        );
        Ok(())
    }

    /// Lets a transaction hold what its request leases, and a block.
    fn admit(
        &mut self,
        rt: &impl Abort,
        alloc: Global,
        number: u8,
        tlv: &[u8],
    ) -> Result<(), Memory> {
        let request = parse(alloc, tlv)?;
        let leased = footprint(alloc, &[request], None)?;
        hold(rt, &mut self.leases, id(number), leased)?;
        self.reserved = 1;
        Ok(())
    }

    /// The blocks of the store, and what live transactions have reserved of the free ones.
    pub fn quota(&self, rt: &impl Abort) -> Quota {
        let free = self.store.free();
        assert!(rt;
            free <= self.blocks,
            "{free} of {} blocks are free",
            self.blocks
        );
        let mut quota = Quota::with_free(self.blocks, free);
        assert!(rt;
            self.reserved <= quota.spare() && !quota.is_open(0),
            "{} of {} blocks are reserved",
            self.reserved,
            quota.spare()
        );
        quota.reserve(0, self.reserved);
        quota
    }

    /// What is said of a list with a file, where there is one, by its destination and its bound.
    pub fn judge(
        &self,
        rt: &impl Abort,
        alloc: Global,
        file: Option<(&[u8], u64)>,
        tlvs: &[&[u8]],
    ) -> Result<String, Memory> {
        let requests = read_all(alloc, tlvs)?;
        let quota = self.quota(rt);
        match file {
            None => {
                let list = Proposal {
                    destination: None,
                    bound: 0,
                    requests: &requests,
                };
                self.tell(alloc, &quota, &list)
            }
            Some((name, bound)) => {
                let list = Proposal {
                    destination: Some(name),
                    bound,
                    requests: &requests,
                };
                self.tell(alloc, &quota, &list)
            }
        }
    }

    /// What is said of a list: what it is granted, or why it is refused. The call is the one of `docs/GUIDE.md`.
    pub fn tell(
        &self,
        alloc: Global,
        quota: &Quota,
        proposal: &Proposal<'_>,
    ) -> Result<String, Memory>
        requires bound { IfNone proposal.now.destination (proposal.now.bound ≡ 0) }
    {
        let (store, leases, protected) = (&self.store, &self.leases, &self.protected);
        let text = match verify(alloc, store, leases, quota, protected, proposal)? {
            Verdict::Grant(grant) => format!(in alloc;
                "{} blocks, {} steps",
                grant.blocks, grant.steps
            )?,
            Verdict::Refuse(refusal) => format!(in alloc; "{refusal:?}")?,
        };
        Ok(text)
    }
}
