//! What a transaction performs, one at a time.

ghost use Rattle.std.specs.Prelude.{◌≡◌, ◌<◌, IsTrue, IsOk, IfOk, OnOk, OnErr};
ghost use Rattle.cfdp_actions.specs.Actions.{act_item, succeeded, ticks};
ghost use Rattle.cfdp_actions.specs.Store.{free_blocks, with_changes};
ghost use Rattle.cfdp_transactions.specs.Execution.{is_install, replied};
ghost use Rattle.cfdp_transactions.specs.code.Items.{item_of};

use crate::Reply;
use cfdp_actions::{Filestore, Protected, Request, perform_allowed};
use cfdp_paths::{Memory, Path};

/// What a transaction performs once its file is there (CCSDS 727.0-B-5, filestore procedures).
#[derive(Clone, Copy)]
pub(crate) enum Item<'a> {
    /// Its file is installed at the path.
    Install(&'a Path),
    /// A filestore request is performed.
    Perform(&'a Request),
}

impl<'a> Item<'a> {
    /// Whether it is the install.
    pub(crate) fn is_install(&self) -> bool
        ensures { result ≡ is_install (item_of self.now) }
    {
        matches!(self, Item::Install(_))
    }
}

/// An item that went well.
#[derive(Clone, Copy)]
pub(crate) struct ItemDone {
    /// Its number, from 0.
    pub(crate) next: u8,
    /// Whether no item is after it.
    pub(crate) last: bool,
    /// Whether it is the install.
    pub(crate) install: bool,
    /// How many blocks were free before it.
    pub(crate) before: u32,
    /// How many blocks were free after it.
    pub(crate) after: u32,
    /// How many ticks it took.
    pub(crate) ticks: u32,
}

/// Performs an item of the transaction that stages in the slot, one that succeeds: the reply, and the ticks that it
/// took. What is protected was looked at when the transaction was admitted, and is here for the contract alone.
///
/// # Errors
///
/// Out of memory, where the store takes any: it is as before. Cost: that of the store's change.
pub(crate) fn act<S: Filestore>(
    store: &mut S,
    _protected: &Protected,
    slot: u8,
    item: Item<'_>,
) -> Result<(Reply, u32), Memory>
    requires slot { slot < 64 }
    requires succeeds { let s = S.state store.old in
        IsTrue (succeeded (act_item _protected.now s.filestore (free_blocks s) slot (item_of item)).answer) }
    ensures reply { let s = S.state store.old in
        IfOk result (λ done. done.0 ≡ replied (act_item _protected.now s.filestore (free_blocks s) slot
        (item_of item.entry)).answer) }
    ensures ticks { let s = S.state store.old in
        IfOk result (λ done. done.1 ≡ ticks (act_item _protected.now s.filestore (free_blocks s) slot
        (item_of item.entry))) }
    ensures state { let s = S.state store.old in
        OnOk result (S.state store.new ≡ with_changes s (act_item _protected.now s.filestore (free_blocks s) slot
        (item_of item.entry)).changes) }
    ensures err { OnErr result (S.state store.new ≡ S.state store.old) }
    ensures thrifty { IsTrue (S.state store.old).takes_no_memory → IsOk result }
{
    match item {
        Item::Install(path) => {
            let ticks = store.install(slot, path)?;
            Ok((Reply::Installed, ticks))
        }
        Item::Perform(request) => {
            let done = perform_allowed(store, request)?;
            Ok((Reply::Performed(done.status), done.ticks))
        }
    }
}
