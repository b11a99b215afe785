//! Directories and files that are put into the filestore while no transaction is known: those that are there before
//! launch, or that were kept over a restart.

ghost use Rattle.std.specs.Prelude.{◌≡◌, ◌≢◌, ◌≤◌, IsTrue, IsOk, IfErr, OnErr, OnOk, None, Some, [], ◌∷◌, length};
ghost use Rattle.cfdp_actions.specs.Filestore.{Becomes, Directory, File, Node, node_at, parent_is_good, staged_in, weight};
ghost use Rattle.cfdp_actions.specs.Store.{free_blocks, with_changes};
ghost use Rattle.cfdp_transactions.specs.Beginning.{IsNotPut, Memory as NoMemory, put_fault, with_node};
ghost use Rattle.cfdp_transactions.specs.code.Books.{IsBooked, IsSteady, world_of};
ghost use Rattle.cfdp_transactions.specs.Sound.{Sound};

use crate::books::Books;
use cfdp_actions::{Filestore, PAYLOAD_OCTETS};
use cfdp_paths::{Memory, Path};
use cfdp_quota::Quota;

/// Why nothing was put at a path, in the order of tests. The filestore is as before.
#[derive(Clone, Copy, Debug, PartialEq, Eq)]
pub enum NotPut {
    /// A transaction is known: it is live, or its outcome was not taken.
    HasTransactions,
    /// Something exists at the path.
    Exists,
    /// The path's parent does not exist, or is a file.
    NoParent,
    /// The filestore has fewer free blocks than the directory or file takes.
    NoRoom,
    /// Out of memory.
    Memory,
}

/// The slot through which the octets of a file come to their path. While no transaction is known, nothing is staged in
/// it.
const SLOT: u8 = 0;

/// Puts an empty directory at a path.
pub(crate) fn put_directory<S: Filestore>(
    store: &mut S,
    books: &mut Books,
    path: &Path,
) -> Result<(), NotPut>
    requires sound { Sound (world_of (S.state store.old) books.old) }
    requires booked { IsBooked (S.state store.old) books.old }
    ensures ok { OnOk result (put_fault (world_of (S.state store.old) books.old) path.now Directory ≡ None) }
    ensures put { OnOk result (world_of (S.state store.new) books.new
        ≡ with_node (world_of (S.state store.old) books.old) path.now Directory) }
    ensures err { IfErr result (IsNotPut (world_of (S.state store.old) books.old) path.now Directory) }
    ensures unchanged { OnErr result (world_of (S.state store.new) books.new ≡ world_of (S.state store.old) books.old) }
    ensures thrifty { IsTrue (S.state store.old).takes_no_memory → IfErr result (λ why. why ≢ NoMemory) }
    ensures booked { IsBooked (S.state store.new) books.new }
    ensures steady { IsSteady (S.state store.old) (S.state store.new) }
{
    if let Some(why) = fault(&*store, books, path, 1) {
        return Err(why);
    }
    let Ok(_) = store.make_dir(path) else {
        return Err(NotPut::Memory);
    };
    books.quota = Quota::with_free(books.config.blocks(), store.free());
    Ok(())
}

/// Puts a file with these octets at a path.
pub(crate) fn put_file<S: Filestore>(
    store: &mut S,
    books: &mut Books,
    path: &Path,
    octets: &[u8],
) -> Result<(), NotPut>
    requires sound { Sound (world_of (S.state store.old) books.old) }
    requires booked { IsBooked (S.state store.old) books.old }
    ensures ok { OnOk result (put_fault (world_of (S.state store.old) books.old) path.now (File octets.now) ≡ None) }
    ensures put { OnOk result (world_of (S.state store.new) books.new
        ≡ with_node (world_of (S.state store.old) books.old) path.now (File octets.now)) }
    ensures err { IfErr result (IsNotPut (world_of (S.state store.old) books.old) path.now (File octets.now)) }
    ensures unchanged { OnErr result (world_of (S.state store.new) books.new ≡ world_of (S.state store.old) books.old) }
    ensures thrifty { IsTrue (S.state store.old).takes_no_memory → IfErr result (λ why. why ≢ NoMemory) }
    ensures booked { IsBooked (S.state store.new) books.new }
    ensures steady { IsSteady (S.state store.old) (S.state store.new) }
{
    let blocks = 1 + (octets.len() as u64).div_ceil(PAYLOAD_OCTETS);
    if let Some(why) = fault(&*store, books, path, blocks) {
        return Err(why);
    }
    let Ok(()) = write_file(store, path, octets) else {
        return Err(NotPut::Memory);
    };
    books.quota = Quota::with_free(books.config.blocks(), store.free());
    Ok(())
}

/// Why nothing that takes `blocks` blocks can be put at a path: the first reason.
fn fault<S: Filestore>(store: &S, books: &Books, path: &Path, blocks: u64) -> Option<NotPut>
    requires booked { IsBooked (S.state store.now) books.now }
    ensures { (node : Node) → weight (Some node) ≡ blocks → result
        ≡ put_fault (world_of (S.state store.now) books.now) path.now node }
{
    if books.table.len() != 0 {
        return Some(NotPut::HasTransactions);
    }
    if store.kind(path).is_some() {
        return Some(NotPut::Exists);
    }
    if !store.parent_is_good(path) {
        return Some(NotPut::NoParent);
    }
    if u64::from(store.free()) < blocks {
        return Some(NotPut::NoRoom);
    }
    None
}

/// Makes a file with these octets.
///
/// # Errors
///
/// Out of memory, if the store takes any: the store is as before.
fn write_file<S: Filestore>(store: &mut S, path: &Path, octets: &[u8]) -> Result<(), Memory>
    requires absent { node_at (S.state store.old).filestore path.now ≡ None }
    requires parent { IsTrue (parent_is_good (S.state store.old).filestore path.now) }
    requires slots { length (S.state store.old).filestore.staged ≡ 64 }
    requires unstaged { staged_in (S.state store.old).filestore 0 ≡ [] }
    requires room { weight (Some (File octets.now)) ≤ free_blocks (S.state store.old) }
    ensures made { OnOk result (S.state store.new ≡ with_changes (S.state store.old)
        (Becomes path.now (Some (File octets.now)) ∷ [])) }
    ensures err { OnErr result (S.state store.new ≡ S.state store.old) }
    ensures thrifty { IsTrue (S.state store.old).takes_no_memory → IsOk result }
{
    store.stage_extend(SLOT, octets.len() as u64)?;
    store.stage_put(SLOT, 0, octets);
    match store.install(SLOT, path) {
        Ok(_) => Ok(()),
        Err(refused) => {
            store.unstage(SLOT);
            Err(refused)
        }
    }
}
