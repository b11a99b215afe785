//! What a store of files offers.

ghost use Rattle.std.specs.Prelude.{◌≡◌, ◌≢◌, ℕ, ◌+◌, ◌-◌, ◌*◌, ◌<◌, ◌≤◌, ◌==◌, Bool, true, false, not, if◌then◌else◌, IsTrue, IsFalse, IsSome, IsNone, IsOk, IfOk, OnOk, OnErr, Option, Some, None, List, [], ◌∷◌, ◌++◌, length, map, slice_range, is_none};
ghost use Rattle.cfdp_checksum.specs.Checksum.{checksum};
ghost use Rattle.cfdp_paths.specs.Paths.{same_path, is_at_or_below};
ghost use Rattle.cfdp_paths.specs.PathMaps.{is_too_deep};
ghost use Rattle.cfdp_actions.specs.Filestore.{Node, File, Directory, node_at, staged_in, blocks_of, weight, blocks, Becomes, Stages, has_entries, is_directory, is_file, octets_in, file_octets_at, parent_is_good, tree_at, deepest_of, has_beside, deepest_beside};
ghost use Rattle.cfdp_actions.specs.Actions.{vacating, arriving};
ghost use Rattle.cfdp_actions.specs.Store.{Store, free_blocks, with_changes, kind_at, extended, overwritten, listing_of, existing_nodes_at};

use crate::{Entry, ExistingNode, Kind};
use cfdp_paths::{Memory, Path};
use std::alloc::Global;

/// A store of files and directories (CCSDS 727.0-B-5, filestore procedures), with 64 lists of octets that are staged in
/// slots until they are installed as files.
///
/// Contracts see it as its `state`: a filestore, a capacity in blocks, and whether its changes take no memory. A node
/// takes one block, and each 120 octets of a file or of a staged list one more. Slots are numbers below 64. A change
/// returns its ticks: the blocks that it took, those that it gave back, and the blocks whose octets it moved. After
/// out of memory the state is as before; where `takes_no_memory` returns true, no change returns it.
///
/// Ticks count blocks, not time: what a call costs is for each store to say.
pub trait Filestore: Drop {
    ghost state: { Self → Store };

    /// Whether a file or a directory is at the path, if anything is.
    fn kind(&self, path: &Path) -> Option<Kind>
        ensures { result ≡ kind_at (state self.now).filestore path.now };

    /// Whether the path's parent is the root or a directory.
    fn parent_is_good(&self, path: &Path) -> bool
        ensures { result ≡ parent_is_good (state self.now).filestore path.now };

    /// Whether anything is below the path.
    fn has_entries(&self, path: &Path) -> bool
        ensures { result ≡ has_entries (state self.now).filestore path.now };

    /// Whether anything is below the path, apart from those of its children that are among `others` and all that is
    /// below them. Other paths among `others` leave nothing out.
    fn has_beside(&self, path: &Path, others: &[Path]) -> bool
        ensures { result ≡ has_beside (state self.now).filestore path.now others.now };

    /// How many octets a file has: at most 7,864,320, the payload of 65,536 blocks.
    fn size(&self, path: &Path) -> u64
        requires { IsTrue (is_file (node_at (state self.now).filestore path.now)) }
        ensures value { result ≡ length (file_octets_at (state self.now).filestore path.now) }
        ensures within { result ≤ 7864320 };

    /// Fills the buffer with a file's octets from offset `at` on.
    fn read(&self, path: &Path, at: u64, buffer: &mut [u8])
        requires file { IsTrue (is_file (node_at (state self.now).filestore path.now)) }
        requires range { at + length buffer.old ≤ length (file_octets_at (state self.now).filestore path.now) }
        ensures { buffer.new
            ≡ slice_range (file_octets_at (state self.now).filestore path.now) at (at + length buffer.old) };

    /// A file's modular checksum (CCSDS 727.0-B-5, checksum procedures): modulo 2^32 the sum of its octets as words of
    /// four octets, the first one the most significant and the last word filled with zeros. Takes no memory. In time at
    /// most linear in the octets; a store that keeps the checksum with the octets takes no more than for `size`.
    fn checksum(&self, path: &Path) -> u32
        requires { IsTrue (is_file (node_at (state self.now).filestore path.now)) }
        ensures { result ≡ checksum (file_octets_at (state self.now).filestore path.now) };

    /// The number of names of the longest path at or below a path at which something exists: 1 to 8.
    fn deepest(&self, path: &Path) -> u8
        requires { IsSome (node_at (state self.now).filestore path.now) }
        ensures value { result ≡ deepest_of (tree_at (state self.now).filestore path.now) }
        ensures within { result ≤ 8 };

    /// The number of names of the longest path of those that `has_beside` asks for: at most 8, and 0 where there is
    /// none.
    fn deepest_beside(&self, path: &Path, others: &[Path]) -> u8
        ensures value { result ≡ deepest_beside (state self.now).filestore path.now others.now }
        ensures within { result ≤ 8 };

    /// How many octets are staged in the slot: 0 where none are, and at most 7,864,320. It also says that there are
    /// 64 slots: a caller that holds any store learns here that the slot is one of them.
    fn staged_size(&self, slot: u8) -> u64
        requires { slot < 64 }
        ensures value { result ≡ length (staged_in (state self.now).filestore slot) }
        ensures within { result ≤ 7864320 }
        ensures slots { length (state self.now).filestore.staged ≡ 64 };

    /// Fills the buffer with the octets that are staged in the slot, from offset `at` on.
    fn read_staged(&self, slot: u8, at: u64, buffer: &mut [u8])
        requires slot { slot < 64 }
        requires range { at + length buffer.old ≤ length (staged_in (state self.now).filestore slot) }
        ensures { buffer.new ≡ slice_range (staged_in (state self.now).filestore slot) at (at + length buffer.old) };

    /// The modular checksum of what is staged in the slot, as that of a file, and at the same cost. Takes no memory.
    fn staged_checksum(&self, slot: u8) -> u32
        requires { slot < 64 }
        ensures { result ≡ checksum (staged_in (state self.now).filestore slot) };

    /// The blocks that nothing takes. There are at most 65,536 blocks, and no more are in use than there are.
    fn free(&self) -> u32
        ensures value { result ≡ free_blocks (state self.now) }
        ensures in_use { blocks (state self.now).filestore ≤ (state self.now).capacity }
        ensures capacity { (state self.now).capacity ≤ 65536 };

    /// Whether no change of this store takes memory, so that none can run out of it. Like `free` it says that no
    /// more than 65,536 blocks are in use, at no cost that grows with the store.
    fn takes_no_memory(&self) -> bool
        ensures value { result ≡ (state self.now).takes_no_memory }
        ensures in_use { blocks (state self.now).filestore ≤ 65536 };

    /// All that exists, each path once, in path order.
    fn listing(&self, alloc: Global) -> Result<Vec<Entry>, Memory>
        ensures { IfOk result (λ entries. entries.items ≡ listing_of (state self.now).filestore) };

    /// What is at the path and below it, each path once, in path order.
    fn existing(&self, alloc: Global, path: &Path) -> Result<Vec<ExistingNode>, Memory>
        ensures { IfOk result (λ found. found.items ≡ existing_nodes_at (state self.now).filestore path.now) };

    /// Makes an empty file. Returns 1.
    fn make_file(&mut self, path: &Path) -> Result<u32, Memory>
        requires absent { node_at (state self.old).filestore path.now ≡ None }
        requires parent { IsTrue (parent_is_good (state self.old).filestore path.now) }
        requires room { 1 ≤ free_blocks (state self.old) }
        ensures ticks { IfOk result (λ ticks. ticks ≡ 1) }
        ensures made { OnOk result (state self.new
            ≡ with_changes (state self.old) (Becomes path.now (Some (File [])) ∷ [])) }
        ensures err { OnErr result (state self.new ≡ state self.old) }
        ensures thrifty { IsTrue (state self.old).takes_no_memory → IsOk result };

    /// Makes an empty directory. Returns 1.
    fn make_dir(&mut self, path: &Path) -> Result<u32, Memory>
        requires absent { node_at (state self.old).filestore path.now ≡ None }
        requires parent { IsTrue (parent_is_good (state self.old).filestore path.now) }
        requires room { 1 ≤ free_blocks (state self.old) }
        ensures ticks { IfOk result (λ ticks. ticks ≡ 1) }
        ensures made { OnOk result (state self.new
            ≡ with_changes (state self.old) (Becomes path.now (Some Directory) ∷ [])) }
        ensures err { OnErr result (state self.new ≡ state self.old) }
        ensures thrifty { IsTrue (state self.old).takes_no_memory → IsOk result };

    /// Removes a file, or a directory below which nothing exists. Returns the blocks that are given back.
    fn remove(&mut self, path: &Path) -> Result<u32, Memory>
        requires present { IsSome (node_at (state self.old).filestore path.now) }
        requires childless { IsTrue (is_directory (node_at (state self.old).filestore path.now))
            → has_entries (state self.old).filestore path.now ≡ false }
        ensures ticks { IfOk result (λ ticks. ticks ≡ weight (node_at (state self.old).filestore path.now)) }
        ensures gone { OnOk result (state self.new ≡ with_changes (state self.old) (Becomes path.now None ∷ [])) }
        ensures err { OnErr result (state self.new ≡ state self.old) }
        ensures thrifty { IsTrue (state self.old).takes_no_memory → IsOk result };

    /// Moves what is at the first path, with all that is below it, to the second: each path p/r becomes q/r.
    /// Returns 0.
    fn rename(&mut self, from: &Path, to: &Path) -> Result<u32, Memory>
        requires present { IsSome (node_at (state self.old).filestore from.now) }
        requires absent { node_at (state self.old).filestore to.now ≡ None }
        requires parent { IsTrue (parent_is_good (state self.old).filestore to.now) }
        requires apart { is_at_or_below to.now from.now ≡ false }
        requires depth { is_too_deep from.now to.now (tree_at (state self.old).filestore from.now) ≡ false }
        ensures ticks { IfOk result (λ ticks. ticks ≡ 0) }
        ensures moved { OnOk result (let tree = tree_at (state self.old).filestore from.now in
            state self.new ≡ with_changes (state self.old) (vacating tree ++ arriving from.now to.now tree)) }
        ensures err { OnErr result (state self.new ≡ state self.old) }
        ensures thrifty { IsTrue (state self.old).takes_no_memory → IsOk result };

    /// Puts the second file's octets, as they are before the call, at the end of the first file. Returns the blocks
    /// that the first file takes more, and those of the second.
    fn append(&mut self, first: &Path, second: &Path) -> Result<u32, Memory>
        requires first { IsTrue (is_file (node_at (state self.old).filestore first.now)) }
        requires second { IsTrue (is_file (node_at (state self.old).filestore second.now)) }
        requires room { let n = length (file_octets_at (state self.old).filestore first.now) in
            let m = length (file_octets_at (state self.old).filestore second.now) in
            blocks_of (n + m) - blocks_of n ≤ free_blocks (state self.old) }
        ensures ticks { IfOk result (λ ticks. let n = length (file_octets_at (state self.old).filestore first.now) in
            let m = length (file_octets_at (state self.old).filestore second.now) in
            ticks ≡ (blocks_of (n + m) - blocks_of n) + blocks_of m) }
        ensures appended { OnOk result (let F = (state self.old).filestore in
            state self.new ≡ with_changes (state self.old)
            (Becomes first.now (Some (File (file_octets_at F first.now ++ file_octets_at F second.now))) ∷ [])) }
        ensures err { OnErr result (state self.new ≡ state self.old) }
        ensures thrifty { IsTrue (state self.old).takes_no_memory → IsOk result };

    /// Replaces the first file's octets by the second file's. Returns the blocks that are given back, those that are
    /// taken and those that are moved; 0 where both paths are one, since nothing happens then.
    fn replace(&mut self, first: &Path, second: &Path) -> Result<u32, Memory>
        requires first { IsTrue (is_file (node_at (state self.old).filestore first.now)) }
        requires second { IsTrue (is_file (node_at (state self.old).filestore second.now)) }
        requires room { blocks_of (length (file_octets_at (state self.old).filestore second.now))
            ≤ free_blocks (state self.old) + blocks_of (length (file_octets_at (state self.old).filestore first.now)) }
        ensures ticks { IfOk result (λ ticks. let n = length (file_octets_at (state self.old).filestore first.now) in
            let m = length (file_octets_at (state self.old).filestore second.now) in
            ticks ≡ (if same_path first.now second.now then 0 else blocks_of n + 2 * blocks_of m)) }
        ensures replaced { OnOk result (let F = (state self.old).filestore in
            state self.new ≡ with_changes (state self.old)
            (if same_path first.now second.now then []
            else Becomes first.now (Some (File (file_octets_at F second.now))) ∷ [])) }
        ensures err { OnErr result (state self.new ≡ state self.old) }
        ensures thrifty { IsTrue (state self.old).takes_no_memory → IsOk result };

    /// Adds zeros at the end of what is staged in the slot, up to the size. Returns the blocks that are taken.
    fn stage_extend(&mut self, slot: u8, size: u64) -> Result<u32, Memory>
        requires slot { slot < 64 }
        requires longer { length (staged_in (state self.old).filestore slot) ≤ size }
        requires room { blocks_of size - blocks_of (length (staged_in (state self.old).filestore slot))
            ≤ free_blocks (state self.old) }
        ensures ticks { IfOk result (λ ticks.
            ticks ≡ blocks_of size - blocks_of (length (staged_in (state self.old).filestore slot))) }
        ensures extended { OnOk result (state self.new ≡ with_changes (state self.old)
            (Stages slot (extended (staged_in (state self.old).filestore slot) size) ∷ [])) }
        ensures err { OnErr result (state self.new ≡ state self.old) }
        ensures thrifty { IsTrue (state self.old).takes_no_memory → IsOk result };

    /// Replaces the octets that are staged in the slot, from offset `at` on, by these.
    fn stage_put(&mut self, slot: u8, at: u64, octets: &[u8])
        requires slot { slot < 64 }
        requires range { at + length octets.now ≤ length (staged_in (state self.old).filestore slot) }
        ensures { state self.new ≡ with_changes (state self.old)
            (Stages slot (overwritten (staged_in (state self.old).filestore slot) at octets.now) ∷ []) };

    /// Drops what is staged in the slot. Returns the blocks that are given back.
    fn unstage(&mut self, slot: u8) -> u32
        requires { slot < 64 }
        ensures ticks { result ≡ blocks_of (length (staged_in (state self.old).filestore slot)) }
        ensures dropped { state self.new ≡ with_changes (state self.old) (Stages slot [] ∷ []) };

    /// Makes what is staged in the slot the contents of the file at the path, which is made where it is absent; the
    /// slot is then empty. Returns 1 where the path was absent, else the blocks that the old contents give back.
    fn install(&mut self, slot: u8, path: &Path) -> Result<u32, Memory>
        requires slot { slot < 64 }
        requires parent { IsTrue (parent_is_good (state self.old).filestore path.now) }
        requires kind { is_directory (node_at (state self.old).filestore path.now) ≡ false }
        requires room { node_at (state self.old).filestore path.now ≡ None → 1 ≤ free_blocks (state self.old) }
        ensures ticks { IfOk result (λ ticks.
            ticks ≡ (if is_none (node_at (state self.old).filestore path.now) then 1
            else blocks_of (length (file_octets_at (state self.old).filestore path.now)))) }
        ensures installed { OnOk result (state self.new ≡ with_changes (state self.old)
            (Stages slot [] ∷ Becomes path.now (Some (File (staged_in (state self.old).filestore slot))) ∷ [])) }
        ensures err { OnErr result (state self.new ≡ state self.old) }
        ensures thrifty { IsTrue (state self.old).takes_no_memory → IsOk result };
}
