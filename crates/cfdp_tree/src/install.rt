//! What is staged becomes a file.
ghost use Rattle.std.specs.Prelude.{◌≡◌, ◌+◌, ◌-◌, ◌*◌, ◌<◌, ◌≤◌, IsTrue, IsOk, IfOk, OnOk, OnErr, Some, None, false, [], ◌∷◌, ◌++◌, length, is_none, if◌then◌else◌};
ghost use Rattle.cfdp_paths.specs.Paths.{same_path};
ghost use Rattle.cfdp_actions.specs.Filestore.{File, node_at, staged_in, blocks_of, Becomes, Stages, is_file, is_directory, file_octets_at, parent_is_good};
ghost use Rattle.cfdp_actions.specs.Store.{free_blocks, with_changes};

use crate::files::{find_file, set_contents};
use crate::tree_store::TreeStore;
use cfdp_actions::Filestore;
use cfdp_paths::Path;

impl TreeStore {
    /// Makes what is staged in the slot the contents of a file; the slot is then empty. Returns the blocks that the old
    /// contents give back.
    pub(crate) fn install_over(&mut self, slot: u8, path: &Path) -> u32
        requires slot { slot < 64 }
        requires file { IsTrue (is_file (node_at self.old.filestore path.now)) }
        ensures ticks { result ≡ blocks_of (length (file_octets_at self.old.filestore path.now)) }
        ensures installed { self.new ≡ with_changes self.old
            (Stages slot [] ∷ Becomes path.now (Some (File (staged_in self.old.filestore slot))) ∷ []) }
    {
        self.exchange(slot, path);
        self.unstage(slot)
    }

    /// Gives a file what is staged in the slot, and the slot what the file had. No octet moves. In constant time, but
    /// for the search for the file.
    fn exchange(&mut self, slot: u8, path: &Path)
        requires slot { slot < 64 }
        requires file { IsTrue (is_file (node_at self.old.filestore path.now)) }
        ensures exchanged { self.new ≡ with_changes self.old (Stages slot (file_octets_at self.old.filestore path.now)
            ∷ Becomes path.now (Some (File (staged_in self.old.filestore slot))) ∷ []) }
        ensures slots { length self.old.filestore.staged ≡ 64 }
    {
        let index = usize::from(slot);
        let file = find_file(&self.arena, &self.heads, &self.orders, path);
        let staged = self.slots[index].contents;
        set_contents(&mut self.arena, file.node, &staged);
        self.slots[index].hold(file.contents);
    }
}
