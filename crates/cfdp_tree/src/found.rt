//! What is at a path that is given by its names.
ghost use Rattle.std.specs.Option.{option_map};
ghost use Rattle.std.specs.Prelude.{◌≡◌, All, length};
ghost use Rattle.cfdp_paths.specs.Paths.{IsName};
ghost use Rattle.cfdp_actions.specs.Filestore.{node_at, file_octets_at};
ghost use Rattle.cfdp_tree.specs.Found.{found_of, octets_read, with_octets};

use crate::contents::contents_of;
use crate::listing::{Found, found_at};
use crate::lookup::find_names;
use crate::node_block::kind_of;
use crate::tree_store::TreeStore;
use cfdp_actions::Kind;
use cfdp_paths::Names;

impl TreeStore {
    /// What is at the path of these names; `None` where nothing is. Takes no memory. In expected time linear in
    /// the octets of the names, whatever the size of a file.
    pub fn find(&self, names: Names<'_>) -> Option<Found>
        requires { All IsName names }
        ensures { result ≡ option_map found_of (node_at self.now.filestore names.entry) }
    {
        let node = find_names(&self.arena, &self.heads, &self.orders, names)?;
        Some(found_at(&self.arena, node))
    }

    /// Copies a file's octets from offset `at` on to the front of the buffer, as many as there are and as fit, and
    /// returns how many; `None` where no file is at the path of these names. Takes no memory. In expected time
    /// linear in the octets of the names and in those that are copied, and logarithmic in the blocks of the file.
    pub fn read_at(&self, names: Names<'_>, at: u64, buffer: &mut [u8]) -> Option<usize>
        requires { All IsName names }
        ensures count { result ≡ octets_read (node_at self.now.filestore names.entry) at buffer.old }
        ensures octets { buffer.new ≡ with_octets (file_octets_at self.now.filestore names.entry) at buffer.old }
    {
        let node = find_names(&self.arena, &self.heads, &self.orders, names)?;
        let block = self.arena.bytes(node);
        match kind_of(block) {
            Kind::Directory => None,
            Kind::File => {
                let file = contents_of(block);
                let size = u64::from(file.size);
                let start = at.min(size);
                let count = (size - start).min(buffer.len() as u64) as usize;
                let front = &mut buffer[..count];
                file.get(
                    &self.arena,
                    &self.ways,
                    file.run.start(),
                    start as u32,
                    front,
                );
                Some(count)
            }
        }
    }
}
