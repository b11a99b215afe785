//! The files that lines `put` name.

ghost use Rattle.std.specs.Prelude.{◌≡◌, ℕ, List, Option, None, Some, Err, IfOk, IfSome};
ghost use Rattle.cfdp_run_script.specs.declared.files.Unread.TheVariants.{Failed};

use std::alloc::Global;

/// Why a file was not read.
#[derive(Clone, Copy, Debug, PartialEq, Eq)]
pub enum Unread {
    /// It cannot be read.
    Failed,
    /// Out of memory.
    Memory,
}

/// Files that are read by their names.
pub trait Files {
    // What each file holds, if that is known; `None` for a file that cannot be read.
    ghost known: { Self → Option (List ℕ → Option (List ℕ)) };

    /// All octets of the file with a name.
    ///
    /// # Errors
    ///
    /// It cannot be read, or there is no memory for it.
    fn read(&mut self, alloc: Global, name: &[u8]) -> Result<Vec<u8>, Unread>
        ensures ok { IfOk result (λ octets. IfSome (known self.old) (λ files. files name.now ≡ Some octets.items)) }
        ensures err { result ≡ Err Failed → IfSome (known self.old) (λ files. files name.now ≡ None) }
        ensures same { known self.new ≡ known self.old };
}
