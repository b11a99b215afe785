//! The checksum of a file in a store.

ghost use Rattle.std.specs.Prelude.{◌≡◌, IsTrue};
ghost use Rattle.cfdp_checksum.specs.Checksum.{checksum};
ghost use Rattle.cfdp_actions.specs.Filestore.{is_file, node_at, file_octets_at};

use crate::Filestore;
use cfdp_paths::Path;

/// The modular checksum, CFDP's checksum type 0, of the file at the path (the file checksum of an EOF PDU, CCSDS
/// 727.0-B-5 §5.2.2): modulo 2^32 the sum of its octets as words of four octets, the first one the most significant and
/// the last word filled with zeros. The checksum of an empty file is 0. Takes no memory. The store says what it costs:
/// [`Filestore::checksum`].
pub fn entry_checksum<S: Filestore>(store: &S, path: &Path) -> u32
    requires { IsTrue (is_file (node_at (S.state store.now).filestore path.now)) }
    ensures { result ≡ checksum (file_octets_at (S.state store.now).filestore path.now) }
{
    store.checksum(path)
}
