//! The Keep Alive PDU, by which a file's receiver says how much of the file has come.

ghost use Rattle.std.specs.Prelude.{◌≡◌, ◌≤◌, ◌+◌, ◌++◌, ◌↔◌, length, take, vec_len, IfErr, IfSome, IfNone, OnOk, OnErr, OnSome, IsOk, IsSome};
ghost use Rattle.std.specs.Vec.{vec_capacity};
ghost use Rattle.cfdp_tlv.specs.Reading.{Answers};
ghost use Rattle.cfdp_pdus.specs.Canonical.{IsHeader};
ghost use Rattle.cfdp_pdus.specs.declared.fault.WriteFault.TheVariants.{Memory};
ghost use Rattle.cfdp_pdus.specs.BufferParts.{filled};
ghost use Rattle.cfdp_directives.specs.Reading.{keep_alive_at};
ghost use Rattle.cfdp_directives.specs.Spelling.{IsSizedKeepAlive, keep_alive_field, keep_alive_pdu};

use crate::put::{put_pdu, write_pdu};
use byteorder::{BigEndian, ByteOrder};
use cfdp_pdus::{Header, PduFault, WriteFault, directive, read_number, size_len};

/// What a Keep Alive PDU says (CCSDS 727.0-B-5 §5.2.8).
#[derive(Clone, Copy, Debug, PartialEq, Eq)]
pub struct KeepAlive {
    /// The progress: the offset in the file, in octets, after the last octet that came. Below 2^32 without the large
    /// file flag.
    pub progress: u64,
}

impl KeepAlive {
    /// The data field: the first octets of an array, and how many they are.
    #[tactic(auto, unfolding(crate::specs::Spelling::keep_alive_field))]
    fn field(self, large: bool) -> ([u8; 9], usize)
        requires { IsSizedKeepAlive large self }
        ensures octets { take result.1 result.0 ≡ keep_alive_field large self }
        ensures len { result.1 ≤ 9 }
    {
        let size_len = size_len(large);
        let mut field = [0; 9];
        field[0] = directive::KEEP_ALIVE;
        BigEndian::write_uint(&mut field[1..], self.progress, size_len);
        (field, 1 + size_len)
    }
}

/// The data field of a Keep Alive PDU, after its directive code.
#[tactic(auto, unfolding(crate::specs::Reading::keep_alive_at))]
pub(crate) fn read_keep_alive(large: bool, octets: &[u8]) -> Result<KeepAlive, PduFault>
    ensures { Answers (λ keep_alive. keep_alive) result (keep_alive_at large octets.now) }
{
    let (progress, rest) = read_number(octets, size_len(large), PduFault::LengthMismatch)?;
    if !rest.is_empty() {
        return Err(PduFault::LengthMismatch);
    }
    Ok(KeepAlive { progress })
}

/// Writes a Keep Alive PDU (CCSDS 727.0-B-5 §5.2.8) to the front of a buffer, and returns its length in octets; the
/// rest of the buffer stays. Returns `None`, and writes nothing, exactly where the buffer is too short. Takes no
/// memory.
///
/// Cost: the octets that it writes.
pub fn put_keep_alive(header: &Header, keep_alive: KeepAlive, out: &mut [u8]) -> Option<usize>
    requires header { IsHeader header.now }
    requires sized { IsSizedKeepAlive header.now.large keep_alive }
    ensures fits { IsSome result ↔ (length (keep_alive_pdu header.now keep_alive) ≤ length out.old) }
    ensures len { IfSome result (λ len. len ≡ length (keep_alive_pdu header.now keep_alive)) }
    ensures written { OnSome result (out.new ≡ filled (keep_alive_pdu header.now keep_alive) out.old) }
    ensures unchanged { IfNone result (out.new ≡ out.old) }
{
    let (field, len) = keep_alive.field(header.large);
    put_pdu(header, &field[..len], out)
}

/// Appends a Keep Alive PDU (CCSDS 727.0-B-5 §5.2.8).
///
/// The only fault is `Memory`. Cost: the octets that it appends, and one growth of the vector at most.
pub fn write_keep_alive(
    header: &Header,
    keep_alive: KeepAlive,
    out: &mut Vec<u8>,
) -> Result<(), WriteFault>
    requires header { IsHeader header.now }
    requires sized { IsSizedKeepAlive header.now.large keep_alive }
    ensures ok { OnOk result (out.new.items ≡ out.old.items ++ keep_alive_pdu header.now keep_alive) }
    ensures faults { IfErr result (λ fault. fault ≡ Memory) }
    ensures err { OnErr result (out.new.items ≡ out.old.items) }
    // Where there is room for it, no memory is asked for.
    ensures room { vec_len out.old + length (keep_alive_pdu header.now keep_alive) ≤ vec_capacity out.old
        → IsOk result }
    ensures capacity { vec_capacity out.old ≤ vec_capacity out.new }
{
    let (field, len) = keep_alive.field(header.large);
    write_pdu(header, &field[..len], out)
}
