//! The CRC at the end of a PDU, checked and taken off in place, or added in place.

ghost use Rattle.std.specs.Prelude.{◌≡◌, ◌≢◌, ◌≤◌, ◌<◌, ◌+◌, ◌/◌, ◌%◌, ◌∷◌, length, slice_index, take, drop, IfOk, IfErr, IsOk, OnErr, OnOk, Ok, Err};
ghost use Rattle.cfdp_crc.specs.declared.sealing.SealFault.TheVariants.{NoRoom};
ghost use Rattle.cfdp_crc.specs.Seal.{sealed_at, sealed_by, header_len, plain_by, plain_len, sealed, unsealed, with_flag};

use crate::crc::crc16;

/// Why a PDU with the CRC flag is refused, in the order in which it is judged.
#[derive(Clone, Copy, Debug, PartialEq, Eq)]
pub enum CrcFault {
    /// The octets end before the PDU does.
    Truncated,
    /// The version is not 001.
    BadVersion,
    /// There are octets after the data field, or it is too short for a CRC.
    LengthMismatch,
    /// The CRC is not that of the octets before it.
    BadCrc,
}

/// Why a CRC is not added to a PDU, in the order in which it is judged.
#[derive(Clone, Copy, Debug, PartialEq, Eq)]
pub enum SealFault {
    /// The octets are no whole PDU: the version is not 001, the header is cut, or the PDU's length is not what its
    /// header says.
    NotAPdu,
    /// The PDU has a CRC.
    HasCrc,
    /// The data field has more than 65,533 octets: with a CRC its length would not fit the header.
    TooLong,
    /// The buffer has no two octets after the PDU.
    NoRoom,
}

/// How many octets a header has, by its fourth.
fn header_len(fourth: u8) -> usize
    ensures value { result ≡ header_len fourth }
    ensures bound { result ≤ 28 }
{
    let id_len = usize::from((fourth >> 4) % 8 + 1);
    let number_len = usize::from(fourth % 8 + 1);
    4 + 2 * id_len + number_len
}

/// The length of the data field, where the PDU is whole and its CRC right.
fn check_crc(octets: &[u8], len: u16, whole: usize) -> Result<Option<u16>, CrcFault>
    ensures { result ≡ sealed_by octets.now len whole }
{
    if octets.len() < whole {
        return Err(CrcFault::Truncated);
    }
    if octets.len() > whole || len < 2 {
        return Err(CrcFault::LengthMismatch);
    }
    if crc16(octets) != 0 {
        return Err(CrcFault::BadCrc);
    }
    Ok(Some(len))
}

/// The length of the data field where the PDU has a CRC, which is then right; `None` where it has none.
#[tactic(auto, unfolding(crate::specs::Seal::sealed_at))]
fn sealed_len(octets: &[u8]) -> Result<Option<u16>, CrcFault>
    ensures { result ≡ sealed_at octets.now }
{
    let [first, rest @ ..] = octets else {
        return Err(CrcFault::Truncated);
    };
    if *first >> 5 != 1 {
        return Err(CrcFault::BadVersion);
    }
    if (*first >> 1) % 2 == 0 {
        return Ok(None);
    }
    let [high, low, fourth, ..] = rest else {
        return Err(CrcFault::Truncated);
    };
    let len = 256 * u16::from(*high) + u16::from(*low);
    let whole = header_len(*fourth) + usize::from(len);
    check_crc(octets, len, whole)
}

/// Checks the CRC of a PDU and takes it off in place. Returns how many octets are left, at the beginning: all of them
/// where the PDU has no CRC. The CRC flag is then 0, and the length of the data field (CCSDS 727.0-B-5 §5.1) does not
/// count the CRC. Takes no memory.
///
/// # Errors
///
/// The first fault of a PDU with the CRC flag; the octets are as before. Cost: one pass over the octets.
#[tactic(auto, unfolding(crate::specs::Seal::sealed_at))]
pub fn unseal(octets: &mut [u8]) -> Result<usize, CrcFault>
    ensures ok { IfOk result (λ len. unsealed octets.old ≡ Ok (take len octets.new)) }
    ensures within { IfOk result (λ len. len ≤ length octets.old) }
    ensures err { IfErr result (λ fault. unsealed octets.old ≡ Err fault) }
    ensures unchanged { OnErr result (octets.new ≡ octets.old) }
{
    let Some(len) = sealed_len(octets)? else {
        return Ok(octets.len());
    };
    let rest = len - 2;
    octets[0] -= 2;
    octets[1] = (rest >> 8) as u8;
    octets[2] = (rest % 256) as u8;
    Ok(octets.len() - 2)
}

/// The length of the data field, where the PDU has `whole` octets and a CRC fits its data field.
fn check_len(octets: &[u8], len: u16, whole: usize) -> Result<u16, SealFault>
    ensures value { result ≡ plain_by octets.now len whole }
    ensures fits { IfOk result (λ len. len ≤ 65533) }
    ensures room { result ≢ Err NoRoom }
{
    if octets.len() != whole {
        return Err(SealFault::NotAPdu);
    }
    if len > 65_533 {
        return Err(SealFault::TooLong);
    }
    Ok(len)
}

/// The length of the data field of a whole PDU that has no CRC and can get one.
#[tactic(auto, unfolding(crate::specs::Seal::plain_len))]
fn plain_len(octets: &[u8]) -> Result<u16, SealFault>
    ensures value { result ≡ plain_len octets.now }
    ensures fits { IfOk result (λ len. len ≤ 65533) }
    ensures header { OnOk result (4 ≤ length octets.now) }
    ensures flag { OnOk result (slice_index octets.now 0 < 254) }
    ensures room { result ≢ Err NoRoom }
{
    let [first, rest @ ..] = octets else {
        return Err(SealFault::NotAPdu);
    };
    if *first >> 5 != 1 {
        return Err(SealFault::NotAPdu);
    }
    if (*first >> 1) % 2 != 0 {
        return Err(SealFault::HasCrc);
    }
    let [high, low, fourth, ..] = rest else {
        return Err(SealFault::NotAPdu);
    };
    let len = 256 * u16::from(*high) + u16::from(*low);
    let whole = header_len(*fourth) + usize::from(len);
    check_len(octets, len, whole)
}

/// Sets the CRC flag, and counts two octets more in the length of the data field.
fn set_flag(pdu: &mut [u8], len: u16)
    requires header { 4 ≤ length pdu.old }
    requires flag { slice_index pdu.old 0 < 254 }
    requires fits { len ≤ 65533 }
    ensures { pdu.new ≡ with_flag pdu.old len }
{
    let with_crc = len + 2;
    pdu[0] += 2;
    pdu[1] = (with_crc >> 8) as u8;
    pdu[2] = (with_crc % 256) as u8;
}

/// Writes a CRC to the first two octets.
fn put_crc(room: &mut [u8], crc: u16)
    requires { 2 ≤ length room.old }
    ensures { room.new ≡ crc / 256 ∷ crc % 256 ∷ drop 2 room.old }
{
    room[0] = (crc >> 8) as u8;
    room[1] = (crc % 256) as u8;
}

/// Adds a CRC to the PDU in the first `len` octets of a buffer, in place: the CRC flag is then 1, and the CRC is the
/// last two octets of the data field, whose length (CCSDS 727.0-B-5 §5.1) counts it. Returns the length of the PDU with
/// its CRC. Takes no memory.
///
/// # Errors
///
/// The first fault in the order of [`SealFault`]; the buffer is as before. Cost: one pass over the PDU.
pub fn seal(buffer: &mut [u8], len: usize) -> Result<usize, SealFault>
    requires { len ≤ length buffer.old }
    ensures ok { IfOk result (λ whole. sealed (take len buffer.old) ≡ Ok (take whole buffer.new)) }
    ensures whole { IfOk result (λ whole. whole ≡ len + 2) }
    ensures rest { IfOk result (λ whole. drop whole buffer.new ≡ drop whole buffer.old) }
    ensures err { IfErr result (λ fault. fault ≢ NoRoom → sealed (take len buffer.old) ≡ Err fault) }
    ensures no_room { result ≡ Err NoRoom → length buffer.old < len + 2 }
    // Room is judged last: it is missing only where a CRC could be added otherwise.
    ensures no_room_last { result ≡ Err NoRoom → IsOk (sealed (take len buffer.old)) }
    ensures unchanged { OnErr result (buffer.new ≡ buffer.old) }
{
    let field = plain_len(&buffer[..len])?;
    if buffer.len() - len < 2 {
        return Err(SealFault::NoRoom);
    }
    let (pdu, room) = buffer.split_at_mut(len);
    set_flag(pdu, field);
    put_crc(room, crc16(pdu));
    Ok(len + 2)
}
