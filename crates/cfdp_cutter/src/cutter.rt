//! A stream of octets, cut into PDUs.

ghost use Rattle.std.specs.Prelude.{◌≡◌, ◌≢◌, ◌++◌, ◌≤◌, ◌⊎◌, [], length, false, true, None, Ok, IfErr, IfOk, IfSome, OnErr, OnOk};
ghost use Rattle.cfdp_crc.specs.Seal.{header_len};
ghost use Rattle.cfdp_cutter.specs.Cutting.{IsNotCut, Lost, Open, Whole, first_pdu, pdu_len};
ghost use Rattle.cfdp_cutter.specs.declared.cutter.CutFault.TheVariants.{Version};

use std::alloc::{AllocError, Global};
use std::marker::Model;
use std::mem;

/// How many octets at the beginning of a PDU say its length.
const FIXED_LEN: usize = 4;

/// Why a stream is cut no further.
#[derive(Clone, Copy, Debug, PartialEq, Eq)]
pub enum CutFault {
    /// The next octet begins no PDU: its version is not 001. Where the next PDU begins cannot be known.
    Version,
    /// Out of memory.
    Memory,
}

impl From<AllocError> for CutFault {
    ghost use Rattle.std.specs.Prelude.{◌≡◌};
    ghost use Rattle.cfdp_cutter.specs.declared.cutter.CutFault.TheVariants.{Memory};

    ghost from_gives = { λ _ why. why ≡ Memory };

    fn from(_refused: AllocError) -> CutFault {
        CutFault::Memory
    }
}

/// How many octets a header has, by its fourth octet.
fn header_len(fourth: u8) -> usize
    ensures { result ≡ header_len fourth }
{
    let id_len = usize::from((fourth >> 4) % 8 + 1);
    let number_len = usize::from(fourth % 8 + 1);
    4 + 2 * id_len + number_len
}

/// How many octets the PDU has that these octets begin, by its header (CCSDS 727.0-B-5 §5.1): 7 to 65,563. `None` if
/// they are fewer than 4. Takes no memory. Cost: constant.
pub fn pdu_len(octets: &[u8]) -> Option<usize>
    ensures { result ≡ pdu_len octets.now }
{
    let [_, high, low, fourth, ..] = octets else {
        return None;
    };
    Some(header_len(*fourth) + (256 * usize::from(*high) + usize::from(*low)))
}

/// Takes octets off the front of `octets`, until there are `len` in `begun`.
fn take_up_to(begun: &mut Vec<u8>, len: usize, octets: &mut &[u8]) -> Result<(), AllocError>
    requires { length begun.old.items ≤ len }
    ensures unlost { begun.new.items ++ octets.new.now ≡ begun.old.items ++ octets.old.now }
    ensures within { length begun.new.items ≤ len }
    ensures unchanged { OnErr result (begun.new.items ≡ begun.old.items) }
    ensures all { OnOk result ((length begun.new.items ≡ len) ⊎ (octets.new.now ≡ [])) }
{
    let missing = len - begun.len();
    let (front, rest) = octets.split_at(missing.min(octets.len()));
    begun.extend_from_slice(front)?;
    *octets = rest;
    Ok(())
}

/// Takes octets off the front of `octets`, up to the end of the first PDU. Returns whether there is one, which is
/// `begun` then.
fn fill(begun: &mut Vec<u8>, octets: &mut &[u8]) -> Result<bool, AllocError>
    requires begun { first_pdu begun.old.items ≡ Open }
    requires going { first_pdu (begun.old.items ++ octets.old.now) ≢ Lost }
    ensures whole { result ≡ Ok true → first_pdu (begun.old.items ++ octets.old.now)
        ≡ Whole begun.new.items octets.new.now }
    ensures open { result ≡ Ok false → first_pdu (begun.old.items ++ octets.old.now) ≡ Open }
    ensures taken { result ≡ Ok false → octets.new.now ≡ [] }
    ensures unlost { begun.new.items ++ octets.new.now ≡ begun.old.items ++ octets.old.now }
    ensures err { OnErr result (first_pdu begun.new.items ≡ Open) }
{
    let fixed = FIXED_LEN.max(begun.len());
    take_up_to(begun, fixed, octets)?;
    let Some(len) = pdu_len(begun) else {
        return Ok(false);
    };
    take_up_to(begun, len, octets)?;
    Ok(begun.len() == len)
}

/// A stream of octets that comes in pieces, and is cut into PDUs: each says its length by its header (CCSDS 727.0-B-5
/// §5.1). How the stream is split into pieces does not matter.
///
/// Contracts see the octets of the PDU that has begun and is not whole: at most 65,562, as
/// [`crate::laws::little_is_kept`] says.
#[derive(Drop)]
pub struct Cutter {
    alloc: Global,
    begun: Vec<u8>,
}

impl Model for Cutter {
    ghost use Rattle.std.specs.Prelude.{◌≡◌, List, ℕ};
    ghost use Rattle.cfdp_cutter.specs.Cutting.{Open, first_pdu};

    ghost Value = { List ℕ };

    ghost view = { λ c. c.begun.items };

    ghost invariant = { λ c. first_pdu c.begun.items ≡ Open };
}

impl Cutter {
    /// At the beginning of a stream. Takes no memory.
    pub fn new(alloc: Global) -> Cutter
        ensures { result ≡ [] }
    {
        Cutter {
            alloc,
            begun: Vec::new(alloc),
        }
    }

    /// How many octets of the PDU that has begun came so far: 0 where the stream may end. Takes no memory.
    pub fn len(&self) -> usize
        ensures { result ≡ length self.now }
    {
        self.begun.len()
    }

    /// Takes octets off the front of the next piece of the stream, up to the end of the first PDU. Returns that PDU if
    /// it is whole, and may be called again then. Without one all octets were taken.
    ///
    /// # Errors
    ///
    /// [`CutFault::Version`] where the stream goes on with an octet that begins no PDU: nothing changes, so the call
    /// fails again. Else [`CutFault::Memory`] when out of memory: no octet is lost, and the call can be made again.
    /// Cost: a copy of the octets that are taken.
    pub fn next(&mut self, octets: &mut &[u8]) -> Result<Option<Vec<u8>>, CutFault>
        ensures whole { IfOk result (λ pdu. IfSome pdu (λ found. first_pdu (self.old ++ octets.old.now)
            ≡ Whole found.items octets.new.now)) }
        ensures fresh { IfOk result (λ pdu. IfSome pdu (λ found. self.new ≡ [])) }
        ensures open { result ≡ Ok None → first_pdu (self.old ++ octets.old.now) ≡ Open }
        ensures taken { result ≡ Ok None → octets.new.now ≡ [] }
        ensures kept { result ≡ Ok None → self.new ≡ self.old ++ octets.old.now }
        ensures err { IfErr result (IsNotCut (self.old ++ octets.old.now)) }
        ensures unlost { OnErr result (self.new ++ octets.new.now ≡ self.old ++ octets.old.now) }
    {
        if self.begun.is_empty()
            && let Some(first) = octets.first()
            && *first >> 5 != 1
        {
            return Err(CutFault::Version);
        }
        if !fill(&mut self.begun, octets)? {
            return Ok(None);
        }
        Ok(Some(mem::replace(&mut self.begun, Vec::new(self.alloc))))
    }
}
