//! The TLV fields among some octets, lent one after the other.

ghost use Rattle.std.specs.Prelude.{◌≡◌};
ghost use Rattle.std.specs.Iterator.{YieldsFirstBy, item_count};
ghost use Rattle.cfdp_pdus.specs.First.{fields_at};
ghost use Rattle.cfdp_pdus.specs.code.Fields.{field_if_whole};

use cfdp_tlv::{Tlv, TlvFault, read_tlv};
use std::marker::Model;

/// TLV fields that are still to come. The first that is cut is the last to come, as an error. A contract sees the list
/// of them, in which that one is `None`. No call takes memory.
#[derive(Debug, Drop)]
pub struct TlvFields<'a> {
    // The octets that were not gone through yet.
    rest: &'a [u8],
}

impl<'a> Model for TlvFields<'a> {
    ghost use Rattle.std.specs.Prelude.{List, Option};
    ghost use Rattle.cfdp_pdus.specs.Grammar.{Field};
    ghost use Rattle.cfdp_pdus.specs.First.{fields_at};

    ghost Value = { List (Option Field) };

    ghost view = { λ fields. fields_at fields.rest.now };
}

impl<'a> TlvFields<'a> {
    /// All fields among the octets.
    pub fn among(octets: &'a [u8]) -> TlvFields<'a>
        ensures { result ≡ fields_at octets.now }
    {
        TlvFields { rest: octets }
    }
}

impl<'a> Iterator for TlvFields<'a> {
    type Item = Result<Tlv<'a>, TlvFault>;

    ghost next_gives = { YieldsFirstBy field_if_whole (λ fields. fields) };

    ghost remaining = { item_count (λ fields. fields) };

    fn next(&mut self) -> Option<Result<Tlv<'a>, TlvFault>> {
        if self.rest.is_empty() {
            return None;
        }
        match read_tlv(self.rest) {
            Ok(field) => {
                self.rest = field.rest;
                Some(Ok(field))
            }
            Err(fault) => {
                self.rest = &[];
                Some(Err(fault))
            }
        }
    }
}
