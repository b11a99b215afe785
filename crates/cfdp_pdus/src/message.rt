//! The messages to user of a Metadata PDU, lent one after the other.

ghost use Rattle.std.specs.Prelude.{◌≡◌, [], ◌∷◌, length, option_map, slice_get, IfSome, IfNone};
ghost use Rattle.std.specs.Iterator.{YieldsFirstRef, item_count};
ghost use Rattle.cfdp_tlv.specs.Types.{message_to_user_type};
ghost use Rattle.cfdp_tlv.specs.Reading.{Answers};
ghost use Rattle.cfdp_pdus.specs.Grammar.{SpellsPdu, values_of};
ghost use Rattle.cfdp_pdus.specs.Messages.{messages_among, messages_at, options_said};
ghost use Rattle.cfdp_pdus.specs.code.Messages.{options_at, options_in, after_names, judged_options};
ghost use Rattle.cfdp_pdus.specs.Values.{MetadataFields};
ghost use Rattle.cfdp_pdus.specs.declared.header.Header.{Header as HeaderValue};
ghost use Rattle.cfdp_pdus.specs.declared.pdu.Pdu.TheVariants.{Metadata as MetadataCame};

use crate::PduFault;
use crate::directive::METADATA;
use crate::field::{count_requests, read_name};
use crate::header::read_start;
use crate::number::{read_number, size_len};
use cfdp_tlv::{MESSAGE_TO_USER, read_tlv};
use std::marker::Model;

/// The messages to user of a Metadata PDU (CCSDS 727.0-B-5 §5.4.3) that are still to come, in the order in which they
/// come in the PDU. Each has 0 to 255 octets, and is lent out of the PDU's octets. No call takes memory. A contract
/// sees the list of them. [`read_messages`] makes it.
///
/// Cost: going through all of them is one pass over the PDU's options.
#[derive(Debug, Drop)]
pub struct Messages<'a> {
    // The options that were not gone through yet.
    options: &'a [u8],
}

impl<'a> Model for Messages<'a> {
    ghost use Rattle.std.specs.Prelude.{ℕ, List};
    ghost use Rattle.cfdp_pdus.specs.Messages.{messages_among};

    ghost Value = { List (List ℕ) };

    ghost view = { λ m. messages_among m.options.now };
}

/// The first message among TLV fields, and the fields after it.
#[derive(Clone, Copy)]
struct First<'a> {
    message: &'a [u8],
    rest: &'a [u8],
}

/// The first message among TLV fields.
fn first_message(octets: &[u8]) -> Option<First<'_>>
    ensures some { IfSome result (λ first. messages_among octets.now
        ≡ first.message.now ∷ messages_among first.rest.now) }
    ensures none { IfNone result (messages_among octets.now ≡ []) }
{
    let mut rest = octets;
    'fields: while !rest.is_empty() {
        let Ok(field) = read_tlv(rest) else {
            return None;
        };
        if field.kind == MESSAGE_TO_USER {
            return Some(First {
                message: field.value,
                rest: field.rest,
            });
        }
        rest = field.rest;
    }
    None
}

/// How many messages there are among TLV fields.
fn count_messages(options: &[u8]) -> usize
    ensures { result ≡ length (messages_among options.now) }
{
    Messages { options }.count()
}

impl<'a> Iterator for Messages<'a> {
    type Item = &'a [u8];

    ghost next_gives = { YieldsFirstRef (λ messages. messages) };

    ghost remaining = { item_count (λ messages. messages) };

    fn next(&mut self) -> Option<&'a [u8]> {
        let first = first_message(self.options)?;
        self.options = first.rest;
        Some(first.message)
    }
}

impl<'a> Messages<'a> {
    /// How many there are. Cost: one pass over the PDU's options.
    pub fn len(&self) -> usize
        ensures { result ≡ length self.now }
    {
        count_messages(self.options)
    }

    /// The message of this number, counted from 0; `None` where there are not that many. Cost: a pass over the PDU's
    /// options up to that message.
    pub fn get(&self, n: usize) -> Option<&'a [u8]>
        ensures { option_map (λ message. message.now) result ≡ slice_get self.now n }
    {
        let mut options = self.options;
        let mut before = n;
        'messages: while before > 0 {
            let passed = first_message(options)?;
            options = passed.rest;
            before -= 1;
        }
        let first = first_message(options)?;
        Some(first.message)
    }
}

/// What is left of a Metadata PDU after its names, of the octets after its directive code.
#[tactic(auto, unfolding(crate::specs::code::Messages::after_names))]
fn skip_names(large: bool, octets: &[u8]) -> Result<&[u8], PduFault>
    ensures { Answers (λ options. options.now) result (after_names large octets.now) }
{
    let [_flags, rest @ ..] = octets else {
        return Err(PduFault::LengthMismatch);
    };
    let (_size, rest) = read_number(rest, size_len(large), PduFault::LengthMismatch)?;
    let (_source, rest) = read_name(rest)?;
    let (_destination, options) = read_name(rest)?;
    Ok(options)
}

/// Returns the options, if each of them is whole and each request among them is one.
fn judge(options: &[u8]) -> Result<&[u8], PduFault>
    ensures { Answers (λ judged. judged.now) result (judged_options options.now) }
{
    count_requests(options)?;
    Ok(options)
}

/// The options in the data field of a Metadata PDU.
#[tactic(auto, unfolding(crate::specs::code::Messages::options_in))]
fn find_in_field(large: bool, field: &[u8]) -> Result<&[u8], PduFault>
    ensures { Answers (λ options. options.now) result (options_in large field.now) }
{
    let [code, rest @ ..] = field else {
        return Err(PduFault::LengthMismatch);
    };
    if *code != METADATA {
        return Err(PduFault::BadDirective);
    }
    let options = skip_names(large, rest)?;
    judge(options)
}

/// The options of the Metadata PDU that the octets spell.
#[tactic(auto, unfolding(crate::specs::code::Messages::options_at))]
fn find_options(octets: &[u8]) -> Result<&[u8], PduFault>
    ensures { Answers (λ options. options.now) result (options_at octets.now) }
{
    let start = read_start(octets)?;
    if start.file_data {
        return Err(PduFault::BadDirective);
    }
    find_in_field(start.header.large, start.field)
}

/// The messages to user of the Metadata PDU that the octets spell (CCSDS 727.0-B-5 §5.4.3): the values of its options
/// of type 2, in the order in which they come. There are none where the octets spell no Metadata PDU: where
/// [`read_pdu`] reads another PDU, or returns a fault. What a message says is not looked at. Takes no memory.
///
/// Cost: one pass over the octets, which judges the whole PDU.
///
/// [`read_pdu`]: crate::read_pdu
pub fn read_messages(octets: &[u8]) -> Messages<'_>
    ensures exact { result ≡ messages_at octets.now }
    // What the grammar calls its options of type 2.
    ensures spelled { (header : HeaderValue) (metadata : MetadataFields)
        (said : SpellsPdu octets.now (MetadataCame header metadata))
        → result ≡ values_of message_to_user_type (options_said octets.now header metadata said) }
    ensures none { ((header : HeaderValue) (metadata : MetadataFields) →
        SpellsPdu octets.now (MetadataCame header metadata) → ⊥) → result ≡ [] }
{
    match find_options(octets) {
        Ok(options) => Messages { options },
        Err(_) => Messages { options: &[] },
    }
}
