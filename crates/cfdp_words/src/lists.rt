//! Several things of one kind: lines, or a JSON array.

ghost use Rattle.std.specs.Prelude.{◌≡◌, ◌++◌, OnOk};
ghost use Rattle.std.specs.Option.{option_map};
ghost use Rattle.cfdp_status.specs.Codes.{code_of};
ghost use Rattle.cfdp_words.specs.Codes.{action_words};
ghost use Rattle.cfdp_words.specs.declared.names.Name.TheVariants as names;
ghost use Rattle.cfdp_words.specs.Shown.{separator, each, item_closing, item_opening, list_closing, list_opening, list_text, message_item, range_item, request_item, response_item, second_field};

use crate::Style;
use crate::codes::{action_words, status_words};
use crate::fields::{push_code_field, push_digits_field, push_field, push_label, push_name_field};
use crate::names::Name;
use crate::style::{push_decimal, push_digits};
use cfdp_directives::NakRange;
use cfdp_pdus::Messages;
use cfdp_status::Action;
use cfdp_tlv::{FilestoreRequest, FilestoreResponse};
use std::alloc::AllocError;

/// Appends what comes before the things.
fn open_list(style: Style, name: Name, text: &mut Vec<u8>) -> Result<(), AllocError>
    ensures { OnOk result (text.new.items ≡ text.old.items ++ list_opening style name) }
{
    match style {
        Style::Text => Ok(()),
        Style::Json => {
            push_label(style, name, text)?;
            text.extend_from_slice(b"[")
        }
    }
}

/// Appends what comes after the things.
fn close_list(style: Style, text: &mut Vec<u8>) -> Result<(), AllocError>
    ensures { OnOk result (text.new.items ≡ text.old.items ++ list_closing style) }
{
    match style {
        Style::Text => Ok(()),
        Style::Json => text.extend_from_slice(b"]"),
    }
}

/// Appends what comes between two things.
fn push_between(style: Style, text: &mut Vec<u8>) -> Result<(), AllocError>
    ensures { OnOk result (text.new.items ≡ text.old.items ++ separator style) }
{
    match style {
        Style::Text => Ok(()),
        Style::Json => text.extend_from_slice(b","),
    }
}

/// Appends the first field of a thing: its action.
#[tactic(auto, unfolding(crate::specs::Shown::item_opening))]
fn open_item(style: Style, name: Name, action: Action, text: &mut Vec<u8>) -> Result<(), AllocError>
    ensures { OnOk result (text.new.items ≡ text.old.items
        ++ item_opening style name (code_of action) (action_words action)) }
{
    let code = u64::from(action.code());
    let words = action_words(action);
    match style {
        Style::Text => push_code_field(style, name, code, words, text),
        Style::Json => {
            text.extend_from_slice(b"{\"code\":")?;
            push_decimal(code, text)?;
            push_field(style, Name::Means, words, text)
        }
    }
}

/// Appends what comes after the fields of a thing.
fn close_item(style: Style, text: &mut Vec<u8>) -> Result<(), AllocError>
    ensures { OnOk result (text.new.items ≡ text.old.items ++ item_closing style) }
{
    match style {
        Style::Text => Ok(()),
        Style::Json => text.extend_from_slice(b"}"),
    }
}

/// Appends the second file name, if there is one.
fn push_second(style: Style, second: Option<&[u8]>, text: &mut Vec<u8>) -> Result<(), AllocError>
    ensures { OnOk result (text.new.items ≡ text.old.items
        ++ second_field style (option_map (λ name. name.now) second.entry)) }
{
    match second {
        Some(name) => push_name_field(style, Name::SecondFileName, name, text),
        None => Ok(()),
    }
}

/// Appends a filestore request.
#[tactic(auto, unfolding(crate::specs::Shown::request_item))]
fn push_request(
    style: Style,
    request: &FilestoreRequest,
    text: &mut Vec<u8>,
) -> Result<(), AllocError>
    ensures { OnOk result (text.new.items ≡ text.old.items ++ request_item style request.now) }
{
    open_item(style, Name::FilestoreRequest, request.action(), text)?;
    push_name_field(style, Name::FirstFileName, request.first(), text)?;
    push_second(style, request.second(), text)?;
    close_item(style, text)
}

/// Appends a filestore response.
#[tactic(auto, unfolding(crate::specs::Shown::response_item))]
fn push_response(
    style: Style,
    response: &FilestoreResponse,
    text: &mut Vec<u8>,
) -> Result<(), AllocError>
    ensures { OnOk result (text.new.items ≡ text.old.items ++ response_item style response.now) }
{
    let status = response.status();
    let code = u64::from(status.octet() % 16);
    open_item(style, Name::FilestoreResponse, status.action(), text)?;
    push_code_field(style, Name::StatusCode, code, status_words(status), text)?;
    push_name_field(style, Name::FirstFileName, response.first(), text)?;
    push_second(style, response.second(), text)?;
    push_name_field(style, Name::FilestoreMessage, response.message(), text)?;
    close_item(style, text)
}

/// Appends a segment request.
fn push_range(style: Style, range: &NakRange, text: &mut Vec<u8>) -> Result<(), AllocError>
    ensures { OnOk result (text.new.items ≡ text.old.items ++ range_item style range.now) }
{
    let (start, end) = *range;
    match style {
        Style::Text => {
            push_label(style, Name::SegmentRequest, text)?;
            push_decimal(start, text)?;
            text.extend_from_slice(b" to ")?;
            push_decimal(end, text)?;
            text.extend_from_slice(b"\n")
        }
        Style::Json => {
            text.extend_from_slice(b"[")?;
            push_decimal(start, text)?;
            text.extend_from_slice(b",")?;
            push_decimal(end, text)?;
            text.extend_from_slice(b"]")
        }
    }
}

/// Appends a message to user.
fn push_message(style: Style, message: &[u8], text: &mut Vec<u8>) -> Result<(), AllocError>
    ensures { OnOk result (text.new.items ≡ text.old.items ++ message_item style message.now) }
{
    match style {
        Style::Text => push_digits_field(style, Name::MessageToUser, message, text),
        Style::Json => {
            text.extend_from_slice(b"\"")?;
            push_digits(message, text)?;
            text.extend_from_slice(b"\"")
        }
    }
}

/// Appends filestore requests, with what comes between them.
fn push_each_request(
    style: Style,
    requests: &[FilestoreRequest],
    text: &mut Vec<u8>,
) -> Result<(), AllocError>
    ensures { OnOk result (text.new.items ≡ text.old.items ++ each style (request_item style) requests.now) }
{
    let [first, rest @ ..] = requests else {
        return Ok(());
    };
    push_request(style, first, text)?;
    for request in rest {
        push_between(style, text)?;
        push_request(style, request, text)?;
    }
    Ok(())
}

/// Appends filestore responses, with what comes between them.
fn push_each_response(
    style: Style,
    responses: &[FilestoreResponse],
    text: &mut Vec<u8>,
) -> Result<(), AllocError>
    ensures { OnOk result (text.new.items ≡ text.old.items ++ each style (response_item style) responses.now) }
{
    let [first, rest @ ..] = responses else {
        return Ok(());
    };
    push_response(style, first, text)?;
    for response in rest {
        push_between(style, text)?;
        push_response(style, response, text)?;
    }
    Ok(())
}

/// Appends segment requests, with what comes between them.
fn push_each_range(style: Style, ranges: &[NakRange], text: &mut Vec<u8>) -> Result<(), AllocError>
    ensures { OnOk result (text.new.items ≡ text.old.items ++ each style (range_item style) ranges.now) }
{
    let [first, rest @ ..] = ranges else {
        return Ok(());
    };
    push_range(style, first, text)?;
    for range in rest {
        push_between(style, text)?;
        push_range(style, range, text)?;
    }
    Ok(())
}

/// Appends messages to user, with what comes between them.
fn push_each_message(
    style: Style,
    messages: Messages<'_>,
    text: &mut Vec<u8>,
) -> Result<(), AllocError>
    ensures { OnOk result (text.new.items ≡ text.old.items ++ each style (message_item style) messages.entry) }
{
    let mut rest = messages;
    let Some(first) = rest.next() else {
        return Ok(());
    };
    push_message(style, first, text)?;
    for message in rest {
        push_between(style, text)?;
        push_message(style, message, text)?;
    }
    Ok(())
}

/// Appends filestore requests.
#[tactic(auto, unfolding(crate::specs::Shown::list_text))]
pub(crate) fn push_requests(
    style: Style,
    requests: &[FilestoreRequest],
    text: &mut Vec<u8>,
) -> Result<(), AllocError>
    ensures { OnOk result (text.new.items ≡ text.old.items
        ++ list_text style names.FilestoreRequests (request_item style) requests.now) }
{
    open_list(style, Name::FilestoreRequests, text)?;
    push_each_request(style, requests, text)?;
    close_list(style, text)
}

/// Appends filestore responses.
#[tactic(auto, unfolding(crate::specs::Shown::list_text))]
pub(crate) fn push_responses(
    style: Style,
    responses: &[FilestoreResponse],
    text: &mut Vec<u8>,
) -> Result<(), AllocError>
    ensures { OnOk result (text.new.items ≡ text.old.items
        ++ list_text style names.FilestoreResponses (response_item style) responses.now) }
{
    open_list(style, Name::FilestoreResponses, text)?;
    push_each_response(style, responses, text)?;
    close_list(style, text)
}

/// Appends segment requests.
#[tactic(auto, unfolding(crate::specs::Shown::list_text))]
pub(crate) fn push_ranges(
    style: Style,
    ranges: &[NakRange],
    text: &mut Vec<u8>,
) -> Result<(), AllocError>
    ensures { OnOk result (text.new.items ≡ text.old.items
        ++ list_text style names.SegmentRequests (range_item style) ranges.now) }
{
    open_list(style, Name::SegmentRequests, text)?;
    push_each_range(style, ranges, text)?;
    close_list(style, text)
}

/// Appends messages to user.
#[tactic(auto, unfolding(crate::specs::Shown::list_text))]
pub(crate) fn push_messages(
    style: Style,
    messages: Messages<'_>,
    text: &mut Vec<u8>,
) -> Result<(), AllocError>
    ensures { OnOk result (text.new.items ≡ text.old.items
        ++ list_text style names.MessagesToUser (message_item style) messages.entry) }
{
    open_list(style, Name::MessagesToUser, text)?;
    push_each_message(style, messages, text)?;
    close_list(style, text)
}
