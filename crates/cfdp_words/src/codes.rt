//! Codes in the standard's words.

ghost use Rattle.std.specs.Prelude.{◌≡◌};
ghost use Rattle.cfdp_words.specs.Codes.{action_words, checksum_words, condition_words, directive_words, file_status_words, not_allowed_words, status_words, transaction_words};

use cfdp_directives::TransactionStatus;
use cfdp_pdus::{checksum_type, condition, directive, file_status};
use cfdp_status::{Action, Status};

/// A condition code (CCSDS 727.0-B-5 §5.2.2).
pub fn condition_words(code: u8) -> &'static [u8]
    ensures { result.now ≡ condition_words code }
{
    match code {
        condition::NO_ERROR => b"No error",
        condition::POSITIVE_ACK_LIMIT_REACHED => b"Positive ACK limit reached",
        condition::KEEP_ALIVE_LIMIT_REACHED => b"Keep alive limit reached",
        condition::INVALID_TRANSMISSION_MODE => b"Invalid transmission mode",
        condition::FILESTORE_REJECTION => b"Filestore rejection",
        condition::FILE_CHECKSUM_FAILURE => b"File checksum failure",
        condition::FILE_SIZE_ERROR => b"File size error",
        condition::NAK_LIMIT_REACHED => b"NAK limit reached",
        condition::INACTIVITY_DETECTED => b"Inactivity detected",
        condition::INVALID_FILE_STRUCTURE => b"Invalid file structure",
        condition::CHECK_LIMIT_REACHED => b"Check limit reached",
        condition::UNSUPPORTED_CHECKSUM_TYPE => b"Unsupported checksum type",
        condition::SUSPEND_REQUEST_RECEIVED => b"Suspend.request received",
        condition::CANCEL_REQUEST_RECEIVED => b"Cancel.request received",
        _ => b"reserved",
    }
}

/// A checksum type, by the registry of checksum types.
pub(crate) fn checksum_words(code: u8) -> &'static [u8]
    ensures { result.now ≡ checksum_words code }
{
    match code {
        checksum_type::MODULAR_CHECKSUM => b"modular",
        checksum_type::PROXIMITY_1_CRC_32 => b"Proximity-1 CRC-32",
        checksum_type::CRC_32C => b"CRC-32C",
        checksum_type::IEEE_802_3_CRC_32 => b"CRC-32 of IEEE 802.3",
        checksum_type::NULL_CHECKSUM => b"null",
        _ => b"reserved",
    }
}

/// A file status (CCSDS 727.0-B-5 §5.2.3).
pub(crate) fn file_status_words(code: u8) -> &'static [u8]
    ensures { result.now ≡ file_status_words code }
{
    match code {
        file_status::DISCARDED => b"Discarded deliberately",
        file_status::REJECTED => b"Discarded due to filestore rejection",
        file_status::RETAINED => b"Retained in filestore successfully",
        _ => b"File status unreported",
    }
}

/// A directive code (CCSDS 727.0-B-5 §5.2).
pub(crate) fn directive_words(code: u8) -> &'static [u8]
    ensures { result.now ≡ directive_words code }
{
    match code {
        directive::EOF => b"EOF",
        directive::FINISHED => b"Finished",
        directive::ACK => b"ACK",
        directive::METADATA => b"Metadata",
        directive::NAK => b"NAK",
        directive::PROMPT => b"Prompt",
        directive::KEEP_ALIVE => b"Keep Alive",
        _ => b"reserved",
    }
}

/// The action of a filestore request (CCSDS 727.0-B-5 §5.4.1).
pub(crate) fn action_words(action: Action) -> &'static [u8]
    ensures { result.now ≡ action_words action }
{
    match action {
        Action::CreateFile => b"Create File",
        Action::DeleteFile => b"Delete File",
        Action::RenameFile => b"Rename File",
        Action::AppendFile => b"Append File",
        Action::ReplaceFile => b"Replace File",
        Action::CreateDirectory => b"Create Directory",
        Action::RemoveDirectory => b"Remove Directory",
        Action::DenyFile => b"Deny File",
        Action::DenyDirectory => b"Deny Directory",
    }
}

/// That an action is not allowed.
pub(crate) fn not_allowed_words(action: Action) -> &'static [u8]
    ensures { result.now ≡ not_allowed_words action }
{
    match action {
        Action::CreateFile => b"Create not allowed",
        Action::DeleteFile => b"Delete not allowed",
        Action::RenameFile => b"Rename not allowed",
        Action::AppendFile => b"Append not allowed",
        Action::ReplaceFile => b"Replace not allowed",
        Action::CreateDirectory => b"Directory cannot be created",
        Action::RemoveDirectory => b"Delete not allowed",
        Action::DenyFile => b"Delete not allowed",
        Action::DenyDirectory => b"Delete not allowed",
    }
}

/// The status of a filestore response (CCSDS 727.0-B-5 §5.4.2).
pub(crate) fn status_words(status: Status) -> &'static [u8]
    ensures { result.now ≡ status_words status }
{
    match status {
        Status::Successful(_) => b"Successful",
        Status::NotAllowed(action) => not_allowed_words(action),
        Status::NotPerformed(_) => b"Not performed",
        Status::DeleteAbsent => b"File does not exist",
        Status::RenameOldAbsent => b"Old File Name does not exist",
        Status::RenameNewPresent => b"New File Name already exists",
        Status::AppendFirstAbsent => b"File Name 1 does not exist",
        Status::AppendSecondAbsent => b"File Name 2 does not exist",
        Status::ReplaceFirstAbsent => b"File Name 1 does not exist",
        Status::ReplaceSecondAbsent => b"File Name 2 does not exist",
        Status::RemoveAbsent => b"Directory does not exist",
    }
}

/// A transaction status (CCSDS 727.0-B-5 §5.2.4).
pub(crate) fn transaction_words(status: TransactionStatus) -> &'static [u8]
    ensures { result.now ≡ transaction_words status }
{
    match status {
        TransactionStatus::Undefined => b"Undefined",
        TransactionStatus::Active => b"Active",
        TransactionStatus::Terminated => b"Terminated",
        TransactionStatus::Unrecognized => b"Unrecognized",
    }
}
