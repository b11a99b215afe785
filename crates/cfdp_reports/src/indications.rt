//! The line of an indication.

ghost use Rattle.std.specs.Prelude.{◌≡◌, ◌++◌, OnOk};
ghost use Rattle.cfdp_reports.specs.Reports.{delivery_text, ended_text, indication_label, indication_line, indication_text};

use crate::outcomes::push_name;
use cfdp_receiver::{Conclusion, Indication};
use cfdp_status::TransactionId;
use cfdp_texts::push_labelled;
use std::alloc::AllocError;

/// Appends a label and a transaction's name.
#[tactic(auto, unfolding(crate::specs::Reports::indication_label))]
fn push_indication_label(
    label: &[u8],
    id: TransactionId,
    text: &mut Vec<u8>,
) -> Result<(), AllocError>
    ensures { OnOk result (text.new.items ≡ text.old.items ++ indication_label label.now id) }
{
    text.extend_from_slice(b"tell ")?;
    text.extend_from_slice(label)?;
    push_name(id, text)
}

/// Whether the file is complete.
fn delivery_text(incomplete: bool) -> &'static [u8]
    ensures { result.now ≡ delivery_text incomplete }
{
    if incomplete {
        b" incomplete"
    } else {
        b" complete"
    }
}

/// Appends how a transaction ended.
#[tactic(auto, unfolding(crate::specs::Reports::ended_text))]
fn push_end(end: Conclusion, text: &mut Vec<u8>) -> Result<(), AllocError>
    ensures { OnOk result (text.new.items ≡ text.old.items ++ ended_text end) }
{
    push_labelled(b" ", u64::from(end.condition), text)?;
    text.extend_from_slice(delivery_text(end.incomplete))?;
    push_labelled(b" ", u64::from(end.file_status), text)
}

/// Appends an indication.
fn push_text(indication: Indication, text: &mut Vec<u8>) -> Result<(), AllocError>
    ensures { OnOk result (text.new.items ≡ text.old.items ++ indication_text indication) }
{
    match indication {
        Indication::MetadataRecv(id, _) => push_indication_label(b"metadata ", id, text),
        Indication::FileSegmentRecv(id, offset, len) => {
            push_indication_label(b"segment ", id, text)?;
            push_labelled(b" ", offset, text)?;
            push_labelled(b" ", len, text)
        }
        Indication::EofRecv(id) => push_indication_label(b"eof ", id, text),
        Indication::TransactionFinished(id, end) => {
            push_indication_label(b"finished ", id, text)?;
            push_end(end, text)
        }
        Indication::Fault(id, condition) => {
            push_indication_label(b"fault ", id, text)?;
            push_labelled(b" ", u64::from(condition), text)
        }
        Indication::Abandoned(id, condition) => {
            push_indication_label(b"abandoned ", id, text)?;
            push_labelled(b" ", u64::from(condition), text)
        }
    }
}

/// Appends the line of an indication.
pub(crate) fn push_indication(indication: Indication, text: &mut Vec<u8>) -> Result<(), AllocError>
    ensures { OnOk result (text.new.items ≡ text.old.items ++ indication_line indication) }
{
    push_text(indication, text)?;
    Ok(text.push(b'\n')?)
}
