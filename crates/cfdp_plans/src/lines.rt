//! The lines of a script for `replay`.

ghost use Rattle.std.specs.Prelude.{◌≡◌, ◌⊎◌, ◌<◌, ◌++◌, length, true, OnOk, IfErr, IfSome};
ghost use Rattle.cfdp_plans.specs.declared.fault.ScriptFault.TheVariants.{Memory, Write};
ghost use Rattle.std.specs.List.{flat_map, slice_get};
ghost use Rattle.std.specs.Io.KnownBytes.{Appends};
ghost use Rattle.cfdp_uploads.specs.Uploads.{upload_pdus};
ghost use Rattle.cfdp_plans.specs.Lines.{config_line, list_line, pdu_line, protect_line, sizes_text, title_line, upload_lines, work_lines};

use crate::ScriptFault;
use cfdp_pdus::Header;
use cfdp_streams::{ScriptOut, write_all};
use cfdp_texts::{encode, push_labelled};
use cfdp_uploads::Upload;
use std::alloc::{AllocError, Global};

/// Appends the line of a configuration: the entity ID, the blocks of the filestore, the cap on files of unbounded size
/// in octets, the check limit, and the entries of the journal. The only fault is out of memory. Cost: the octets that
/// it appends.
pub fn push_config(
    entity: u64,
    blocks: u64,
    cap: u64,
    checks: u64,
    journal: u64,
    text: &mut Vec<u8>,
) -> Result<(), AllocError>
    ensures { OnOk result (text.new.items ≡ text.old.items ++ config_line entity blocks cap checks journal) }
{
    push_labelled(b"config ", entity, text)?;
    push_labelled(b" ", blocks, text)?;
    push_labelled(b" ", cap, text)?;
    push_labelled(b" ", checks, text)?;
    push_labelled(b" ", journal, text)?;
    Ok(text.push(b'\n')?)
}

/// Appends the line of a protected path. The only fault is out of memory. Cost: the octets that it appends.
#[tactic(auto, unfolding(crate::specs::Lines::protect_line))]
pub fn push_protect(path: &[u8], text: &mut Vec<u8>) -> Result<(), AllocError>
    ensures { OnOk result (text.new.items ≡ text.old.items ++ protect_line path.now) }
{
    text.extend_from_slice(b"protect ")?;
    encode(path, text)?;
    Ok(text.push(b'\n')?)
}

/// Appends the line that lists the filestore. The only fault is out of memory. Cost: the octets that it appends.
pub fn push_list(text: &mut Vec<u8>) -> Result<(), AllocError>
    ensures { OnOk result (text.new.items ≡ text.old.items ++ list_line) }
{
    text.extend_from_slice(b"list\n")
}

/// Appends the sizes of an upload.
#[tactic(auto, unfolding(crate::specs::Lines::sizes_text))]
fn push_sizes(upload: &Upload<'_>, text: &mut Vec<u8>) -> Result<(), AllocError>
    ensures { OnOk result (text.new.items ≡ text.old.items ++ sizes_text upload.now) }
{
    let metadata = upload.metadata();
    push_labelled(b": ", metadata.size, text)?;
    push_labelled(b" octets in ", upload.sent_count() as u64, text)?;
    push_labelled(b" File Data PDUs, ", metadata.requests.len() as u64, text)?;
    text.extend_from_slice(b" requests\n")
}

/// Appends what an upload is, as a comment.
#[tactic(auto, unfolding(crate::specs::Lines::title_line))]
fn push_title(upload: &Upload<'_>, text: &mut Vec<u8>) -> Result<(), AllocError>
    ensures { OnOk result (text.new.items ≡ text.old.items ++ title_line upload.now) }
{
    let header = upload.header();
    push_labelled(b"# ", header.source, text)?;
    push_labelled(b"/", header.number, text)?;
    push_sizes(upload, text)
}

/// Appends the line of the PDU with a number. The octets of the PDU are written to `octets`, whatever is there.
#[tactic(auto, unfolding(crate::specs::Lines::pdu_line))]
fn push_pdu(
    upload: &Upload<'_>,
    number: usize,
    octets: &mut Vec<u8>,
    text: &mut Vec<u8>,
) -> Result<(), ScriptFault>
    requires { number < length (upload_pdus upload.now) }
    ensures ok { OnOk result (IfSome (slice_get (upload_pdus upload.now) number)
        (λ pdu. text.new.items ≡ text.old.items ++ pdu_line pdu)) }
    ensures faults { IfErr result (λ fault. fault ≡ Memory) }
{
    octets.clear();
    upload.write(number, octets)?;
    text.extend_from_slice(b"pdu ")?;
    encode(octets, text)?;
    Ok(text.extend_from_slice(b"\n")?)
}

/// Appends the lines by which what a transaction asks for is performed, and its outcome is taken.
fn push_work(header: &Header, text: &mut Vec<u8>) -> Result<(), AllocError>
    ensures { OnOk result (text.new.items ≡ text.old.items ++ work_lines header.now) }
{
    text.extend_from_slice(b"run\n")?;
    push_labelled(b"take ", header.source, text)?;
    push_labelled(b" ", header.number, text)?;
    text.extend_from_slice(b"\n")
}

/// Writes the lines of the PDUs, each by itself.
fn write_pdus<W: ScriptOut>(
    alloc: Global,
    upload: &Upload<'_>,
    writer: &mut W,
) -> Result<(), ScriptFault>
    ensures ok { OnOk result (Appends (W.contents writer.old) (W.contents writer.new)
        (flat_map pdu_line (upload_pdus upload.now))) }
    ensures well { OnOk result (W.failed writer.new ≡ W.failed writer.old) }
    ensures fails { IfErr result (λ fault. (fault ≡ Memory) ⊎ ((fault ≡ Write) × (W.failed writer.new ≡ true))) }
{
    let mut octets = Vec::new(alloc);
    let mut text = Vec::new(alloc);
    for number in 0..upload.pdu_count() {
        text.clear();
        push_pdu(upload, number, &mut octets, &mut text)?;
        write_all(writer, &text)?;
    }
    Ok(())
}

/// Writes the lines of an upload: a comment, its PDUs in the order in which they are sent, and those by which what it
/// asks for is performed and its outcome is taken. Each PDU is written by itself, so that no more than the line of one
/// PDU is in memory.
///
/// The faults are `Write`, and `Memory`. Cost: two passes over the file.
pub fn write_upload<W: ScriptOut>(
    alloc: Global,
    upload: &Upload<'_>,
    writer: &mut W,
) -> Result<(), ScriptFault>
    ensures ok { OnOk result (Appends (W.contents writer.old) (W.contents writer.new) (upload_lines upload.now)) }
    ensures well { OnOk result (W.failed writer.new ≡ W.failed writer.old) }
    ensures fails { IfErr result (λ fault. (fault ≡ Memory) ⊎ ((fault ≡ Write) × (W.failed writer.new ≡ true))) }
{
    let mut text = Vec::new(alloc);
    push_title(upload, &mut text)?;
    write_all(writer, &text)?;
    write_pdus(alloc, upload, writer)?;
    text.clear();
    push_work(upload.header(), &mut text)?;
    write_all(writer, &text)?;
    Ok(())
}
