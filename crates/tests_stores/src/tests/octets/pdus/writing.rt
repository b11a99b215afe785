//! What is read of the worked examples is written as they are. Finished PDUs of outcomes are in `.ci/cases`.

ghost use Rattle.std.specs.Prelude.{◌<◌, ◌^◌, IfSome};
ghost use Rattle.cfdp_pdus.specs.Canonical.{IsHeader};

use super::{WRITTEN, octets};
use cfdp_pdus::*;
use std::alloc::Global;

// The fault location, where it is one octet.
fn one_octet(fault: Option<u64>) -> Option<u64>
    ensures { IfSome result (λ entity. entity < 256 ^ 1) }
{
    match fault {
        Some(entity) if entity < 256 => Some(entity),
        _ => None,
    }
}

// Writes a Finished PDU whose entity IDs have one octet.
fn write_outcome(header: &Header, finished: Finished, out: &mut Vec<u8>) -> Result<(), WriteFault>
    requires { IsHeader header.now }
{
    if header.id_len != 1 || finished.condition > 15 || finished.file_status > 3 {
        return Err(WriteFault::TooLong);
    }
    let fault = one_octet(finished.fault);
    write_finished(header, &Finished { fault, ..finished }, out)
}

// What is read of the octets, written. They spell a PDU, so that only memory can be refused.
fn rewritten(alloc: Global, pdu: &[u8]) -> Result<Vec<u8>, WriteFault> {
    let Ok(pdu) = read_pdu(alloc, pdu) else {
        return Err(WriteFault::Memory);
    };
    let mut out = Vec::new(alloc);
    match pdu {
        Pdu::Metadata(header, metadata) => write_metadata(&header, &metadata, &mut out)?,
        Pdu::FileData(header, file_data) => write_file_data(&header, &file_data, &mut out)?,
        Pdu::Eof(header, eof) => write_eof(&header, &eof, &mut out)?,
        Pdu::Finished(header, finished) => write_outcome(&header, finished, &mut out)?,
        Pdu::NotOurs(_, _) => {}
    }
    Ok(out)
}

// Whether it is what was read.
fn is_rewritten(alloc: Global, example: &str) -> Result<bool, WriteFault> {
    let pdu = octets(alloc, example)?;
    Ok(rewritten(alloc, &pdu)? == pdu)
}

// Where an allocation is refused (`rt try --test --fail-alloc N`), it is read and written once more.
fn is_rewritten_at_last(alloc: Global, example: &str) -> Result<bool, WriteFault> {
    match is_rewritten(alloc, example) {
        Err(WriteFault::Memory) => is_rewritten(alloc, example),
        answer => answer,
    }
}

#[test]
fn as_they_are(rt: HostRuntime) {
    for example in &WRITTEN {
        assert!(rt;
            is_rewritten_at_last(rt.alloc(), example) == Ok(true),
            "{example}"
        );
    }
}
