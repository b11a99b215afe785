//! PDUs at their greatest lengths, each written and read back, and what is one octet longer. Requests of 254 and 255
//! octets are in `.ci/cases/requests.txt`, and beside the slow reader.

ghost use Rattle.std.specs.Prelude.{◌≡◌, true};
ghost use Rattle.cfdp_pdus.specs.Canonical.{IsHeader};

use super::{Row, all_hold};
use cfdp_pdus::*;
use cfdp_status::{Action, Status};
use cfdp_tlv::{FilestoreRequest, FilestoreResponse};
use std::alloc::{AllocError, Global};

// The longest header, 28 octets, of a large file.
fn header() -> Header
    ensures valid { IsHeader result }
    ensures eight_octets { result.id_len ≡ 8 }
    ensures large { result.large ≡ true }
{
    Header {
        toward_sender: false,
        acknowledged: false,
        large: true,
        id_len: 8,
        number_len: 8,
        source: u64::MAX,
        number: u64::MAX,
        destination: u64::MAX,
    }
}

// The octets of a PDU, and what is written in them.
type Written = (Vec<u8>, Pdu);

// A request with a value of 254 octets.
fn request(alloc: Global) -> Result<FilestoreRequest, AllocError> {
    let second = Some([b'r'; 126].as_slice());
    FilestoreRequest::new(alloc, Action::RenameFile, &[b'p'; 125], second)
}

// 64 requests with values of 254 octets, or none.
fn requests(alloc: Global, are_many: bool) -> Result<Vec<FilestoreRequest>, AllocError> {
    let mut requests = Vec::new(alloc);
    for _ in 0..if are_many { 64 } else { 0 } {
        requests.push(request(alloc)?)?;
    }
    Ok(requests)
}

// A Metadata PDU with names of this many octets, and 64 requests or none.
fn metadata(alloc: Global, name_len: usize, has_requests: bool) -> Result<Written, WriteFault> {
    let name = vec![in alloc; b'p'; name_len]?;
    let metadata = Metadata {
        closure: true,
        checksum_type: checksum_type::NULL_CHECKSUM,
        size: u64::MAX,
        source_name: Vec::from_slice(alloc, &name)?,
        destination_name: name,
        requests: requests(alloc, has_requests)?,
    };
    let mut out = Vec::new(alloc);
    write_metadata(&header(), &metadata, &mut out)?;
    Ok((out, Pdu::Metadata(header(), metadata)))
}

// A File Data PDU of this many octets.
fn file_data(alloc: Global, len: usize) -> Result<Written, WriteFault> {
    let file_data = FileData {
        offset: u64::MAX,
        octets: vec![in alloc; b'o'; len]?,
    };
    let mut out = Vec::new(alloc);
    write_file_data(&header(), &file_data, &mut out)?;
    Ok((out, Pdu::FileData(header(), file_data)))
}

const LONGEST_EOF: Eof = Eof {
    condition: condition::CANCEL_REQUEST_RECEIVED,
    checksum: u32::MAX,
    size: u64::MAX,
};

fn eof(alloc: Global) -> Result<Written, WriteFault> {
    let mut out = Vec::new(alloc);
    write_eof(&header(), &LONGEST_EOF, &mut out)?;
    Ok((out, Pdu::Eof(header(), LONGEST_EOF)))
}

// 64 responses with messages of 200 octets.
fn responses(alloc: Global) -> Result<Vec<FilestoreResponse>, AllocError> {
    let status = Status::NotPerformed(Action::RenameFile);
    let mut responses = Vec::new(alloc);
    for _ in 0..64 {
        let response = FilestoreResponse::new(alloc, status, b"a", Some(b"b"), &[b'm'; 200])?;
        responses.push(response)?;
    }
    Ok(responses)
}

// A Finished PDU with 64 responses.
fn finished(alloc: Global) -> Result<Written, WriteFault> {
    let finished = Finished {
        condition: condition::CANCEL_REQUEST_RECEIVED,
        incomplete: true,
        file_status: file_status::UNREPORTED,
        responses: responses(alloc)?,
        fault: Some(2),
    };
    let mut out = Vec::new(alloc);
    write_finished(&header(), &finished, &mut out)?;
    Ok((out, Pdu::Finished(header(), finished)))
}

// A PDU that is written: of Metadata how long its names are, and whether it has 64 requests; of File Data how many
// octets.
enum Longest {
    Metadata(usize, bool),
    FileData(usize),
    Eof,
    Finished,
}

fn written(alloc: Global, longest: &Longest) -> Result<Written, WriteFault> {
    match longest {
        Longest::Metadata(name_len, has_requests) => metadata(alloc, *name_len, *has_requests),
        Longest::FileData(len) => file_data(alloc, *len),
        Longest::Eof => eof(alloc),
        Longest::Finished => finished(alloc),
    }
}

// Whether the octets are read as this PDU.
fn are_read_as(alloc: Global, octets: &[u8], pdu: &Pdu) -> Result<bool, AllocError> {
    match read_pdu(alloc, octets) {
        Ok(read) => Ok(read == *pdu),
        Err(PduFault::Memory) => Err(AllocError),
        Err(_) => Ok(false),
    }
}

// A PDU, and in how many octets it is written and read back, or the fault.
type Length = (Longest, Result<usize, WriteFault>);

static LENGTHS: [(&str, Length); 7] = [
    (
        "Metadata with names of 255 octets",
        (Longest::Metadata(255, false), Ok(550)),
    ),
    (
        "Metadata with names of 256 octets",
        (Longest::Metadata(256, false), Err(WriteFault::TooLong)),
    ),
    (
        "Metadata with names of 255 octets and 64 requests",
        (Longest::Metadata(255, true), Ok(16_934)),
    ),
    (
        "File Data of 65,527 octets",
        (Longest::FileData(65_527), Ok(65_563)),
    ),
    (
        "File Data of 65,528 octets",
        (Longest::FileData(65_528), Err(WriteFault::TooLong)),
    ),
    ("EOF", (Longest::Eof, Ok(52))),
    (
        "Finished with 64 responses",
        (Longest::Finished, Ok(13_352)),
    ),
];

impl Row for Length {
    fn holds(&self, alloc: Global) -> Result<bool, AllocError> {
        match written(alloc, &self.0) {
            Ok((out, pdu)) => Ok(self.1 == Ok(out.len()) && are_read_as(alloc, &out, &pdu)?),
            Err(WriteFault::Memory) => Err(AllocError),
            Err(fault) => Ok(self.1 == Err(fault)),
        }
    }
}

#[test]
fn lengths(rt: HostRuntime) {
    all_hold(&rt, rt.alloc(), &LENGTHS);
}
