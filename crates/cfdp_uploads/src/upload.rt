//! Uploads, and their PDUs.

ghost use Rattle.std.specs.Prelude.{◌≡◌, ◌⊎◌, ◌≤◌, ◌<◌, ◌++◌, Ok, Err, length, IfOk, IfErr, IfSome, OnOk, OnErr};
ghost use Rattle.std.specs.List.{slice_get};
ghost use Rattle.std.specs.Vec.{vec_capacity};
ghost use Rattle.cfdp_pdus.specs.Grammar.{SpellsPdu};
ghost use Rattle.cfdp_uploads.specs.Uploads.{IsUpload, upload_of, piece_count, piece_of, eof_of, pieces_of, upload_pdus, sent_octets};
ghost use Rattle.cfdp_uploads.specs.Judging.{judged_upload};
ghost use Rattle.cfdp_uploads.specs.declared.fault.UploadFault.TheVariants.{Memory};
ghost use Rattle.cfdp_pdus.specs.declared.fault.WriteFault.TheVariants.{Memory as OutOfMemory};

use crate::UploadFault;
use crate::judging::{
    judge_field, judge_file, judge_header, judge_names, judge_order, judge_requests, judge_segment,
};
use crate::piece::write_piece;
use cfdp_checksum::modular_checksum;
use cfdp_pdus::checksum_type::MODULAR_CHECKSUM;
use cfdp_pdus::condition::NO_ERROR;
use cfdp_pdus::{Eof, Header, Metadata, Piece, WriteFault, write_eof, write_metadata};
use std::alloc::Global;
use std::marker::Model;

/// How many pieces of `segment` octets a file of `size` octets has. The last one may be shorter.
pub fn piece_count(size: usize, segment: usize) -> usize
    requires { 0 < segment }
    ensures { result ≡ piece_count size segment }
{
    size / segment + usize::from(size % segment != 0)
}

/// What a file's sender sends in one transaction (CCSDS 727.0-B-5, copy file procedures). A contract sees its parts.
#[derive(Debug, Drop)]
pub struct Upload<'a> {
    header: Header,
    metadata: Metadata,
    file: &'a [u8],
    segment: usize,
    order: Vec<usize>,
}

impl<'a> Model for Upload<'a> {
    ghost use Rattle.cfdp_uploads.specs.Uploads.{UploadFields, IsUpload};

    ghost Value = { UploadFields };

    ghost view = { λ u. record {
      header = u.header;
      metadata = u.metadata;
      file = u.file.now;
      segment = u.segment;
      order = u.order.items;
    } };

    ghost invariant = { λ u. IsUpload (record {
      header = u.header;
      metadata = u.metadata;
      file = u.file.now;
      segment = u.segment;
      order = u.order.items;
    }) };
}

impl<'a> Upload<'a> {
    /// The upload of a file with this Metadata, in pieces of `segment` octets that are sent in the order of these
    /// indices, which count from 0. The direction of the header, and the size and the checksum type of the Metadata,
    /// are set here: each PDU goes toward the receiver, and the checksum is the modular one.
    ///
    /// The first [`UploadFault`] is returned, in their order. `Memory` may be returned instead of any answer. Cost: one
    /// pass over the requests and the order; an octet of memory for each piece, which is given back.
    pub fn new(
        alloc: Global,
        header: Header,
        metadata: Metadata,
        file: &'a [u8],
        segment: usize,
        order: Vec<usize>,
    ) -> Result<Upload<'a>, UploadFault>
        ensures ok { IfOk result (λ upload.
            judged_upload (upload_of header metadata file.entry.now segment order.items) ≡ Ok upload) }
        ensures err { IfErr result (λ fault. (fault ≡ Memory)
            ⊎ (judged_upload (upload_of header metadata file.entry.now segment order.items) ≡ Err fault)) }
        ensures sound { IfOk result IsUpload }
    {
        let mut header = header;
        header.toward_sender = false;
        let mut metadata = metadata;
        metadata.checksum_type = MODULAR_CHECKSUM;
        metadata.size = file.len() as u64;
        judge_header(&header)?;
        judge_names(&metadata)?;
        judge_requests(&metadata.requests)?;
        judge_file(header.large, file.len())?;
        judge_field(alloc, &header, &metadata)?;
        judge_segment(header.large, segment)?;
        judge_order(alloc, piece_count(file.len(), segment), &order)?;
        Ok(Upload {
            header,
            metadata,
            file,
            segment,
            order,
        })
    }

    /// The header of its PDUs.
    pub fn header(&self) -> &Header
        ensures { result.now ≡ self.now.header }
    {
        &self.header
    }

    /// Its Metadata.
    pub fn metadata(&self) -> &Metadata
        ensures { result.now ≡ self.now.metadata }
    {
        &self.metadata
    }

    /// How many pieces are sent. A piece that is sent twice counts twice.
    pub fn sent_count(&self) -> usize
        ensures { result ≡ length self.now.order }
    {
        self.order.len()
    }

    /// How many PDUs it has.
    pub fn pdu_count(&self) -> usize
        ensures { result ≡ length (upload_pdus self.now) }
    {
        self.order.len() + 2
    }

    /// The piece with an index.
    fn piece(&self, index: usize) -> Piece<'_>
        requires { index < pieces_of self.now }
        ensures { result ≡ piece_of self.now index }
    {
        let offset = self.segment * index;
        let end = self.file.len().min(offset.saturating_add(self.segment));
        Piece {
            offset: offset as u64,
            octets: &self.file[offset..end],
        }
    }

    /// The EOF.
    fn eof(&self) -> Eof
        ensures { result ≡ eof_of self.now }
    {
        Eof {
            condition: NO_ERROR,
            checksum: modular_checksum(self.file),
            size: self.file.len() as u64,
        }
    }

    /// Appends its PDU with a number, counted from 0: the Metadata PDU, the File Data PDUs, the EOF PDU. The only fault
    /// is `Memory`.
    ///
    /// Cost: the octets that it appends, and one growth of the vector at most; for the EOF PDU one pass over the file.
    pub fn write(&self, number: usize, out: &mut Vec<u8>) -> Result<(), WriteFault>
        requires { number < length (upload_pdus self.now) }
        ensures ok { OnOk result (IfSome (slice_get (upload_pdus self.now) number)
            (λ pdu. out.new.items ≡ out.old.items ++ sent_octets pdu)) }
        // What is written is read as the same PDU.
        ensures spelled { IfSome (slice_get (upload_pdus self.now) number) (λ pdu. SpellsPdu (sent_octets pdu) pdu) }
        ensures faults { IfErr result (λ fault. fault ≡ OutOfMemory) }
        ensures err { OnErr result (out.new.items ≡ out.old.items) }
        ensures capacity { vec_capacity out.old ≤ vec_capacity out.new }
    {
        if number == 0 {
            return write_metadata(&self.header, &self.metadata, out);
        }
        match self.order.get(number - 1) {
            Some(index) => write_piece(&self.header, &self.piece(*index), out),
            None => write_eof(&self.header, &self.eof(), out),
        }
    }
}
