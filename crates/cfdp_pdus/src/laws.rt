//! What holds of the grammar itself. These functions do nothing: their contracts are the laws.

ghost use Rattle.std.specs.Prelude.{◌≡◌, ◌<◌, ◌^◌, List, ℕ, true, false};
ghost use Rattle.std.specs.List.{AllByRecursion};
ghost use Rattle.cfdp_tlv.specs.Values.{IsResponse};
ghost use Rattle.cfdp_pdus.specs.Values.{MetadataFields, FileDataFields, FinishedFields};
ghost use Rattle.cfdp_pdus.specs.Grammar.{SpellsPdu};
ghost use Rattle.cfdp_pdus.specs.Canonical.{IsHeader, IsSizedMetadata, IsSizedFileData, IsSizedEof, IsSizedFinished, IsAnswerable, metadata_fits, file_data_fits, finished_fits, metadata_field, file_data_field, eof_field, finished_field, pdu_octets};
ghost use Rattle.cfdp_pdus.specs.declared.header.Header.{Header};
ghost use Rattle.cfdp_pdus.specs.declared.eof.Eof.{Eof};
ghost use Rattle.cfdp_pdus.specs.declared.pdu.Pdu.{Pdu};
ghost use Rattle.cfdp_pdus.specs.declared.pdu.Pdu.TheVariants as pdus;

/// Octets spell at most one PDU.
pub fn pdus_have_one_reading()
    ensures { (octets : List ℕ) (a b : Pdu) → SpellsPdu octets a → SpellsPdu octets b → a ≡ b }
{}

/// What is written of a Metadata PDU spells it, where no request's value has 255 octets.
pub fn metadata_reads_back()
    ensures { (header : Header) (metadata : MetadataFields) → IsHeader header → IsSizedMetadata header.large metadata
        → metadata_fits header.large metadata ≡ true → AllByRecursion IsAnswerable metadata.requests
        → SpellsPdu (pdu_octets false header (metadata_field header.large metadata)) (pdus.Metadata header metadata) }
{}

/// What is written of a File Data PDU spells it.
pub fn file_data_reads_back()
    ensures { (header : Header) (file_data : FileDataFields) → IsHeader header → IsSizedFileData header.large file_data
        → file_data_fits header.large file_data ≡ true
        → SpellsPdu (pdu_octets true header (file_data_field header.large file_data)) (pdus.FileData header file_data) }
{}

/// What is written of an EOF PDU spells it.
pub fn eof_reads_back()
    ensures { (header : Header) (eof : Eof) → IsHeader header → IsSizedEof header.large eof → eof.checksum < 256 ^ 4
        → SpellsPdu (pdu_octets false header (eof_field header eof)) (pdus.Eof header eof) }
{}

/// What is written of a Finished PDU spells it.
pub fn finished_reads_back()
    ensures { (header : Header) (finished : FinishedFields) → IsHeader header → IsSizedFinished header finished
        → finished_fits header finished ≡ true → AllByRecursion IsResponse finished.responses
        → SpellsPdu (pdu_octets false header (finished_field header finished)) (pdus.Finished header finished) }
{}
