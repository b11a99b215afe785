//! Tests of what transactions use. Of the filestores: worked examples of the action table, out of memory, and the
//! stores side by side (CCSDS 727.0-B-5, filestore procedures). Of octets and numbers: status octets, checksums,
//! quotas, paths, TLVs, and Metadata, File Data, EOF and Finished PDUs (§5). The other directives and CRCs are in
//! `tests_octets`. This crate has tests alone.
#![tactic(auto)]

#[cfg(test)]
mod tests;
