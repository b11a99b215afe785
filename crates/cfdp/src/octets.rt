//! PDUs one after the other, as octets.

use crate::end::End;
use crate::found::{FoundPdu, Location};
use std::alloc::Global;

/// How many octets the PDU at the front of octets has, by its header (CCSDS 727.0-B-5 §5.1); `None` where the header is
/// cut.
fn pdu_len(octets: &[u8]) -> Option<usize> {
    let [_, high, low, lengths, ..] = octets else {
        return None;
    };
    let id_len = usize::from((lengths >> 4) % 8) + 1;
    let number_len = usize::from(lengths % 8) + 1;
    let field_len = 256 * usize::from(*high) + usize::from(*low);
    Some(4 + 2 * id_len + number_len + field_len)
}

/// The PDUs. What is left at the end, where a PDU is cut, is one too.
pub fn read(alloc: Global, octets: &[u8]) -> Result<Vec<FoundPdu>, End> {
    let mut all = Vec::new(alloc);
    let mut offset = 0_usize;
    for _ in 0..octets.len() {
        let rest = octets.get(offset..).unwrap_or(&[]);
        if rest.is_empty() {
            break;
        }
        let len = pdu_len(rest).unwrap_or(rest.len()).min(rest.len());
        let pdu = rest.get(..len).unwrap_or(&[]);
        all.push(FoundPdu {
            location: Location::Offset(offset as u64),
            octets: Vec::from_slice(alloc, pdu)?,
        })?;
        offset = offset.saturating_add(len);
    }
    Ok(all)
}
