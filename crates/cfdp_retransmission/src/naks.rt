//! A sequence of NAK PDUs, one after the other.

ghost use Rattle.std.specs.Prelude.{◌≡◌, ◌≤◌, take, drop};
ghost use Rattle.cfdp_retransmission.specs.Naks.{scope_of};

use cfdp_directives::NakRange;

/// The next NAK PDU of a sequence, and what is left for those after it.
#[derive(Clone, Copy, Debug, PartialEq, Eq)]
pub struct NakPart<'a> {
    /// The part of the file that its requests are about.
    pub scope: NakRange,
    /// Its segment requests.
    pub requests: &'a [NakRange],
    /// The segment requests of the PDUs after it. Where there are none, it is the last PDU.
    pub rest: &'a [NakRange],
}

/// The next NAK PDU (CCSDS 727.0-B-5 §5.2.6) of a sequence that asks for these segments from the offset `low` up to
/// `high`, with at most `most` requests in each PDU. The scope of the last PDU ends at `high`. Each other scope ends
/// where its last request ends, and the next scope begins there. Takes no memory. In constant time.
pub fn next_nak<'a>(requests: &'a [NakRange], low: u64, high: u64, most: usize) -> NakPart<'a>
    requires { 1 ≤ most }
    ensures scope { result.scope ≡ scope_of most low high requests.now }
    ensures requests { result.requests.now ≡ take most requests.now }
    ensures rest { result.rest.now ≡ drop most requests.now }
{
    if requests.len() <= most {
        return NakPart {
            scope: (low, high),
            requests,
            rest: &[],
        };
    }
    NakPart {
        scope: (low, requests[most - 1].1),
        requests: &requests[..most],
        rest: &requests[most..],
    }
}
