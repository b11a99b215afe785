//! What holds of the grammar itself. These functions do nothing: their contracts are the laws.

ghost use Rattle.std.specs.Prelude.{◌≡◌, List, ℕ};
ghost use Rattle.cfdp_tlv.specs.Values.{RequestFields, ResponseFields, IsRequest, IsResponse};
ghost use Rattle.cfdp_tlv.specs.Grammar.{SpellsRequest, SpellsResponse, request_octets, response_octets};

/// Octets spell at most one request, and what is written of a request spells it.
pub fn requests_have_one_reading()
    ensures one { (octets : List ℕ) (a b : RequestFields) → SpellsRequest octets a → SpellsRequest octets b → a ≡ b }
    ensures written { (request : RequestFields) → IsRequest request → SpellsRequest (request_octets request) request }
{}

/// Octets spell at most one response, and what is written of a response spells it.
pub fn responses_have_one_reading()
    ensures one { (octets : List ℕ) (a b : ResponseFields) → SpellsResponse octets a → SpellsResponse octets b → a ≡ b }
    ensures written { (response : ResponseFields) → IsResponse response →
        SpellsResponse (response_octets response) response }
{}
