//! What is true of the CRC. These functions do nothing: their contracts are the laws.

ghost use Rattle.cfdp_crc.specs.Laws.{DamageIsNoticed, NothingIsLeft};
ghost use Rattle.cfdp_crc.specs.Seal.{UnsealsSealed};

/// Octets with their CRC after them have CRC 0.
pub fn nothing_is_left()
    ensures { NothingIsLeft }
{}

/// Two lists of octets that differ in two neighbouring octets at most have the same CRC only where they are equal.
pub fn damage_is_noticed()
    ensures { DamageIsNoticed }
{}

/// A PDU to which a CRC was added has a right CRC, and without it is as before.
pub fn unseals_sealed()
    ensures { UnsealsSealed }
{}
