//! The checksum types of a Metadata PDU (CCSDS 727.0-B-5 §5.2.5), by the registry of checksum types.

/// The modular checksum.
pub const MODULAR_CHECKSUM: u8 = 0;

/// The CRC-32 of Proximity-1.
pub const PROXIMITY_1_CRC_32: u8 = 1;

/// CRC-32C.
pub const CRC_32C: u8 = 2;

/// The CRC-32 of IEEE 802.3.
pub const IEEE_802_3_CRC_32: u8 = 3;

/// The null checksum, which is not looked at.
pub const NULL_CHECKSUM: u8 = 15;
