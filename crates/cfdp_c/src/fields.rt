//! What C gives and gets as structs.

/// A C `struct cfdp_config`: the numbers of a configuration.
#[derive(Clone, Copy, Debug, PartialEq, Eq)]
#[repr(C)]
pub struct ConfigFields {
    /// This entity's ID.
    pub entity: u64,
    /// How many octets a file of unbounded size may have, at most 7,864,320.
    pub cap: u64,
    /// The blocks of the filestore, 16 to 65,536.
    pub blocks: u32,
    /// How often a check timer may expire (CCSDS 727.0-B-5, timer procedures), 1 to 1,000 times.
    pub checks: u32,
}

/// How many octets a C `struct cfdp_path` has room for: those of the longest path, 8 names of 96 octets with a `/`
/// before each. No 0 follows them.
pub(crate) const PATH_OCTETS: usize = 776;

/// A C `struct cfdp_path`: the octets that spell a path.
#[derive(Clone, Copy)]
#[repr(C)]
pub struct PathFields {
    /// How many of the octets spell the path.
    pub length: u32,
    /// The octets.
    pub octets: [u8; PATH_OCTETS],
}

/// A C `struct cfdp_transaction`: the name of a transaction.
#[derive(Clone, Copy, Debug, PartialEq, Eq)]
#[repr(C)]
pub struct NameFields {
    /// The source entity ID.
    pub source: u64,
    /// The transaction sequence number.
    pub number: u64,
}

/// A C `struct cfdp_metadata`: what the Metadata PDU of a transaction said (CCSDS 727.0-B-5 §5.2.5), but for its names
/// and its filestore requests.
#[derive(Clone, Copy, Debug, PartialEq, Eq)]
#[repr(C)]
pub struct MetadataNumbers {
    /// The file's size in octets; 0 where it is unbounded.
    pub size: u64,
    /// Whether transaction closure is requested: 1 or 0.
    pub closure: u32,
    /// The checksum type, 0 to 15: 0 is the modular checksum, 15 is none.
    pub checksum_type: u32,
}

/// A C `struct cfdp_phase`: how far a transaction is.
#[derive(Clone, Copy, Debug, PartialEq, Eq)]
#[repr(C)]
pub struct PhaseFields {
    /// Which phase it is.
    pub phase: u32,
    /// The checks that were made, the item that is next, or the condition code.
    pub detail: u32,
}

/// A C `struct cfdp_grant`: what was granted to a transaction.
#[derive(Clone, Copy, Debug, PartialEq, Eq)]
#[repr(C)]
pub struct GrantFields {
    /// Blocks of the filestore.
    pub blocks: u32,
    /// Steps.
    pub steps: u32,
}

/// A C `struct cfdp_gap`: octets of a file that are missing.
#[derive(Clone, Copy, Debug, PartialEq, Eq)]
#[repr(C)]
pub struct GapFields {
    /// The first octet that is missing.
    pub start: u64,
    /// The first one after it that is not.
    pub end: u64,
}

/// A C `struct cfdp_blocks`: the blocks of the filestore that are not in use.
#[derive(Clone, Copy, Debug, PartialEq, Eq)]
#[repr(C)]
pub struct BlocksFields {
    /// The free blocks.
    pub free: u32,
    /// The free blocks that no transaction was granted.
    pub spare: u32,
}

/// A C `struct cfdp_entry`: what is at a path of the filestore.
#[derive(Clone, Copy, Debug, PartialEq, Eq)]
#[repr(C)]
pub struct EntryFields {
    /// Whether it is a file or a directory.
    pub kind: u32,
    /// A file's modular checksum (CCSDS 727.0-B-5, checksum procedures); 0 for a directory.
    pub checksum: u32,
    /// How many octets a file has; 0 for a directory.
    pub size: u64,
}
