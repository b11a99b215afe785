//! What is true of footprints and of the action table by their definitions alone. A law is a function that does
//! nothing: its contract is the statement, which is in `specs/Laws.antt`.

ghost use Rattle.cfdp_leases.specs.Laws.{ConflictByPaths, FrameOfChanges, FrameOfReads, Isolation, KeysStayPaths, OwnChanges, OwnFootprint, StaysRooted};

/// The footprints of two lists conflict exactly where some path is in both and is exclusive in at least one. So
/// the paths of one, looked up among the leased ones, show every conflict.
pub fn conflict_by_paths()
    ensures { ConflictByPaths }
{}

/// The footprint of a list has all paths of its items.
pub fn own_footprint()
    ensures { OwnFootprint }
{}

/// A row of the action table (CCSDS 727.0-B-5, filestore procedures) reads only what the footprint covers: on two
/// filestores that agree there it is the same row, and may take as many steps.
pub fn frame_of_reads()
    ensures { FrameOfReads }
{}

/// Each change of a row is at a path that is exclusive, or in the slot of its transaction.
pub fn own_changes()
    ensures { OwnChanges }
{}

/// A row changes only what is exclusive.
pub fn frame_of_changes()
    ensures { FrameOfChanges }
{}

/// A row keeps each footprint that does not conflict with its own.
pub fn isolation()
    ensures { Isolation }
{}

/// A row keeps each path's parent the root or a directory, also where it moves a directory with all below it.
pub fn stays_rooted()
    ensures { StaysRooted }
{}

/// A row of an item whose names are paths, each of 1 to 8 names within the limits, keeps each key of the filestore a
/// path, also where it moves a directory with all below it.
pub fn keys_stay_paths()
    ensures { KeysStayPaths }
{}
