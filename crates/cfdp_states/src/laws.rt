//! What is true of lists run alone, whatever the code does. Each function does nothing: its contract is a law over the
//! definitions of `specs/`.
ghost use Rattle.cfdp_leases.specs.Laws.{Growth, WithinBound};
ghost use Rattle.cfdp_states.specs.Laws.{OwnStep, EnoughRoom, LongerFile, ForeignChange, ForeignChangeWith, AnySlot, AnySlotWith, OnlyLeased, SucceedByStatuses, Appended, ViewBegins, ViewInstalls, ViewRefuses, ViewGoesOn, ViewBounds};

use cfdp_leases::laws::{frame_of_reads, own_changes, stays_rooted};

/// The blocks in use after a row of the action table (CCSDS 727.0-B-5, filestore procedures): those before, with those
/// that it takes and without those that it gives back.
pub fn growth()
    ensures { Growth }
{}

/// A row of the action table takes no more ticks than its bound.
pub fn within_bound()
    ensures { WithinBound }
{}

/// After the next item of a list, the rest's need is at most the need before less that item's growth of blocks; its
/// steps are those before less 1 and the item's bound; and the item's ticks are at most that bound.
pub fn own_step()
    ensures { OwnStep }
{}

/// Where as many blocks are free as a list needs, there is room for its next item.
pub fn enough_room()
    ensures { EnoughRoom }
{}

/// A longer delivered file changes no status of a list, and lowers neither its need nor its steps.
pub fn longer_file()
    ensures { LongerFile }
{}

/// On two filestores that agree on a footprint, with one list staged, items within the footprint have the same
/// statuses, growths, need and steps.
pub fn foreign_change()
    ensures { ForeignChange }
{
    frame_of_reads();
    stays_rooted();
}

/// And they have them with whatever file is delivered.
pub fn foreign_change_with()
    ensures { ForeignChangeWith }
{
    frame_of_reads();
    stays_rooted();
}

/// It does not matter in which slot the delivered file is staged, nor what other slots hold.
pub fn any_slot()
    ensures { AnySlot }
{}

/// What is judged with the delivered file as the one staged list is so in each slot that stages nothing.
pub fn any_slot_with()
    ensures { AnySlotWith }
{}

/// What a footprint does not cover may be left out of sight: items within it run alone as they do where nothing else
/// exists.
pub fn only_leased()
    ensures { OnlyLeased }
{
    frame_of_reads();
    own_changes();
}

/// A list succeeds where each of its statuses is successful, and only there.
pub fn succeed_by_statuses()
    ensures { SucceedByStatuses }
{}

/// One more item at the end of a list: its answer, and what the list comes to.
pub fn appended()
    ensures { Appended }
{}

/// A view as [`View::of`](crate::View::of) makes it describes no item yet.
pub fn view_begins()
    ensures { ViewBegins }
{
    only_leased();
}

/// After an install that is allowed, a view describes it, run alone on the whole filestore.
pub fn view_installs()
    ensures { ViewInstalls }
{
    only_leased();
}

/// An install that is not allowed on a view is not allowed on the whole filestore.
pub fn view_refuses()
    ensures { ViewRefuses }
{
    only_leased();
}

/// After one more item, a view describes that too, run alone on the whole filestore.
pub fn view_goes_on()
    ensures { ViewGoesOn }
{
    only_leased();
}

/// The bound that a view gives for a path within its footprint ([`View::bound`](crate::View::bound)) is a length: that
/// of the file that is there once the items so far have run alone on the whole filestore. It is the greatest u64 where
/// that is less, and none where no file exists.
pub fn view_bounds()
    ensures { ViewBounds }
{}
