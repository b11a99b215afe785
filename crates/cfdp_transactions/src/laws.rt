//! What is true of the definitions of the core, whatever the code does. Each function does nothing:
//! its contract is the law.

ghost use Rattle.cfdp_transactions.specs.code.LowerLaws.{LowerLaws};
ghost use Rattle.cfdp_transactions.specs.Headline.{StartIsSound, NextIsSound, NextIsPromised, Headline};
ghost use Rattle.cfdp_transactions.specs.Entries.{OnlyMetadataAdds, MetadataAddsItsOwn, OnlyTakeRemoves, TakeRemoves, TakeKeeps, OtherEntriesStay};
ghost use Rattle.cfdp_transactions.specs.Needs.{StepNeeds, DataNeeds, TakeNeeds, FollowsIsSound, OnlyTakeHandsOut};
ghost use Rattle.cfdp_transactions.specs.Beside.{DoneIsInstalled, EachKeyIsAPath, FirstIsInstalled, OnlyStepsChange};
ghost use Rattle.cfdp_transactions.specs.Writable.{OutcomesFit, ReadIsReadable};

pub mod beginning;
pub mod received;

use cfdp_leases::laws::{isolation, keys_stay_paths, own_footprint, stays_rooted};
use cfdp_states::laws::{
    any_slot_with, enough_room, foreign_change_with, growth, longer_file, own_step,
};

// What the layers below promise.
pub(crate) fn lower_laws()
    ensures { LowerLaws }
{
    own_footprint();
    isolation();
    stays_rooted();
    growth();
    longer_file();
    foreign_change_with();
    own_step();
    enough_room();
    any_slot_with();
}

/// A receiving entity that has just begun is sound.
pub fn start_is_sound()
    ensures { StartIsSound }
{}

/// Every event leaves a sound entity sound.
pub fn next_is_sound()
    ensures { NextIsSound }
{
    lower_laws();
}

/// Whatever the event, from each sound world to the next:
///
/// - a transaction that is admitted has what the reply grants and has spent nothing;
/// - items are performed as the action table says, succeed, and are paid for;
/// - a transaction keeps its requests, items and grant, and spends just the blocks that the filestore grows by;
/// - one that completes has 'successful' for every request, in order, and 'not performed' for none;
/// - no more is spent than granted;
/// - no event of one transaction changes another's entry or a path leased to it.
pub fn next_is_promised()
    ensures { NextIsPromised }
{
    lower_laws();
}

/// For every configuration and every list of events, each world of the run is sound, and from each
/// world to the next all that was just said holds.
pub fn headline()
    ensures { Headline }
{
    lower_laws();
}

/// In a sound world, no event but a Metadata PDU adds a transaction: one that is not known stays so.
pub fn only_metadata_adds()
    ensures { OnlyMetadataAdds }
{
    lower_laws();
}

/// In a sound world, a transaction that is known after an event and was not before is the one whose
/// Metadata PDU came, with that header and that Metadata. So a Metadata PDU adds its own transaction
/// at most.
pub fn metadata_adds_its_own()
    ensures { MetadataAddsItsOwn }
{
    lower_laws();
}

/// In a sound world, a transaction that is known stays so at each event but the request for its own
/// outcome.
pub fn only_take_removes()
    ensures { OnlyTakeRemoves }
{
    lower_laws();
}

/// In a sound world, a transaction that is over is no longer known once its outcome was taken.
pub fn take_removes()
    ensures { TakeRemoves }
{
    lower_laws();
}

/// A request for the outcome of a transaction that is live changes nothing.
pub fn take_keeps()
    ensures { TakeKeeps }
{}

/// In a sound world, an event leaves all transactions as they are but its own: each has the same
/// entry, or none as before.
pub fn other_entries_stay()
    ensures { OtherEntriesStay }
{
    lower_laws();
}

/// Let the header of each PDU event of a list have lengths of 1 to 8 octets and numbers that fit them. Let an EOF's
/// condition be at most 15, and let request values have at most 254 octets. Then every outcome of the run meets what
/// the writer of Finished PDUs needs, and all its lengths fit.
pub fn outcomes_fit()
    ensures { OutcomesFit }
{}

/// The event of each PDU that was read is one of these.
pub fn what_was_read_is_readable()
    ensures { ReadIsReadable }
{}

/// A call that does what the table says, or nothing when out of memory, keeps an entity sound.
pub fn follows_is_sound()
    ensures { FollowsIsSound }
{
    lower_laws();
}

/// No reply but that to a request for the outcome hands one out.
pub fn only_take_hands_out()
    ensures { OnlyTakeHandsOut }
{}

/// No event but a step changes what is in the filestore.
pub fn only_steps_change()
    ensures { OnlyStepsChange }
{}

/// Whatever the events, something is in the filestore only at paths: at 1 to 8 names, each within
/// the limits.
pub fn each_key_is_a_path()
    ensures { EachKeyIsAPath }
{
    keys_stay_paths();
}

/// Whatever the events, of an entry that is done the file was installed exactly where its Metadata
/// names a destination, and its Finished PDU says so: retained, else unreported.
pub fn done_is_installed()
    ensures { DoneIsInstalled }
{}

/// Whatever the events before, 'installed' is replied to a step at the first item of a transaction whose Metadata names
/// a destination, and to no other event. So the answers to a transaction's items begin with 'installed' exactly where
/// there is a file, and no other answer is 'installed'.
pub fn first_is_installed()
    ensures { FirstIsInstalled }
{
    lower_laws();
}

/// In a sound world, an entry in Executing has a next item, for which there are blocks and steps:
/// what the calls of the layers below need of a Step.
pub fn step_needs()
    ensures { StepNeeds }
{
    lower_laws();
}

/// In a sound world, an entry that takes data has the blocks in its reserve, and they are free.
pub fn data_needs()
    ensures { DataNeeds }
{}

/// In a sound world, each response that an entry's Finished PDU gives is one: it has a second name
/// exactly where its action has one, as the requests do.
pub fn take_needs()
    ensures { TakeNeeds }
{}
