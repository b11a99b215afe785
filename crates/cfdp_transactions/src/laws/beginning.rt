//! What is true of an entity that begins over a filestore which may have directories and files already, and of what is
//! put there.

ghost use Rattle.cfdp_transactions.specs.Beginning.{StartIsEmpty, EmptyIsGood, PutIsGood, PutIsSound, GoodStartIsSound, HeadlineFrom, EachKeyIsAPathFrom, DoneIsInstalledFrom, FirstIsInstalledFrom, OutcomesFitFrom};
ghost use Rattle.cfdp_transactions.specs.Restart.{PutBackIsSame};

use crate::laws::lower_laws;
use cfdp_leases::laws::keys_stay_paths;

/// An entity begins over the empty filestore where it is not given another.
pub fn start_is_empty()
    ensures { StartIsEmpty }
{}

/// Each entity may begin with the empty filestore.
pub fn empty_is_good()
    ensures { EmptyIsGood }
{}

/// A filestore with which an entity may begin stays one with each directory and each file that can be put there.
pub fn put_is_good()
    ensures { PutIsGood }
{}

/// What can be put keeps an entity sound.
pub fn put_is_sound()
    ensures { PutIsSound }
{}

/// All directories and files of a sound entity's filestore, in path order, can be put into the empty filestore of a new
/// entity of the same configuration. That one then has the same, and nothing is staged.
pub fn put_back_is_same()
    ensures { PutBackIsSame }
{}

/// An entity over a filestore with which it may begin is sound.
pub fn good_start_is_sound()
    ensures { GoodStartIsSound }
{}

/// For every configuration, every filestore with which such an entity may begin, and every list of events: each world
/// of the run is sound, and from each world to the next all that [`next_is_promised`](crate::laws::next_is_promised)
/// says holds.
pub fn headline_from()
    ensures { HeadlineFrom }
{
    lower_laws();
}

/// Whatever the events, something exists in the filestore only at paths, where this was so at the start.
pub fn each_key_is_a_path_from()
    ensures { EachKeyIsAPathFrom }
{
    keys_stay_paths();
}

/// Whatever the filestore at the start and the events, of an entry that is done the file was installed exactly where
/// its Metadata names a destination, and its Finished PDU says so.
pub fn done_is_installed_from()
    ensures { DoneIsInstalledFrom }
{}

/// Whatever the events before, 'installed' is replied to a step at the first item of a transaction whose Metadata names
/// a destination, and to no other event.
pub fn first_is_installed_from()
    ensures { FirstIsInstalledFrom }
{
    lower_laws();
}

/// Whatever the filestore at the start: where each event may have come from a PDU that was read, every outcome of the
/// run meets what the writer of Finished PDUs needs, and all its lengths fit.
pub fn outcomes_fit_from()
    ensures { OutcomesFitFrom }
{}
