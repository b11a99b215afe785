//! The tests of the action table, made on a store or on an outline of one.

ghost use Rattle.std.specs.Prelude.{◌≡◌, Bool, false, IsTrue, IsSome, IfNone};
ghost use Rattle.cfdp_paths.specs.Paths.{Path};
ghost use Rattle.cfdp_paths.specs.PathMaps.{is_too_deep};
ghost use Rattle.cfdp_actions.specs.Filestore.{Node, Filestore, node_at, has_entries, parent_is_good, tree_at};
ghost use Rattle.cfdp_actions.specs.Actions.{create, table, RenameFile};
ghost use Rattle.cfdp_actions.specs.Store.{kind_at};
ghost use Rattle.cfdp_actions.specs.Refusals.{Refuses};
ghost use Rattle.cfdp_actions.specs.code.Refusals.{file_refusal, directory_refusal, joint_refusal};

use crate::{Kind, Request};
use cfdp_paths::{MOST_NAMES, Path};
use cfdp_status::{Action, Status};

/// What the tests of the action table ask of a store, or of an outline of one that has no octets.
///
/// Contracts see which filestores the value `tells` of, and it gives the same result for each of them; and which moves
/// it calls `deep`, whether it describes a filestore or not. Every store meets it: it describes the filestore that it
/// has.
pub trait Kinds {
    ghost tells: { Self → Filestore → Type 0 };

    ghost deep: { Self → Path → Path → Bool };

    /// Whether a file or a directory is at the path, if anything is.
    fn kind(&self, path: &Path) -> Option<Kind>
        ensures { (F : Filestore) → tells self.now F → result ≡ kind_at F path.now };

    /// Whether the path's parent is the root or a directory.
    fn parent_is_good(&self, path: &Path) -> bool
        ensures { (F : Filestore) → tells self.now F → result ≡ parent_is_good F path.now };

    /// Whether anything is below the path.
    fn has_entries(&self, path: &Path) -> bool
        ensures { (F : Filestore) → tells self.now F → result ≡ has_entries F path.now };

    /// Whether a path at or below the first, at which something exists, would have more than 8 names once the first is
    /// the second.
    fn is_too_deep(&self, from: &Path, to: &Path) -> bool
        requires { (F : Filestore) → tells self.now F → IsSome (node_at F from.now) }
        ensures value { result ≡ deep self.now from.now to.now }
        ensures stated { (F : Filestore) → tells self.now F → result ≡ is_too_deep from.now to.now
            (tree_at F from.now) };
}

/// The status of a request that the action table refuses (CCSDS 727.0-B-5, filestore procedures), where nothing is
/// protected and room has no limit; `None` where its row is successful.
///
/// Cost: for each name a `kind`, for a new one a `parent_is_good`, for a directory that is to go a `has_entries`, and
/// for a move that nothing else refuses an `is_too_deep`.
pub fn refusal<K: Kinds>(kinds: &K, request: &Request) -> Option<Status>
    ensures stated { (F : Filestore) → K.tells kinds.now F → Refuses (table F request.now) result }
    ensures shallow { (p q : Path) → request.now ≡ RenameFile p q → IfNone result (K.deep kinds.now p q ≡ false) }
{
    match request {
        Request::CreateFile(path) => creation(kinds, Action::CreateFile, path),
        Request::DeleteFile(path) => {
            of_file(kinds, Action::DeleteFile, path, Some(Status::DeleteAbsent))
        }
        Request::RenameFile(from, to) => renaming(kinds, from, to),
        Request::AppendFile(first, second) => {
            let absent = (Status::AppendFirstAbsent, Status::AppendSecondAbsent);
            joining(kinds, Action::AppendFile, first, second, absent)
        }
        Request::ReplaceFile(first, second) => {
            let absent = (Status::ReplaceFirstAbsent, Status::ReplaceSecondAbsent);
            joining(kinds, Action::ReplaceFile, first, second, absent)
        }
        Request::CreateDirectory(path) => creation(kinds, Action::CreateDirectory, path),
        Request::RemoveDirectory(path) => {
            let absent = Some(Status::RemoveAbsent);
            of_directory(kinds, Action::RemoveDirectory, path, absent)
        }
        Request::DenyFile(path) => of_file(kinds, Action::DenyFile, path, None),
        Request::DenyDirectory(path) => of_directory(kinds, Action::DenyDirectory, path, None),
    }
}

/// Why nothing may be made at the path: something is there, or the parent is not good.
fn creation<K: Kinds>(kinds: &K, action: Action, path: &Path) -> Option<Status>
    ensures { (F : Filestore) (node : Node) → K.tells kinds.now F
        → Refuses (create action node path.now (node_at F path.now) (parent_is_good F path.now)) result }
{
    if kinds.kind(path).is_some() || !kinds.parent_is_good(path) {
        return Some(Status::NotAllowed(action));
    }
    None
}

/// Why no file may go from the path: nothing is there, which is `absent`, or a directory.
fn of_file<K: Kinds>(
    kinds: &K,
    action: Action,
    path: &Path,
    absent: Option<Status>,
) -> Option<Status>
    ensures { (F : Filestore) → K.tells kinds.now F → result ≡ file_refusal action absent (kind_at F path.now) }
{
    match kinds.kind(path) {
        None => absent,
        Some(Kind::Directory) => Some(Status::NotAllowed(action)),
        Some(Kind::File) => None,
    }
}

/// Why no directory may go from the path: nothing is there, which is `absent`, a file, or one with entries.
fn of_directory<K: Kinds>(
    kinds: &K,
    action: Action,
    path: &Path,
    absent: Option<Status>,
) -> Option<Status>
    ensures { (F : Filestore) → K.tells kinds.now F
        → result ≡ directory_refusal action absent (kind_at F path.now) (has_entries F path.now) }
{
    match kinds.kind(path) {
        None => absent,
        Some(Kind::File) => Some(Status::NotAllowed(action)),
        Some(Kind::Directory) => {
            if kinds.has_entries(path) {
                return Some(Status::NotAllowed(action));
            }
            None
        }
    }
}

/// Why what is at the first path may not move to the second: nothing is there, something is at the second
/// path, the second's parent is not good, it is at or below the first, or a path would be too deep.
fn renaming<K: Kinds>(kinds: &K, from: &Path, to: &Path) -> Option<Status>
    ensures stated { (F : Filestore) → K.tells kinds.now F → Refuses (table F (RenameFile from.now to.now)) result }
    ensures shallow { IfNone result (K.deep kinds.now from.now to.now ≡ false) }
{
    if kinds.kind(from).is_none() {
        return Some(Status::RenameOldAbsent);
    }
    if kinds.kind(to).is_some() {
        return Some(Status::RenameNewPresent);
    }
    if !kinds.parent_is_good(to) || to.is_at_or_below(from) || kinds.is_too_deep(from, to) {
        return Some(Status::NotAllowed(Action::RenameFile));
    }
    None
}

/// Why the two files may not be joined: nothing is at the first path, or at the second, which are the two statuses
/// of `absent`; or a directory is at one of them.
fn joining<K: Kinds>(
    kinds: &K,
    action: Action,
    first: &Path,
    second: &Path,
    absent: (Status, Status),
) -> Option<Status>
    ensures { (F : Filestore) → K.tells kinds.now F
        → result ≡ joint_refusal action absent (kind_at F first.now) (kind_at F second.now) }
{
    match (kinds.kind(first), kinds.kind(second)) {
        (None, _) => Some(absent.0),
        (Some(_), None) => Some(absent.1),
        (Some(Kind::File), Some(Kind::File)) => None,
        _ => Some(Status::NotAllowed(action)),
    }
}

impl<S: crate::Filestore> Kinds for S {
    ghost tells = { λ store F. F ≡ (S.state store).filestore };

    ghost deep = { λ store p q. is_too_deep p q (tree_at (S.state store).filestore p) };

    fn kind(&self, path: &Path) -> Option<Kind> {
        crate::Filestore::kind(self, path)
    }

    fn parent_is_good(&self, path: &Path) -> bool {
        crate::Filestore::parent_is_good(self, path)
    }

    fn has_entries(&self, path: &Path) -> bool {
        crate::Filestore::has_entries(self, path)
    }

    fn is_too_deep(&self, from: &Path, to: &Path) -> bool {
        let below = usize::from(self.deepest(from)).saturating_sub(from.depth());
        to.depth() + below > MOST_NAMES
    }
}
