//! A filestore request whose names are paths.

ghost use Rattle.std.specs.Prelude.{◌≡◌, ◌↔◌, is_some, IsSome, IfSome};
ghost use Rattle.std.specs.Option.{option_copied};
ghost use Rattle.cfdp_status.specs.Codes.{has_second};
ghost use Rattle.cfdp_actions.specs.Actions.{action_in, first_in, second_in, request_of};

use cfdp_paths::Path;
use cfdp_status::Action;

/// A filestore request (CCSDS 727.0-B-5 §5.4.1): an action and the one or two paths that it names.
///
/// The definitions name the same nine variants.
#[derive(Debug, Drop)]
pub enum Request {
    /// An empty file at the path.
    CreateFile(Path),
    /// The file at the path goes.
    DeleteFile(Path),
    /// What is at the first path moves to the second.
    RenameFile(Path, Path),
    /// The octets of the second file come after those of the first.
    AppendFile(Path, Path),
    /// The first file has the octets of the second.
    ReplaceFile(Path, Path),
    /// An empty directory at the path.
    CreateDirectory(Path),
    /// The directory at the path goes.
    RemoveDirectory(Path),
    /// The file at the path goes, if one is there.
    DenyFile(Path),
    /// The directory at the path goes, if one is there.
    DenyDirectory(Path),
}

impl Request {
    /// The request for an action at its names; `None` exactly where a second name is missing, or is there for an
    /// action that has none.
    pub fn new(action: Action, first: Path, second: Option<Path>) -> Option<Request>
        ensures made { IsSome result ↔ (is_some second ≡ has_second action) }
        ensures parts { IfSome result (λ request. request ≡ request_of action first second) }
    {
        match (action, second) {
            (Action::CreateFile, None) => Some(Request::CreateFile(first)),
            (Action::DeleteFile, None) => Some(Request::DeleteFile(first)),
            (Action::RenameFile, Some(second)) => Some(Request::RenameFile(first, second)),
            (Action::AppendFile, Some(second)) => Some(Request::AppendFile(first, second)),
            (Action::ReplaceFile, Some(second)) => Some(Request::ReplaceFile(first, second)),
            (Action::CreateDirectory, None) => Some(Request::CreateDirectory(first)),
            (Action::RemoveDirectory, None) => Some(Request::RemoveDirectory(first)),
            (Action::DenyFile, None) => Some(Request::DenyFile(first)),
            (Action::DenyDirectory, None) => Some(Request::DenyDirectory(first)),
            _ => None,
        }
    }

    /// What it asks for.
    pub fn action(&self) -> Action
        ensures { result ≡ action_in self.now }
    {
        match self {
            Request::CreateFile(_) => Action::CreateFile,
            Request::DeleteFile(_) => Action::DeleteFile,
            Request::RenameFile(_, _) => Action::RenameFile,
            Request::AppendFile(_, _) => Action::AppendFile,
            Request::ReplaceFile(_, _) => Action::ReplaceFile,
            Request::CreateDirectory(_) => Action::CreateDirectory,
            Request::RemoveDirectory(_) => Action::RemoveDirectory,
            Request::DenyFile(_) => Action::DenyFile,
            Request::DenyDirectory(_) => Action::DenyDirectory,
        }
    }

    /// The path that it names first.
    pub fn first(&self) -> &Path
        ensures { result.now ≡ first_in self.now }
    {
        match self {
            Request::CreateFile(first)
            | Request::DeleteFile(first)
            | Request::RenameFile(first, _)
            | Request::AppendFile(first, _)
            | Request::ReplaceFile(first, _)
            | Request::CreateDirectory(first)
            | Request::RemoveDirectory(first)
            | Request::DenyFile(first)
            | Request::DenyDirectory(first) => first,
        }
    }

    /// The path that it names second, where its action has one.
    pub fn second(&self) -> Option<&Path>
        ensures path { option_copied result ≡ second_in self.now }
        ensures there { is_some result ≡ has_second (action_in self.now) }
    {
        match self {
            Request::RenameFile(_, second)
            | Request::AppendFile(_, second)
            | Request::ReplaceFile(_, second) => Some(second),
            Request::CreateFile(_)
            | Request::DeleteFile(_)
            | Request::CreateDirectory(_)
            | Request::RemoveDirectory(_)
            | Request::DenyFile(_)
            | Request::DenyDirectory(_) => None,
        }
    }
}
