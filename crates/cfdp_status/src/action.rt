//! The nine actions, and their octets.
ghost use Rattle.std.specs.Prelude.{◌≡◌, ℕ, ◌<◌, Some};
ghost use Rattle.cfdp_status.specs.Codes.{beside, actions, code_of, has_second};

/// What a filestore request asks for (CCSDS 727.0-B-5 §5.4.1, filestore procedures).
#[derive(Clone, Copy, Debug, PartialEq, Eq, PartialOrd, Ord, Hash)]
pub enum Action {
    /// Makes an empty file.
    CreateFile,
    /// Removes a file, which has to be there.
    DeleteFile,
    /// Gives a new name to what is at the first name.
    RenameFile,
    /// Adds the second file's octets to the end of the first file.
    AppendFile,
    /// Replaces the first file's octets by the second file's.
    ReplaceFile,
    /// Makes an empty directory.
    CreateDirectory,
    /// Removes an empty directory, which has to be there.
    RemoveDirectory,
    /// Removes a file if it is there.
    DenyFile,
    /// Removes an empty directory if it is there.
    DenyDirectory,
}

impl Action {
    /// The action with a code, 0 to 8. `None` for every other number.
    pub fn of_code(code: u8) -> Option<Action>
        ensures { result ≡ beside actions code }
    {
        match code {
            0 => Some(Action::CreateFile),
            1 => Some(Action::DeleteFile),
            2 => Some(Action::RenameFile),
            3 => Some(Action::AppendFile),
            4 => Some(Action::ReplaceFile),
            5 => Some(Action::CreateDirectory),
            6 => Some(Action::RemoveDirectory),
            7 => Some(Action::DenyFile),
            8 => Some(Action::DenyDirectory),
            _ => None,
        }
    }

    /// The action's code, 0 to 8: the high four bits of a request's first octet.
    pub fn code(self) -> u8
        ensures value { result ≡ code_of self }
        ensures in_table { beside actions result ≡ Some self }
        ensures alone { (code : ℕ) → beside actions code ≡ Some self → code ≡ result }
        ensures below_nine { result < 9 }
    {
        self as u8
    }

    /// Whether a request for it has a second file name: rename, append and replace.
    pub fn has_second(self) -> bool
        ensures { result ≡ has_second self }
    {
        matches!(
            self,
            Action::RenameFile | Action::AppendFile | Action::ReplaceFile
        )
    }
}
