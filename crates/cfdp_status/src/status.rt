//! The statuses, and their octets.
ghost use Rattle.std.specs.Prelude.{◌≡◌, ℕ, Some};
ghost use Rattle.cfdp_status.specs.Codes.{beside, status_octets, octet_of, status_code_of, not_allowed_code_of, action_of, is_successful};
ghost use Rattle.cfdp_status.specs.declared.status.Status.TheVariants.{Successful, NotAllowed, NotPerformed};

use crate::Action;

/// How a filestore request went (CCSDS 727.0-B-5 §5.4.2).
///
/// It names the action too, so it is the whole first octet of a filestore response.
#[derive(Clone, Copy, Debug, PartialEq, Eq, PartialOrd, Ord, Hash)]
pub enum Status {
    /// The request was performed.
    Successful(Action),
    /// The filestore does not allow it.
    NotAllowed(Action),
    /// It was not tried, since an earlier request of its list was not successful, or the list
    /// was not begun or not ended.
    NotPerformed(Action),
    /// The file to delete does not exist.
    DeleteAbsent,
    /// The old name of a rename does not exist.
    RenameOldAbsent,
    /// The new name of a rename exists.
    RenameNewPresent,
    /// The file to append to does not exist.
    AppendFirstAbsent,
    /// The file to be appended does not exist.
    AppendSecondAbsent,
    /// The file to replace does not exist.
    ReplaceFirstAbsent,
    /// The file to replace it by does not exist.
    ReplaceSecondAbsent,
    /// The directory to remove does not exist.
    RemoveAbsent,
}

impl Status {
    /// The status with an octet, action and status code together. `None` for each octet that is
    /// not in the table.
    pub fn of_octet(octet: u8) -> Option<Status>
        ensures { result ≡ beside status_octets octet }
    {
        let action = Action::of_code(octet >> 4)?;
        match octet {
            0x00 | 0x10 | 0x20 | 0x30 | 0x40 | 0x50 | 0x60 | 0x70 | 0x80 => {
                Some(Status::Successful(action))
            }
            0x01 | 0x12 | 0x23 | 0x33 | 0x43 | 0x51 | 0x62 | 0x72 | 0x82 => {
                Some(Status::NotAllowed(action))
            }
            0x0f | 0x1f | 0x2f | 0x3f | 0x4f | 0x5f | 0x6f | 0x7f | 0x8f => {
                Some(Status::NotPerformed(action))
            }
            0x11 => Some(Status::DeleteAbsent),
            0x21 => Some(Status::RenameOldAbsent),
            0x22 => Some(Status::RenameNewPresent),
            0x31 => Some(Status::AppendFirstAbsent),
            0x32 => Some(Status::AppendSecondAbsent),
            0x41 => Some(Status::ReplaceFirstAbsent),
            0x42 => Some(Status::ReplaceSecondAbsent),
            0x61 => Some(Status::RemoveAbsent),
            _ => None,
        }
    }

    /// The status's octet: the action's code in the high four bits, the status code in the low.
    pub fn octet(self) -> u8
        ensures value { result ≡ octet_of self }
        ensures in_table { beside status_octets result ≡ Some self }
        ensures alone { (octet : ℕ) → beside status_octets octet ≡ Some self → octet ≡ result }
    {
        (self.action().code() << 4) + self.status_code()
    }

    /// The status code alone, 0 to 15.
    fn status_code(self) -> u8
        ensures { result ≡ status_code_of self }
    {
        match self {
            Status::Successful(_) => 0,
            Status::NotAllowed(action) => not_allowed_code(action),
            Status::NotPerformed(_) => 15,
            Status::DeleteAbsent
            | Status::RenameOldAbsent
            | Status::AppendFirstAbsent
            | Status::ReplaceFirstAbsent
            | Status::RemoveAbsent => 1,
            Status::RenameNewPresent | Status::AppendSecondAbsent | Status::ReplaceSecondAbsent =>
                2,
        }
    }

    /// The action of the request that it answers.
    pub fn action(self) -> Action
        ensures { result ≡ action_of self }
    {
        match self {
            Status::Successful(action)
            | Status::NotAllowed(action)
            | Status::NotPerformed(action) => action,
            Status::DeleteAbsent => Action::DeleteFile,
            Status::RenameOldAbsent | Status::RenameNewPresent => Action::RenameFile,
            Status::AppendFirstAbsent | Status::AppendSecondAbsent => Action::AppendFile,
            Status::ReplaceFirstAbsent | Status::ReplaceSecondAbsent => Action::ReplaceFile,
            Status::RemoveAbsent => Action::RemoveDirectory,
        }
    }

    /// Whether the request was performed.
    pub fn is_successful(self) -> bool
        ensures { result ≡ is_successful self }
    {
        matches!(self, Status::Successful(_))
    }

    /// The action was performed.
    pub fn successful(action: Action) -> Self
        ensures { result ≡ Successful action }
    {
        Self::Successful(action)
    }

    /// The action was not tried.
    pub fn not_performed(action: Action) -> Self
        ensures { result ≡ NotPerformed action }
    {
        Self::NotPerformed(action)
    }

    /// The filestore does not allow the action.
    pub fn not_allowed(action: Action) -> Self
        ensures { result ≡ NotAllowed action }
    {
        Self::NotAllowed(action)
    }
}

/// The status code of an action that is not allowed.
fn not_allowed_code(action: Action) -> u8
    ensures { result ≡ not_allowed_code_of action }
{
    match action {
        Action::CreateFile | Action::CreateDirectory => 1,
        Action::DeleteFile | Action::RemoveDirectory | Action::DenyFile | Action::DenyDirectory =>
            2,
        Action::RenameFile | Action::AppendFile | Action::ReplaceFile => 3,
    }
}
