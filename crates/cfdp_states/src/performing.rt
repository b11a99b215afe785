//! A filestore request, performed on kinds and sizes alone.

ghost use Rattle.std.specs.Prelude.{◌≡◌, ◌≢◌, [], ◌+◌, ◌≤◌, ◌<◌, ◌^◌};
ghost use Rattle.cfdp_actions.specs.Actions.{Perform};
ghost use Rattle.std.specs.FinMap as finite;
ghost use Rattle.cfdp_states.specs.code.Sketching.{content_blocks, bound_on, can_install, DoesOrNot, PerformsOrNot};

use crate::changes::change;
use crate::extent::Extent;
use crate::extents::Extents;
use cfdp_actions::{Protected, Request, refusal};
use cfdp_paths::{Memory, Path};
use cfdp_status::Status;

/// Performs a request (CCSDS 727.0-B-5, filestore procedures), except where the prefixes bar it.
pub fn perform(
    extents: &mut Extents,
    protected: &Protected,
    request: &Request,
) -> Result<Status, Memory>
    ensures { PerformsOrNot protected.now extents.old extents.new request.now result }
{
    if protected.bars(request) {
        return Ok(Status::NotAllowed(request.action()));
    }
    perform_freely(extents, request)
}

/// Performs a request where nothing is protected.
fn perform_freely(extents: &mut Extents, request: &Request) -> Result<Status, Memory>
    ensures { DoesOrNot extents.old extents.new request.now result }
{
    if let Some(status) = refusal(&*extents, request) {
        return Ok(status);
    }
    change(extents, request)?;
    Ok(Status::Successful(request.action()))
}

/// Whether a delivered file may be installed at the path: its parent is good, and neither a directory nor a protected
/// file is there.
pub fn can_install(extents: &Extents, protected: &Protected, path: &Path) -> bool
    ensures value { result ≡ can_install protected.now extents.now path.now }
    ensures named { path.now ≢ [] }
{
    let good = extents.has_good_parent(path);
    match extents.get(path) {
        None => good,
        Some(Extent::Directory) => false,
        Some(Extent::File(_)) => good && !protected.covers(path),
    }
}

/// How many ticks the request may take.
pub fn step_bound(extents: &Extents, request: &Request) -> u64
    ensures value { result ≡ bound_on extents.now (Perform request.now) }
    ensures within { result < 2 ^ 60 }
{
    match request {
        Request::CreateFile(_) | Request::CreateDirectory(_) | Request::RemoveDirectory(_) => 1,
        Request::RenameFile(_, _) => 0,
        Request::DeleteFile(path) => 1 + content(extents, path),
        Request::DenyFile(path) => extents.weight(path),
        Request::DenyDirectory(path) => extents.weight(path).min(1),
        Request::AppendFile(_, second) => 2 * content(extents, second),
        Request::ReplaceFile(first, second) => {
            if first == second {
                0
            } else {
                content(extents, first) + 2 * content(extents, second)
            }
        }
    }
}

/// The blocks of the octets of what is at the path.
pub fn content(extents: &Extents, path: &Path) -> u64
    ensures value { result ≡ content_blocks (finite.get extents.now path.now) }
    ensures within { result < 2 ^ 58 }
{
    match extents.get(path) {
        None => 0,
        Some(extent) => extent.content(),
    }
}
