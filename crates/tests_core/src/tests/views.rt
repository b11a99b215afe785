//! Lists that are run alone on a view: the status of each request, what the list needs, and how many steps it takes,
//! where no verdict says so. All others are in `.ci/cases/admission.txt`.

use super::scene::{Before, Scene, path_of, request};
use cfdp_actions::{Filestore, Protected, Request};
use cfdp_leases::footprint;
use cfdp_paths::{Memory, Path};
use cfdp_states::View;
use cfdp_status::Action;
use std::alloc::Global;
use std::process::Abort;

/// A request by its action and names, the second one empty where there is none, and the octet of its status.
pub type AppliedRequest = (Action, &'static [u8], &'static [u8], u8);

/// A name; the destination and the bound of a file, where there is one; the requests; the need and the steps.
pub type Row = (
    &'static str,
    Option<(&'static [u8], u64)>,
    &'static [AppliedRequest],
    u32,
    u32,
);

/// What happens before, and the rows.
type Case = (&'static [Before], &'static [Row]);

/// The requests of a row.
pub fn requests(alloc: Global, applied: &[AppliedRequest]) -> Result<Vec<Request>, Memory> {
    let mut requests = Vec::new(alloc);
    for (action, first, second, _) in applied {
        requests.push(request(alloc, *action, first, second)?)?;
    }
    Ok(requests)
}

/// Applies the requests, and compares their statuses.
fn apply(
    rt: &impl Abort,
    view: &mut View<'_>,
    name: &str,
    requests: &[Request],
    applied: &[AppliedRequest],
) -> Result<(), Memory> {
    for (index, (request, (_, _, _, status))) in requests.iter().zip(applied).enumerate() {
        let replied = view.apply(request)?;
        assert!(rt; replied.octet() == *status, "{name}: request {index}");
    }
    Ok(())
}

/// The view of what a list leases.
fn view_of<'a, S: Filestore>(
    alloc: Global,
    store: &S,
    protected: &'a Protected,
    requests: &[Request],
    destination: Option<&Path>,
) -> Result<View<'a>, Memory> {
    let leased = footprint(alloc, requests, destination)?;
    View::of(alloc, store, protected, &leased)
}

/// The view on which a row is run, in which its file is installed: `None` where that may not be.
fn begun<'a, S: Filestore>(
    alloc: Global,
    store: &S,
    protected: &'a Protected,
    requests: &[Request],
    file: Option<(&[u8], u64)>,
) -> Result<Option<View<'a>>, Memory> {
    let Some((name, bound)) = file else {
        return Ok(Some(view_of(alloc, store, protected, requests, None)?));
    };
    let path = path_of(alloc, name)?;
    let mut view = view_of(alloc, store, protected, requests, Some(&path))?;
    if view.install(&path, bound)? && view.bound(&path) == Some(bound) {
        Ok(Some(view))
    } else {
        Ok(None)
    }
}

/// Whether the view took this many blocks and steps. The row with the greatest u32 needs more.
fn has_taken(view: &View<'_>, need: u32, steps: u32) -> bool {
    view.need() == need
        && view.steps() == steps
        && view.needs_at_most(need) == (need < u32::MAX)
        && (need == 0 || !view.needs_at_most(need - 1))
}

/// Runs a row on a view of the store.
pub fn run<S: Filestore>(
    rt: &impl Abort,
    alloc: Global,
    store: &S,
    protected: &Protected,
    row: &Row,
) -> Result<(), Memory> {
    let (name, file, applied, need, steps) = *row;
    let requests = requests(alloc, applied)?;
    let mut view = begun(alloc, store, protected, &requests, file)?;
    match &mut view {
        Some(view) => {
            apply(rt, view, name, &requests, applied)?;
            assert!(rt;
                has_taken(view, need, steps),
                "{name}: need {}, steps {}",
                view.need(),
                view.steps()
            );
        }
        None => assert!(rt; false, "{name}: the file may not be installed"),
    }
    Ok(())
}

const GONE: &[AppliedRequest] = &[
    (Action::CreateFile, b"a", b"", 0x00),
    (Action::RenameFile, b"a", b"b", 0x20),
    (Action::DeleteFile, b"a", b"", 0x11),
];

const DOUBLED: &[AppliedRequest] = &[(Action::AppendFile, b"a", b"a", 0x30)];

const FAILED_AND_GREATEST: &[Row] = &[
    ("a name that a rename took away", None, GONE, 1, 5),
    (
        "sizes and counts stop at the greatest numbers",
        Some((b"a", u64::MAX)),
        DOUBLED,
        u32::MAX,
        u32::MAX,
    ),
];

/// A file below a protected directory.
const PROTECTED: &[Before] = &[
    Before::Protected(b"sys"),
    Before::Performed(b"\x00\x05\x50\x03sys"),
    Before::Performed(b"\x00\x07\x00\x05sys/a"),
];

/// One step for each request, and one for the file that would be deleted.
const KEPT: &[AppliedRequest] = &[
    (Action::DeleteFile, b"sys/a", b"", 0x12),
    (Action::DenyDirectory, b"sys/z", b"", 0x82),
    (Action::RenameFile, b"sys", b"s", 0x23),
];

const WHAT_IS_PROTECTED_STAYS: &[Row] = &[
    ("a list alone", None, KEPT, 0, 4),
    ("beside a file", Some((b"sys/b", 15)), KEPT, 2, 6),
];

static CASES: [Case; 2] = [
    (&[], FAILED_AND_GREATEST),
    (PROTECTED, WHAT_IS_PROTECTED_STAYS),
];

#[test]
fn each_case(rt: HostRuntime) -> Result<(), Memory> {
    for (before, rows) in &CASES {
        let scene = Scene::new(&rt, rt.alloc(), 64, before)?;
        for row in *rows {
            run(&rt, rt.alloc(), &scene.store, &scene.protected, row)?;
        }
    }
    Ok(())
}

/// Paths at which no file can be installed.
static REFUSED: [&[u8]; 3] = [b"sys/a", b"sys", b"x/y"];

/// What the view says of the size at the path, and the blocks and the steps that it took.
fn answers(view: &View<'_>, path: &Path) -> (Option<u64>, u32, u32) {
    (view.bound(path), view.need(), view.steps())
}

/// Whether an install at the path is refused and changes nothing, and one at `sys/b` is not.
fn is_refused_at(
    alloc: Global,
    scene: &Scene,
    kept: &[Request],
    name: &[u8],
) -> Result<bool, Memory> {
    let allowed = path_of(alloc, b"sys/b")?;
    let path = path_of(alloc, name)?;
    let mut view = view_of(alloc, &scene.store, &scene.protected, kept, Some(&path))?;
    let bound = view.bound(&path);
    let is_refused = !view.install(&path, 15)?;
    let is_same = answers(&view, &path) == (bound, 0, 0);
    let is_installed = view.install(&allowed, 15)?;
    Ok(is_refused && is_same && is_installed && answers(&view, &allowed) == (Some(15), 2, 2))
}

/// An install over a protected file, over a directory, and where there is no parent; the view then goes on.
#[test]
fn an_install_that_is_not_allowed_changes_nothing(rt: HostRuntime) -> Result<(), Memory> {
    let scene = Scene::new(&rt, rt.alloc(), 64, PROTECTED)?;
    let kept = requests(rt.alloc(), KEPT)?;
    for name in &REFUSED {
        let holds = is_refused_at(rt.alloc(), &scene, &kept, name)?;
        assert!(&rt; holds, "on {name:?}");
    }
    Ok(())
}

/// A directory with a file.
static DIRECTORY: [Before; 2] = [
    Before::Performed(b"\x00\x03\x50\x01d"),
    Before::Performed(b"\x00\x05\x00\x03d/x"),
];

/// Requests, and what a view of each says of the sizes of `d/x` and `d`.
static BOUNDS: [(AppliedRequest, Option<u64>, Option<u64>); 2] = [
    ((Action::CreateFile, b"d/y", b"", 0x00), None, None),
    ((Action::RemoveDirectory, b"d", b"", 0x62), Some(0), None),
];

/// What the view says of the size at the path.
fn bound_at(alloc: Global, view: &View<'_>, name: &[u8]) -> Result<Option<u64>, Memory> {
    let path = path_of(alloc, name)?;
    Ok(view.bound(&path))
}

/// What a view of one request says of the sizes of `d/x` and `d`.
fn bounds(
    alloc: Global,
    scene: &Scene,
    applied: AppliedRequest,
) -> Result<(Option<u64>, Option<u64>), Memory> {
    let requests = requests(alloc, &[applied])?;
    let view = view_of(alloc, &scene.store, &scene.protected, &requests, None)?;
    Ok((
        bound_at(alloc, &view, b"d/x")?,
        bound_at(alloc, &view, b"d")?,
    ))
}

#[test]
fn a_view_sees_what_is_leased_alone(rt: HostRuntime) -> Result<(), Memory> {
    let scene = Scene::new(&rt, rt.alloc(), 64, &DIRECTORY)?;
    for (applied, file, directory) in &BOUNDS {
        let replied = bounds(rt.alloc(), &scene, *applied)?;
        assert!(&rt;
            replied == (*file, *directory),
            "{}",
            applied.1.escape_ascii()
        );
    }
    Ok(())
}
