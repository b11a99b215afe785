//! A view after a request or an install for which there was no memory.

use super::scene::{Before, Scene, path_of};
use super::views::{AppliedRequest, requests};
use cfdp_actions::Request;
use cfdp_leases::footprint;
use cfdp_paths::{Memory, Path};
use cfdp_states::View;
use cfdp_status::{Action, Status};
use std::alloc::Global;
use std::process::Abort;

/// A directory with a file.
static BEFORE: [Before; 2] = [
    Before::Performed(b"\x00\x03\x50\x01d"),
    Before::Performed(b"\x00\x05\x00\x03d/a"),
];

/// After the install of `x`, a file of one block.
static APPLIED: [AppliedRequest; 4] = [
    (Action::CreateFile, b"d/b", b"", 0x00),
    (Action::RenameFile, b"d", b"e", 0x20),
    (Action::AppendFile, b"e/a", b"x", 0x30),
    (Action::DeleteFile, b"e/b", b"", 0x10),
];

/// The need, the steps, and the bounds of three paths.
type Answers = (u32, u32, [Option<u64>; 3]);

/// Before the install, and after the last request.
const AT_FIRST: Answers = (0, 0, [None, Some(0), None]);

const AT_LAST: Answers = (4, 10, [Some(120), None, Some(120)]);

/// What a view answers.
fn answers(view: &View<'_>, paths: &[Path; 3]) -> Answers {
    let bounds = [
        view.bound(&paths[0]),
        view.bound(&paths[1]),
        view.bound(&paths[2]),
    ];
    (view.need(), view.steps(), bounds)
}

/// Installs `x`: where there is no memory nothing has changed, and it is tried once more.
fn install(rt: &impl Abort, view: &mut View<'_>, paths: &[Path; 3]) -> Result<bool, Memory> {
    let before = answers(view, paths);
    match view.install(&paths[0], 120) {
        Ok(installed) => Ok(installed),
        Err(_) => {
            assert!(rt;
                answers(view, paths) == before,
                "an install that was out of memory"
            );
            view.install(&paths[0], 120)
        }
    }
}

/// Applies a request: where there is no memory nothing has changed, and it is tried once more.
fn apply(
    rt: &impl Abort,
    view: &mut View<'_>,
    paths: &[Path; 3],
    request: &Request,
) -> Result<Status, Memory> {
    let before = answers(view, paths);
    match view.apply(request) {
        Ok(replied) => Ok(replied),
        Err(_) => {
            assert!(rt;
                answers(view, paths) == before,
                "a request that was out of memory"
            );
            view.apply(request)
        }
    }
}

/// The paths of which a view is asked.
fn asked(alloc: Global) -> Result<[Path; 3], Memory> {
    let installed = path_of(alloc, b"x")?;
    let before = path_of(alloc, b"d/a")?;
    let moved = path_of(alloc, b"e/a")?;
    Ok([installed, before, moved])
}

/// Installs `x` and applies the requests.
fn install_and_apply(
    rt: &impl Abort,
    view: &mut View<'_>,
    paths: &[Path; 3],
    requests: &[Request],
) {
    assert!(rt; answers(view, paths) == AT_FIRST, "before the install");
    assert!(rt; install(rt, view, paths) == Ok(true), "the install");
    for (index, (request, (_, first, _, status))) in requests.iter().zip(&APPLIED).enumerate() {
        let replied = apply(rt, view, paths, request);
        assert!(rt;
            replied.map(Status::octet) == Ok(*status),
            "request {index}, on {}",
            first.escape_ascii()
        );
    }
    assert!(rt; answers(view, paths) == AT_LAST, "after the requests");
}

/// Tries them on a view of the store.
fn try_in(rt: &impl Abort, alloc: Global, scene: &Scene) -> Result<(), Memory> {
    let requests = requests(alloc, &APPLIED)?;
    let paths = asked(alloc)?;
    let leased = footprint(alloc, &requests, Some(&paths[0]))?;
    let mut view = View::of(alloc, &scene.store, &scene.protected, &leased)?;
    install_and_apply(rt, &mut view, &paths, &requests);
    Ok(())
}

/// All else that takes memory comes before the install and the requests, so that only one of these can be refused from
/// then on: that changes no answer, and the same is done when it is asked for again.
#[test]
fn a_refused_item_changes_nothing(rt: HostRuntime) -> Result<(), Memory> {
    let scene = Scene::new(&rt, rt.alloc(), 8, &BEFORE)?;
    try_in(&rt, rt.alloc(), &scene)
}
