//! Moves of a directory with many entries, on a view that has as many others.

use super::scene::{Before, Scene, request};
use super::views::{AppliedRequest, requests};
use cfdp_actions::{Request, perform};
use cfdp_leases::footprint;
use cfdp_paths::Memory;
use cfdp_states::View;
use cfdp_status::Action;
use std::alloc::Global;
use std::process::Abort;

/// This many that moves which compared each entry that stays with each that moves would not end in the time of a test.
const MANY: usize = 4_096;

/// Two directories.
static BEFORE: [Before; 2] = [
    Before::Performed(b"\x00\x07\x50\x05moves"),
    Before::Performed(b"\x00\x07\x50\x05stays"),
];

/// One moves there and back, and the other is leased too.
static MOVES: [AppliedRequest; 3] = [
    (Action::RenameFile, b"moves", b"moved", 0x20),
    (Action::RenameFile, b"moved", b"moves", 0x20),
    (Action::RemoveDirectory, b"stays", b"", 0x62),
];

/// Makes empty files in the directory.
fn fill(alloc: Global, scene: &mut Scene, directory: &str) -> Result<(), Memory> {
    for number in 0..MANY {
        let name = format!(in alloc; "{directory}/{number}")?;
        let create = request(alloc, Action::CreateFile, name.as_bytes(), b"")?;
        perform(&mut scene.store, &scene.protected, &create)?;
    }
    Ok(())
}

/// Moves one directory there and back.
fn apply(view: &mut View<'_>, requests: &[Request]) -> Result<bool, Memory> {
    for (request, (_, _, _, status)) in requests.iter().zip(&MOVES) {
        if view.apply(request)?.octet() != *status {
            return Ok(false);
        }
    }
    Ok(true)
}

/// Moves it 32 times on a view of the store.
fn move_often(rt: &impl Abort, alloc: Global, scene: &Scene) -> Result<(), Memory> {
    let requests = requests(alloc, &MOVES)?;
    let leased = footprint(alloc, &requests, None)?;
    let mut view = View::of(alloc, &scene.store, &scene.protected, &leased)?;
    for number in 0..32 {
        let holds = apply(&mut view, &requests)?;
        assert!(rt; holds, "round {number} of MOVES: a status differs");
    }
    assert!(rt;
        view.need() == 0 && view.steps() == 128,
        "need {}, steps {}",
        view.need(),
        view.steps()
    );
    Ok(())
}

#[test]
fn many_entries_move_often(rt: HostRuntime) -> Result<(), Memory> {
    let mut scene = Scene::new(&rt, rt.alloc(), 16_384, &BEFORE)?;
    fill(rt.alloc(), &mut scene, "moves")?;
    fill(rt.alloc(), &mut scene, "stays")?;
    move_often(&rt, rt.alloc(), &scene)
}
