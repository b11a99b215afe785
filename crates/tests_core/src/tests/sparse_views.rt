//! Views of what a list sees, beside views of all that is leased and beside the filestore itself. The lists are made at
//! random, and most of their requests are successful.

ghost use Rattle.std.specs.Prelude.{◌<◌};

use super::scene::{Scene, request};
use cfdp_actions::{Filestore, Performed, Request, perform, refusal};
use cfdp_leases::{Footprint, footprint};
use cfdp_paths::{Memory, Path};
use cfdp_states::{SparseView, View};
use cfdp_status::{Action, Status};
use std::alloc::Global;
use std::process::Abort;

/// Numbers that look random, the same at each run: the high bits of a linear congruential generator.
#[derive(Drop)]
struct Random {
    state: u64,
}

impl Random {
    /// The next number below `end`.
    fn below(&mut self, end: u64) -> u64
        requires { 0 < end }
        ensures { result < end }
    {
        self.state = self
            .state
            .wrapping_mul(6_364_136_223_846_793_005)
            .wrapping_add(1_442_695_040_888_963_407);
        (self.state >> 33) % end
    }

    /// A request, which may be refused.
    fn request(&mut self, alloc: Global) -> Result<Request, Memory> {
        let action = ACTIONS[self.below(16) as usize];
        let first = NAMES[self.below(28) as usize];
        let second = NAMES[self.below(28) as usize];
        let second = if action.has_second() { second } else { b"" };
        request(alloc, action, first, second)
    }
}

impl Random {
    /// A request that moves a directory, where it is not refused.
    fn move_request(&mut self, alloc: Global) -> Result<Request, Memory> {
        let from = DIRECTORIES[self.below(6) as usize];
        let to = NEW_NAMES[self.below(6) as usize];
        request(alloc, Action::RenameFile, from, to)
    }
}

/// What moves.
static DIRECTORIES: [&[u8]; 6] = [b"a", b"b", b"c", b"f", b"a/a", b"b/a"];

/// Where it moves to.
static NEW_NAMES: [&[u8]; 6] = [b"e", b"f", b"g", b"a/f", b"b/a/f", b"a/a/a/f"];

/// Most make something or move it.
static ACTIONS: [Action; 16] = [
    Action::CreateDirectory,
    Action::CreateDirectory,
    Action::CreateDirectory,
    Action::CreateFile,
    Action::CreateFile,
    Action::CreateFile,
    Action::RenameFile,
    Action::RenameFile,
    Action::RenameFile,
    Action::RenameFile,
    Action::DeleteFile,
    Action::AppendFile,
    Action::ReplaceFile,
    Action::RemoveDirectory,
    Action::DenyFile,
    Action::DenyDirectory,
];

/// The last one is as deep as a path may be.
static NAMES: [&[u8]; 28] = [
    b"a",
    b"b",
    b"c",
    b"d",
    b"e",
    b"x",
    b"a/a",
    b"a/b",
    b"a/x",
    b"b/a",
    b"b/x",
    b"c/a",
    b"c/x",
    b"d/x",
    b"e/x",
    b"f/x",
    b"f/a",
    b"a/f/x",
    b"a/a/a",
    b"a/a/x",
    b"b/a/a",
    b"b/a/x",
    b"a/a/a/a",
    b"a/a/a/a/a",
    b"a/a/a/a/a/a",
    b"b/a/a/a/a",
    b"a/a/a/a/a/a/a",
    b"a/a/a/a/a/a/a/a",
];

/// A list and the statuses that it has on the filestore.
#[derive(Drop)]
struct List {
    requests: Vec<Request>,
    statuses: Vec<Status>,
    /// Whether it moves a directory that has entries.
    moves_entries: bool,
}

/// How a list went on a view of what it sees.
#[derive(Clone, Copy, PartialEq, Eq)]
enum Went {
    /// To its end, with no move of a directory that has entries.
    Whole,
    /// To its end, with such a move.
    Moved,
    /// To its end, and it names something that is in a directory that it changes.
    Inside,
    /// Up to a request that is not successful.
    Refused,
    /// Up to a request of which the view can't say.
    Unseen,
}

/// How many lists went so.
#[derive(Drop)]
struct Counts {
    whole: u32,
    moved: u32,
    inside: u32,
    refused: u32,
    unseen: u32,
}

impl Counts {
    fn add(&mut self, went: Went) {
        let count = match went {
            Went::Whole => &mut self.whole,
            Went::Moved => &mut self.moved,
            Went::Inside => &mut self.inside,
            Went::Refused => &mut self.refused,
            Went::Unseen => &mut self.unseen,
        };
        *count = count.saturating_add(1);
    }
}

/// Performs requests on the scene's store.
fn fill(alloc: Global, random: &mut Random, scene: &mut Scene) -> Result<(), Memory> {
    for _ in 0..60 {
        let request = random.request(alloc)?;
        perform(&mut scene.store, &scene.protected, &request)?;
    }
    Ok(())
}

/// A store with some directories, which is the same for the same seed.
fn filled(rt: &impl Abort, alloc: Global, seed: u64) -> Result<Scene, Memory> {
    let mut random = Random { state: seed };
    let mut scene = Scene::new(rt, alloc, 256, &[])?;
    fill(alloc, &mut random, &mut scene)?;
    Ok(scene)
}

/// Performs the request on the store and puts it at the end of the list.
fn push(list: &mut List, scene: &mut Scene, request: Request) -> Result<(), Memory> {
    let has_entries = scene.store.has_entries(request.first());
    let Performed { status, .. } = perform(&mut scene.store, &scene.protected, &request)?;
    if has_entries && status == Status::Successful(Action::RenameFile) {
        list.moves_entries = true;
    }
    list.requests.push(request)?;
    list.statuses.push(status)?;
    Ok(())
}

/// A list of at most 6 requests, performed on the store: one in 200 of those that are refused is in it.
fn list_of(alloc: Global, random: &mut Random, scene: &mut Scene) -> Result<List, Memory> {
    let mut list = List {
        requests: Vec::new(alloc),
        statuses: Vec::new(alloc),
        moves_entries: false,
    };
    for number in 0..120 {
        let request = if number % 3 == 0 {
            random.move_request(alloc)?
        } else {
            random.request(alloc)?
        };
        let is_wanted = refusal(&scene.store, &request).is_none() || random.below(200) == 0;
        if is_wanted && list.requests.len() < 6 {
            push(&mut list, scene, request)?;
        }
    }
    Ok(list)
}

/// Denials of files that do not exist are put at the end of the list. Each path has eight names, so the list sees over
/// 128 paths: if it moves what it names, its view keeps them by their names.
fn lengthen(alloc: Global, list: &mut List, scene: &mut Scene) -> Result<(), Memory> {
    for number in 0..20 {
        let path = format!(in alloc; "p/{number}/1/2/3/4/5/6")?;
        let denial = request(alloc, Action::DenyFile, path.as_bytes(), b"")?;
        push(list, scene, denial)?;
    }
    Ok(())
}

/// Whether both views describe the same need and steps.
fn is_same(open: &View<'_>, sparse: &View<'_>) -> bool {
    open.need() == sparse.need()
        && open.steps() == sparse.steps()
        && open.needs_at_most(1) == sparse.needs_at_most(1)
}

/// Applies the list to both views, up to the first request that is not successful or of which the second one can't
/// say.
fn apply(
    rt: &impl Abort,
    open: &mut View<'_>,
    sparse: &mut SparseView<'_>,
    list: &List,
    seed: u64,
) -> Result<Went, Memory> {
    for (number, (request, status)) in list.requests.iter().zip(&list.statuses).enumerate() {
        let replied = open.apply(request)?;
        assert!(rt;
            replied == *status,
            "seed {seed}: request {number}, whole view"
        );
        match sparse.apply(request)? {
            None => return Ok(Went::Unseen),
            Some(replied) => assert!(rt;
                replied == *status,
                "seed {seed}: request {number}, sparse view"
            ),
        }
        if !status.is_successful() {
            return Ok(Went::Refused);
        }
    }
    if list.moves_entries {
        Ok(Went::Moved)
    } else {
        Ok(Went::Whole)
    }
}

/// Whether the request names a path below the directory, which has entries.
fn is_inside(scene: &Scene, directory: &Path, request: &Request) -> bool {
    let is_below = match request.second() {
        None => request.first().is_below(directory),
        Some(second) => request.first().is_below(directory) || second.is_below(directory),
    };
    is_below && scene.store.has_entries(directory)
}

/// Whether the list names something that is in a directory that it changes, as things are before it.
fn names_inside(scene: &Scene, leased: &Footprint, list: &List) -> bool {
    for directory in leased.exclusive() {
        for request in &list.requests {
            if is_inside(scene, directory, request) {
                return true;
            }
        }
    }
    false
}

/// Compares a list on two views of the store.
fn compare(
    rt: &impl Abort,
    alloc: Global,
    scene: &Scene,
    list: &List,
    seed: u64,
) -> Result<Went, Memory> {
    let leased = footprint(alloc, &list.requests, None)?;
    let mut open = View::of(alloc, &scene.store, &scene.protected, &leased)?;
    let made = SparseView::of(
        alloc,
        &scene.store,
        &scene.protected,
        &leased,
        None,
        &list.requests,
    )?;
    let Some(mut sparse) = made else {
        assert!(rt; false, "seed {seed}: no view");
        return Ok(Went::Unseen);
    };
    let went = apply(rt, &mut open, &mut sparse, list, seed)?;
    let sparse = sparse.into_view();
    assert!(rt;
        went == Went::Unseen || is_same(&open, &sparse),
        "seed {seed}: the need and the steps of both"
    );
    let is_whole = went == Went::Whole || went == Went::Moved;
    if is_whole && names_inside(scene, &leased, list) {
        return Ok(Went::Inside);
    }
    Ok(went)
}

/// Compares one list on a store that is filled by the seed. Each second list is long.
fn compare_one(rt: &impl Abort, alloc: Global, seed: u64) -> Result<Went, Memory> {
    let scene = filled(rt, alloc, seed)?;
    let mut after = filled(rt, alloc, seed)?;
    let mut random = Random {
        state: seed.wrapping_add(1),
    };
    let mut list = list_of(alloc, &mut random, &mut after)?;
    if seed % 2 == 1 {
        lengthen(alloc, &mut list, &mut after)?;
    }
    compare(rt, alloc, &scene, &list, seed)
}

/// Most lists go to their end. Some name what is in a directory that they move or remove: the view says how each of
/// these goes, too.
#[test]
fn random_lists_go_alike_on_both_views(rt: HostRuntime) -> Result<(), Memory> {
    let mut counts = Counts {
        whole: 0,
        moved: 0,
        inside: 0,
        refused: 0,
        unseen: 0,
    };
    for seed in 0..600u64 {
        counts.add(compare_one(&rt, rt.alloc(), seed)?);
    }
    assert!(rt;
        counts.whole > 300 && counts.moved > 80,
        "{} whole, {} moved",
        counts.whole,
        counts.moved
    );
    assert!(rt;
        counts.refused > 50 && counts.inside > 50,
        "{} refused, {} inside",
        counts.refused,
        counts.inside
    );
    assert!(rt; counts.unseen == 0, "{} not seen", counts.unseen);
    Ok(())
}
