//! Calls at stages before the file is whole. What PDUs, cancels and time do there is in `.ci/cases/run/stages.txt`.

use super::{Input, Scene, all_hold};
use std::alloc::AllocError;

static NONE: Scene = Scene {
    name: "none",
    is_acknowledged: true,
    before: &[],
    cases: &[
        (Input::Work, "", "none"),
        (Input::Finish, "", "none"),
        (Input::Forget, "", "undefined"),
    ],
};

static NONE_UNACKNOWLEDGED: Scene = Scene {
    name: "none",
    is_acknowledged: false,
    before: &[],
    cases: &[
        (Input::Work, "", "none"),
        (Input::Finish, "", "none"),
        (Input::Forget, "", "undefined"),
    ],
};

static HELD: Scene = Scene {
    name: "held",
    is_acknowledged: true,
    before: &[Input::Eof],
    cases: &[
        (Input::Work, "", "held"),
        (Input::Finish, "", "held"),
        (Input::Forget, "", "held"),
    ],
};

static RECEIVING: Scene = Scene {
    name: "receiving",
    is_acknowledged: true,
    before: &[Input::Metadata, Input::Data],
    cases: &[
        (Input::Work, "", "receiving"),
        (Input::Finish, "", "receiving"),
        (Input::Forget, "", "receiving"),
    ],
};

static RECEIVING_UNACKNOWLEDGED: Scene = Scene {
    name: "receiving",
    is_acknowledged: false,
    before: &[Input::Metadata, Input::Data],
    cases: &[
        (Input::Work, "", "receiving"),
        (Input::Finish, "", "receiving"),
        (Input::Forget, "", "receiving"),
    ],
};

static AWAITING: Scene = Scene {
    name: "awaiting",
    is_acknowledged: true,
    before: &[Input::Metadata, Input::Data, Input::Eof],
    cases: &[
        (Input::Work, "", "awaiting"),
        (Input::Finish, "", "awaiting"),
        (Input::Forget, "", "awaiting"),
    ],
};

static AWAITING_UNACKNOWLEDGED: Scene = Scene {
    name: "awaiting",
    is_acknowledged: false,
    before: &[Input::Metadata, Input::Data, Input::Eof],
    cases: &[
        (Input::Work, "", "awaiting"),
        (Input::Finish, "", "awaiting"),
        (Input::Forget, "", "awaiting"),
    ],
};

#[test]
fn calls(rt: HostRuntime) -> Result<(), AllocError> {
    for scene in [
        &NONE,
        &NONE_UNACKNOWLEDGED,
        &HELD,
        &RECEIVING,
        &RECEIVING_UNACKNOWLEDGED,
        &AWAITING,
        &AWAITING_UNACKNOWLEDGED,
    ] {
        all_hold(&rt, rt.alloc(), scene)?;
    }
    Ok(())
}
