//! A table that is full, and names that are remembered or forgotten.

use super::{Actor, Input, Scene, all_hold, each_input_holds};
use std::alloc::AllocError;

static FORGOTTEN: Scene = Scene {
    name: "undefined",
    is_acknowledged: true,
    before: &[
        Input::Metadata,
        Input::Cancel,
        Input::Finish,
        Input::AckFinished,
        Input::Forget,
    ],
    cases: &[
        (
            Input::Metadata,
            "\
            tell metadata 1/5\n\
            1/5 admitted blocks 2 steps 2\n",
            "receiving",
        ),
        (Input::Data, "1/5 unknown\n", "undefined"),
        (
            Input::Eof,
            "\
            send 28000300010502064001\n\
            send 2800190001050208000000000000000f0000000000000000000000000000000f\n\
            tell eof 1/5\n\
            1/5 held\n",
            "held",
        ),
        (
            Input::EofCancel,
            "\
            send 280003000105020640f0\n\
            1/5 unknown\n",
            "undefined",
        ),
        (Input::AckFinished, "1/5 idle\n", "undefined"),
        (Input::PromptNak, "1/5 idle\n", "undefined"),
        (Input::Cancel, "1/5 unknown\n", "undefined"),
        (Input::AllData, "1/5 unknown\n", "undefined"),
        (Input::AckEof, "1/5 idle\n", "undefined"),
        (Input::PromptKeepAlive, "1/5 idle\n", "undefined"),
        (Input::Nak, "pdu not-ours\n", "undefined"),
        (Input::KeepAlive, "pdu not-ours\n", "undefined"),
        (Input::Finished, "pdu not-ours\n", "undefined"),
        (Input::Time(&[9]), "", "undefined"),
        (Input::Work, "", "undefined"),
        (Input::Finish, "", "undefined"),
        (Input::Forget, "", "undefined"),
    ],
};

static REMEMBERED: Scene = Scene {
    name: "closed",
    is_acknowledged: true,
    before: &[
        Input::Metadata,
        Input::Cancel,
        Input::Finish,
        Input::AckFinished,
        Input::Closed(1, 127),
    ],
    cases: &[
        (Input::Metadata, "1/5 duplicate\n", "closed"),
        (
            Input::Eof,
            "\
            send 28000300010502064002\n\
            1/5 idle\n",
            "closed",
        ),
    ],
};

static DROPPED: Scene = Scene {
    name: "undefined",
    is_acknowledged: true,
    before: &[
        Input::Metadata,
        Input::Cancel,
        Input::Finish,
        Input::AckFinished,
        Input::Closed(1, 128),
    ],
    cases: &[
        (
            Input::Metadata,
            "\
            tell metadata 1/5\n\
            1/5 admitted blocks 2 steps 2\n",
            "receiving",
        ),
        (
            Input::EofCancel,
            "\
            send 280003000105020640f0\n\
            1/5 unknown\n",
            "undefined",
        ),
    ],
};

// 250 names of another source push out none of this one
static APART: Scene = Scene {
    name: "closed",
    is_acknowledged: true,
    before: &[
        Input::Metadata,
        Input::Cancel,
        Input::Finish,
        Input::AckFinished,
        Input::Closed(3, 250),
    ],
    cases: &[(Input::Metadata, "1/5 duplicate\n", "closed")],
};

static NO_PLACE: Scene = Scene {
    name: "none",
    is_acknowledged: true,
    before: &[Input::Sources(16)],
    cases: &[
        (Input::Metadata, "1/5 sources-full\n", "none"),
        (Input::Eof, "1/5 sources-full\n", "none"),
        (Input::Data, "1/5 unknown\n", "none"),
        (
            Input::EofCancel,
            "\
            send 280003000105020640f3\n\
            1/5 unknown\n",
            "none",
        ),
    ],
};

// all 16 places are taken, by sources without a session: forgetting makes room
static ROOM_AGAIN: Scene = Scene {
    name: "undefined",
    is_acknowledged: true,
    before: &[Input::Places(16), Input::Forget],
    cases: &[(
        Input::Metadata,
        "\
        tell metadata 1/5\n\
        1/5 admitted blocks 2 steps 2\n",
        "receiving",
    )],
};

static NO_PLACE_BUT_CLOSED: Scene = Scene {
    name: "none",
    is_acknowledged: true,
    before: &[Input::Places(16)],
    cases: &[(Input::Metadata, "1/5 sources-full\n", "none")],
};

// one place is left
static LAST_PLACE: Scene = Scene {
    name: "none",
    is_acknowledged: true,
    before: &[Input::Sources(15)],
    cases: &[(
        Input::Metadata,
        "\
        tell metadata 1/5\n\
        1/5 admitted blocks 2 steps 2\n",
        "receiving",
    )],
};

static FULL: Scene = Scene {
    name: "none",
    is_acknowledged: true,
    before: &[Input::Others(64)],
    cases: &[
        (Input::Metadata, "1/5 table-full\n", "none"),
        (Input::Data, "1/5 unknown\n", "none"),
        (Input::Eof, "1/5 table-full\n", "none"),
        (
            Input::EofCancel,
            "\
            send 280003000105020640f3\n\
            1/5 unknown\n",
            "none",
        ),
        (Input::AckEof, "1/5 idle\n", "none"),
        (Input::PromptNak, "1/5 idle\n", "none"),
        (Input::Cancel, "1/5 unknown\n", "none"),
        (Input::AllData, "1/5 unknown\n", "none"),
        (Input::AckFinished, "1/5 idle\n", "none"),
        (Input::PromptKeepAlive, "1/5 idle\n", "none"),
        (Input::Nak, "pdu not-ours\n", "none"),
        (Input::KeepAlive, "pdu not-ours\n", "none"),
        (Input::Finished, "pdu not-ours\n", "none"),
        (Input::Time(&[9]), "", "none"),
        (Input::Work, "", "none"),
        (Input::Finish, "", "none"),
        (Input::Forget, "", "undefined"),
    ],
};

static FULL_BUT_FOR_ONE: Scene = Scene {
    name: "none",
    is_acknowledged: true,
    before: &[Input::Others(63)],
    cases: &[
        (
            Input::Metadata,
            "\
            tell metadata 1/5\n\
            1/5 admitted blocks 2 steps 2\n",
            "receiving",
        ),
        (
            Input::Eof,
            "\
            send 28000300010502064001\n\
            send 2800190001050208000000000000000f0000000000000000000000000000000f\n\
            tell eof 1/5\n\
            1/5 held\n",
            "held",
        ),
    ],
};

static FULL_WITH_IT: Scene = Scene {
    name: "held",
    is_acknowledged: true,
    before: &[Input::Eof, Input::Others(63)],
    cases: &[
        (
            Input::Metadata,
            "\
            tell metadata 1/5\n\
            1/5 admitted blocks 2 steps 2\n",
            "awaiting",
        ),
        (
            Input::Eof,
            "\
            send 28000300010502064001\n\
            1/5 duplicate\n",
            "held",
        ),
    ],
};

static FULL_AND_CLOSED: Scene = Scene {
    name: "closed",
    is_acknowledged: true,
    before: &[
        Input::Metadata,
        Input::Cancel,
        Input::Finish,
        Input::AckFinished,
        Input::Others(64),
    ],
    cases: &[
        (Input::Metadata, "1/5 duplicate\n", "closed"),
        (
            Input::Eof,
            "\
            send 28000300010502064002\n\
            1/5 idle\n",
            "closed",
        ),
    ],
};

#[test]
fn names(rt: HostRuntime) -> Result<(), AllocError> {
    each_input_holds(&rt, rt.alloc(), &FORGOTTEN)?;
    all_hold(&rt, rt.alloc(), &REMEMBERED)?;
    all_hold(&rt, rt.alloc(), &DROPPED)?;
    all_hold(&rt, rt.alloc(), &APART)
}

#[test]
fn places(rt: HostRuntime) -> Result<(), AllocError> {
    all_hold(&rt, rt.alloc(), &NO_PLACE)?;
    all_hold(&rt, rt.alloc(), &NO_PLACE_BUT_CLOSED)?;
    all_hold(&rt, rt.alloc(), &ROOM_AGAIN)?;
    all_hold(&rt, rt.alloc(), &LAST_PLACE)
}

#[test]
fn numbers_of_one_octet_come_round(rt: HostRuntime) -> Result<(), AllocError> {
    let count = match Actor::new(rt.alloc(), true, 0)? {
        Some(mut actor) => actor.begun_in_turn(rt.alloc())?,
        None => 0,
    };
    assert!(&rt; count == 300, "{count} of 300 begin");
    Ok(())
}

#[test]
fn a_full_table(rt: HostRuntime) -> Result<(), AllocError> {
    each_input_holds(&rt, rt.alloc(), &FULL)?;
    all_hold(&rt, rt.alloc(), &FULL_BUT_FOR_ONE)?;
    all_hold(&rt, rt.alloc(), &FULL_WITH_IT)?;
    all_hold(&rt, rt.alloc(), &FULL_AND_CLOSED)
}
