//! Transactions that run out of memory: only a receiver that is made, a Metadata PDU and an outcome that is taken ask
//! for some. After a refusal nothing has changed, and the call can be made again (`rt try --test --fail-alloc 1..`
//! refuses each call in turn). `lines` has the same for the lines of a script.

mod lines;

use super::actor::{Actor, Input};
use std::alloc::{AllocError, Global};
use std::process::Abort;

/// Inputs, and the text of each answer.
type Steps = &'static [(Input, &'static str)];

/// A file that is created beside the one that comes.
const WITH_A_REQUEST: Input = Input::Pdu("20000f0001050207400000000f017301660003000167");

/// A list that would fail: a file is deleted that is not there.
const WOULD_FAIL: Input = Input::Pdu("200013000105020740000000000000000910076e6f7468696e67");

/// A list of too many requests, which the core does not keep.
const TOO_MANY: Input = Input::Pdu(
    "\
    2001860001050207400000000f0173016600037001300003700131000370013200037001330003700134000370013500\
    037001360003700137000370013800037001390004700231300004700231310004700231320004700231330004700231\
    340004700231350004700231360004700231370004700231380004700231390004700232300004700232310004700232\
    320004700232330004700232340004700232350004700232360004700232370004700232380004700232390004700233\
    300004700233310004700233320004700233330004700233340004700233350004700233360004700233370004700233\
    380004700233390004700234300004700234310004700234320004700234330004700234340004700234350004700234\
    360004700234370004700234380004700234390004700235300004700235310004700235320004700235330004700235\
    340004700235350004700235360004700235370004700235380004700235390004700236300004700236310004700236\
    32000470023633000470023634",
);

/// A Metadata PDU that does not ask for closure.
const UNCLOSED: Input = Input::Pdu("20000a0001050207000000000f01730166");

const WITH_REQUEST: Steps = &[
    (
        WITH_A_REQUEST,
        "\
            tell metadata 1/5\n\
            1/5 admitted blocks 3 steps 4\n",
    ),
    (
        Input::AllData,
        "\
            tell segment 1/5 0 15\n\
            1/5 stored\n",
    ),
    (
        Input::Eof,
        "\
            send 28000300010502064001\n\
            tell eof 1/5\n\
            1/5 complete\n",
    ),
    (Input::Work, "1/5 installed\n"),
    (Input::Work, "1/5 performed 00\n"),
    (
        Input::Finish,
        "\
            send 280008000105020502010400016700\n\
            tell finished 1/5 0 complete 2\n\
            1/5 finished\n",
    ),
    (Input::Metadata, "1/5 duplicate\n"),
    (Input::AckFinished, "1/5 acknowledged\n"),
    (WITH_A_REQUEST, "1/5 duplicate\n"),
];

const HELD: Steps = &[
    (
        Input::Eof,
        "\
            send 28000300010502064001\n\
            send 2800190001050208000000000000000f0000000000000000000000000000000f\n\
            tell eof 1/5\n\
            1/5 held\n",
    ),
    (
        Input::Metadata,
        "\
            tell metadata 1/5\n\
            1/5 admitted blocks 2 steps 2\n",
    ),
    (Input::Metadata, "1/5 duplicate\n"),
    (
        Input::AllData,
        "\
            tell segment 1/5 0 15\n\
            1/5 complete\n",
    ),
    (Input::Work, "1/5 installed\n"),
    (
        Input::Finish,
        "\
            send 280002000105020502\n\
            tell finished 1/5 0 complete 2\n\
            1/5 finished\n",
    ),
];

const FAILING: Steps = &[
    (
        WOULD_FAIL,
        "\
            tell metadata 1/5\n\
            1/5 refused would-fail 0 11\n",
    ),
    (
        Input::Finish,
        "\
            send 280011000105020547010a1f076e6f7468696e6700060102\n\
            tell finished 1/5 4 incomplete 3\n\
            1/5 finished\n",
    ),
];

const TOO_LONG: Steps = &[
    (
        TOO_MANY,
        "\
            tell metadata 1/5\n\
            1/5 refused too-many-requests\n",
    ),
    (
        Input::Finish,
        "\
            send 280005000105020547060102\n\
            tell finished 1/5 4 incomplete 3\n\
            1/5 finished\n",
    ),
];

const HELD_AND_TOO_LONG: Steps = &[
    (
        Input::Eof,
        "\
            send 28000300010502064001\n\
            send 2800190001050208000000000000000f0000000000000000000000000000000f\n\
            tell eof 1/5\n\
            1/5 held\n",
    ),
    (
        TOO_MANY,
        "\
            tell metadata 1/5\n\
            1/5 refused too-many-requests\n",
    ),
    (
        Input::Finish,
        "\
            send 280005000105020547060102\n\
            tell finished 1/5 4 incomplete 3\n\
            1/5 finished\n",
    ),
];

const HELD_AND_CANCELLED: Steps = &[
    (
        Input::Eof,
        "\
            send 28000300010502064001\n\
            send 2800190001050208000000000000000f0000000000000000000000000000000f\n\
            tell eof 1/5\n\
            1/5 held\n",
    ),
    (Input::Cancel, "1/5 cancelled\n"),
    (
        Input::Finish,
        "\
            send 2800050001050205f7060102\n\
            tell finished 1/5 15 incomplete 3\n\
            1/5 finished\n",
    ),
];

const UNACKNOWLEDGED: Steps = &[
    (
        Input::Metadata,
        "\
            tell metadata 1/5\n\
            1/5 admitted blocks 2 steps 2\n",
    ),
    (
        Input::AllData,
        "\
            tell segment 1/5 0 15\n\
            1/5 stored\n",
    ),
    (
        Input::Eof,
        "\
            tell eof 1/5\n\
            1/5 complete\n",
    ),
    (Input::Work, "1/5 installed\n"),
    (
        Input::Finish,
        "\
            send 2c0002000105020502\n\
            tell finished 1/5 0 complete 2\n\
            1/5 closed\n",
    ),
    (Input::Metadata, "1/5 duplicate\n"),
];

const WITHOUT_CLOSURE: Steps = &[
    (
        UNCLOSED,
        "\
            tell metadata 1/5\n\
            1/5 admitted blocks 2 steps 2\n",
    ),
    (Input::Cancel, "1/5 cancelled\n"),
    (
        Input::Finish,
        "\
            tell finished 1/5 15 incomplete 0\n\
            1/5 closed\n",
    ),
];

/// Each step is answered by its text, and nothing has changed where it was out of memory.
fn all_hold<R: Abort + Print>(
    rt: &R,
    alloc: Global,
    name: &str,
    is_acknowledged: bool,
    steps: Steps,
) -> Result<(), AllocError> {
    let Some(mut actor) = Actor::new(alloc, is_acknowledged, 10_000)? else {
        assert!(rt; false, "{name}: no receiver");
        return Ok(());
    };
    for (number, (input, text)) in steps.iter().enumerate() {
        actor.take(alloc, *input)?;
        let written = str::from_utf8(&actor.text).unwrap_or("no text");
        assert_eq!(rt; written, *text, "{name}: step {number}");
        assert!(rt;
            !actor.has_changed,
            "{name}: step {number} changed something before it was out of memory"
        );
    }
    Ok(())
}

#[test]
fn requests(rt: HostRuntime) -> Result<(), AllocError> {
    all_hold(&rt, rt.alloc(), "with a request", true, WITH_REQUEST)?;
    all_hold(&rt, rt.alloc(), "a list that would fail", true, FAILING)
}

#[test]
fn held(rt: HostRuntime) -> Result<(), AllocError> {
    all_hold(&rt, rt.alloc(), "held", true, HELD)
}

#[test]
fn without_an_entry(rt: HostRuntime) -> Result<(), AllocError> {
    all_hold(&rt, rt.alloc(), "too long", true, TOO_LONG)?;
    all_hold(
        &rt,
        rt.alloc(),
        "held and too long",
        true,
        HELD_AND_TOO_LONG,
    )?;
    all_hold(
        &rt,
        rt.alloc(),
        "held and cancelled",
        true,
        HELD_AND_CANCELLED,
    )
}

#[test]
fn unacknowledged(rt: HostRuntime) -> Result<(), AllocError> {
    all_hold(&rt, rt.alloc(), "unacknowledged", false, UNACKNOWLEDGED)?;
    all_hold(&rt, rt.alloc(), "without closure", false, WITHOUT_CLOSURE)
}
