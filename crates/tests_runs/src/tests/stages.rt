//! Inputs at stages of a transaction: what is sent and indicated, what became of the input, and how far the transaction
//! is then. The modules below have the cases that no script meets, since it leaves nothing to be performed or handed
//! out between two lines; what is due is what `docs/FORMATS.md` says of the inputs of the receiver. The others are
//! text, in `.ci/cases/run/stages.txt`.

mod begun;
mod ended;
mod limits;

use super::actor::{Actor, Input};
use std::alloc::{AllocError, Global};
use std::process::Abort;

/// An input, the text of what is answered, and how far the transaction is then.
type Case = (Input, &'static str, &'static str);

/// A stage: what leads to it, whether that is in acknowledged mode, and what each input does there.
struct Scene {
    name: &'static str,
    is_acknowledged: bool,
    before: &'static [Input],
    cases: &'static [Case],
}

/// Each PDU, with its name.
static PDUS: [Input; 12] = [
    Input::Metadata,
    Input::Data,
    Input::AllData,
    Input::Eof,
    Input::EofCancel,
    Input::AckEof,
    Input::AckFinished,
    Input::PromptNak,
    Input::PromptKeepAlive,
    Input::Nak,
    Input::KeepAlive,
    Input::Finished,
];

/// All else that comes, or is asked for.
static CALLS: [Input; 5] = [
    Input::Time(&[]),
    Input::Work,
    Input::Finish,
    Input::Cancel,
    Input::Forget,
];

/// A receiver with the transaction at a stage.
fn at_stage(alloc: Global, scene: &Scene) -> Result<Option<Actor>, AllocError> {
    let Some(mut actor) = Actor::new(alloc, scene.is_acknowledged, 0)? else {
        return Ok(None);
    };
    for earlier in scene.before {
        actor.take(alloc, *earlier)?;
    }
    Ok(Some(actor))
}

/// Each input of a scene has its text, and leads where it has to.
fn all_hold<R: Abort + Print>(rt: &R, alloc: Global, scene: &Scene) -> Result<(), AllocError> {
    let name = scene.name;
    for (number, (input, text, after)) in scene.cases.iter().enumerate() {
        let case = input.name();
        let Some(mut actor) = at_stage(alloc, scene)? else {
            assert!(rt; false, "{name}: no receiver for case {number}, {case}");
            continue;
        };
        assert_eq!(rt;
            actor.stage(),
            name,
            "{name}: the stage before case {number}, {case}"
        );
        actor.take(alloc, *input)?;
        let written = str::from_utf8(&actor.text).unwrap_or("no text");
        assert_eq!(rt; written, *text, "{name}: case {number}, {case}");
        assert_eq!(rt;
            actor.stage(),
            *after,
            "{name}: the stage after case {number}, {case}"
        );
    }
    Ok(())
}

/// A scene has a case for each input, and all hold.
fn each_input_holds<R: Abort + Print>(
    rt: &R,
    alloc: Global,
    scene: &Scene,
) -> Result<(), AllocError> {
    let name = scene.name;
    for input in PDUS.iter().chain(CALLS.iter()) {
        let sought = input.name();
        let is_there = scene.cases.iter().any(|(case, _, _)| case.name() == sought);
        assert!(rt; is_there, "{name}: no case of {sought}");
    }
    all_hold(rt, alloc, scene)
}
