//! Stages after the file is whole, or after the transaction ended: each input where it is executed or over, and calls
//! where it waits or is closed. What PDUs, cancels and time do there is in `.ci/cases/run/stages.txt`.

use super::{Input, Scene, all_hold, each_input_holds};
use std::alloc::AllocError;

static EXECUTING: Scene = Scene {
    name: "executing",
    is_acknowledged: true,
    before: &[Input::Metadata, Input::AllData, Input::Eof],
    cases: &[
        (Input::Metadata, "1/5 duplicate\n", "executing"),
        (Input::Data, "1/5 idle\n", "executing"),
        (
            Input::Eof,
            "\
            send 28000300010502064001\n\
            1/5 duplicate\n",
            "executing",
        ),
        (
            Input::EofCancel,
            "\
            send 280003000105020640f1\n\
            1/5 faulted 15\n",
            "over",
        ),
        (Input::AckEof, "1/5 idle\n", "executing"),
        (Input::AckFinished, "1/5 idle\n", "executing"),
        (Input::Time(&[15]), "", "executing"),
        (Input::Time(&[25]), "", "executing"),
        (Input::Time(&[1000]), "", "executing"),
        (Input::Work, "1/5 installed\n", "over"),
        (Input::Finish, "", "executing"),
        (Input::PromptNak, "1/5 idle\n", "executing"),
        (Input::PromptKeepAlive, "1/5 idle\n", "executing"),
        (Input::Nak, "pdu not-ours\n", "executing"),
        (Input::KeepAlive, "pdu not-ours\n", "executing"),
        (Input::Finished, "pdu not-ours\n", "executing"),
        (Input::Cancel, "1/5 cancelled\n", "over"),
        (Input::AllData, "1/5 idle\n", "executing"),
        (Input::Forget, "", "executing"),
    ],
};

static LIST_BEGUN: Scene = Scene {
    name: "executing",
    is_acknowledged: true,
    before: &[
        // With a request that creates the file "g".
        Input::Pdu("20000f0001050207400000000f017301660003000167"),
        Input::AllData,
        Input::Eof,
        Input::Work,
    ],
    cases: &[
        (Input::Metadata, "1/5 duplicate\n", "executing"),
        (Input::Data, "1/5 idle\n", "executing"),
        (
            Input::Eof,
            "\
            send 28000300010502064001\n\
            1/5 duplicate\n",
            "executing",
        ),
        (
            Input::EofCancel,
            "\
            send 280003000105020640f1\n\
            1/5 list-begun\n",
            "executing",
        ),
        (Input::AckEof, "1/5 idle\n", "executing"),
        (Input::AckFinished, "1/5 idle\n", "executing"),
        (Input::Time(&[1000]), "", "executing"),
        (Input::Work, "1/5 performed 00\n", "over"),
        (Input::Finish, "", "executing"),
        (Input::PromptNak, "1/5 idle\n", "executing"),
        (Input::PromptKeepAlive, "1/5 idle\n", "executing"),
        (Input::Nak, "pdu not-ours\n", "executing"),
        (Input::KeepAlive, "pdu not-ours\n", "executing"),
        (Input::Finished, "pdu not-ours\n", "executing"),
        (Input::Cancel, "1/5 list-begun\n", "executing"),
        (Input::AllData, "1/5 idle\n", "executing"),
        (Input::Forget, "", "executing"),
    ],
};

// A list that has begun goes on to its end, whoever cancels it.

static FINISHED_AFTER_ITS_SENDERS_CANCEL: Scene = Scene {
    name: "over",
    is_acknowledged: true,
    before: &[
        Input::Pdu("20000f0001050207400000000f017301660003000167"),
        Input::AllData,
        Input::Eof,
        Input::Work,
        Input::EofCancel,
        Input::Work,
    ],
    cases: &[(
        Input::Finish,
        "\
        send 280008000105020502010400016700\n\
        tell finished 1/5 0 complete 2\n\
        1/5 finished\n",
        "waiting",
    )],
};

static FINISHED_AFTER_A_CANCEL: Scene = Scene {
    name: "over",
    is_acknowledged: true,
    before: &[
        Input::Pdu("20000f0001050207400000000f017301660003000167"),
        Input::AllData,
        Input::Eof,
        Input::Work,
        Input::Cancel,
        Input::Work,
    ],
    cases: &[(
        Input::Finish,
        "\
        send 280008000105020502010400016700\n\
        tell finished 1/5 0 complete 2\n\
        1/5 finished\n",
        "waiting",
    )],
};

static ENDED: Scene = Scene {
    name: "over",
    is_acknowledged: true,
    before: &[Input::Metadata, Input::Cancel],
    cases: &[
        (Input::Metadata, "1/5 duplicate\n", "over"),
        (Input::Data, "1/5 idle\n", "over"),
        (
            Input::Eof,
            "\
            send 28000300010502064001\n\
            1/5 idle\n",
            "over",
        ),
        (
            Input::EofCancel,
            "\
            send 280003000105020640f1\n\
            1/5 idle\n",
            "over",
        ),
        (Input::AckEof, "1/5 idle\n", "over"),
        (Input::AckFinished, "1/5 idle\n", "over"),
        (Input::Time(&[15]), "", "over"),
        (Input::Time(&[105]), "", "over"),
        (Input::Time(&[1000]), "", "over"),
        (Input::Work, "", "over"),
        (
            Input::Finish,
            "\
            send 2800050001050205f4060102\n\
            tell finished 1/5 15 incomplete 0\n\
            1/5 finished\n",
            "waiting",
        ),
        (Input::PromptNak, "1/5 idle\n", "over"),
        (Input::PromptKeepAlive, "1/5 idle\n", "over"),
        (Input::Nak, "pdu not-ours\n", "over"),
        (Input::KeepAlive, "pdu not-ours\n", "over"),
        (Input::Finished, "pdu not-ours\n", "over"),
        (Input::Cancel, "1/5 idle\n", "over"),
        (Input::AllData, "1/5 idle\n", "over"),
        (Input::Forget, "", "over"),
    ],
};

static DONE: Scene = Scene {
    name: "over",
    is_acknowledged: true,
    before: &[Input::Metadata, Input::AllData, Input::Eof, Input::Work],
    cases: &[
        (Input::Metadata, "1/5 duplicate\n", "over"),
        (Input::Data, "1/5 idle\n", "over"),
        (
            Input::Eof,
            "\
            send 28000300010502064001\n\
            1/5 idle\n",
            "over",
        ),
        (
            Input::EofCancel,
            "\
            send 280003000105020640f1\n\
            1/5 idle\n",
            "over",
        ),
        (Input::AckEof, "1/5 idle\n", "over"),
        (Input::AckFinished, "1/5 idle\n", "over"),
        (Input::Time(&[15]), "", "over"),
        (Input::Time(&[105]), "", "over"),
        (Input::Time(&[1000]), "", "over"),
        (Input::Work, "", "over"),
        (
            Input::Finish,
            "\
            send 280002000105020502\n\
            tell finished 1/5 0 complete 2\n\
            1/5 finished\n",
            "waiting",
        ),
        (Input::PromptNak, "1/5 idle\n", "over"),
        (Input::PromptKeepAlive, "1/5 idle\n", "over"),
        (Input::Nak, "pdu not-ours\n", "over"),
        (Input::KeepAlive, "pdu not-ours\n", "over"),
        (Input::Finished, "pdu not-ours\n", "over"),
        (Input::Cancel, "1/5 idle\n", "over"),
        (Input::AllData, "1/5 idle\n", "over"),
        (Input::Forget, "", "over"),
    ],
};

static FAULTED: Scene = Scene {
    name: "over",
    is_acknowledged: true,
    before: &[Input::Metadata, Input::Time(&[105])],
    cases: &[
        (Input::Metadata, "1/5 duplicate\n", "over"),
        (Input::Data, "1/5 idle\n", "over"),
        (
            Input::Eof,
            "\
            send 28000300010502064001\n\
            1/5 idle\n",
            "over",
        ),
        (
            Input::EofCancel,
            "\
            send 280003000105020640f1\n\
            1/5 idle\n",
            "over",
        ),
        (Input::AckEof, "1/5 idle\n", "over"),
        (Input::AckFinished, "1/5 idle\n", "over"),
        (Input::Time(&[115]), "", "over"),
        (Input::Time(&[1000]), "", "over"),
        (Input::Work, "", "over"),
        (
            Input::Finish,
            "\
            send 280005000105020584060102\n\
            tell finished 1/5 8 incomplete 0\n\
            1/5 finished\n",
            "waiting",
        ),
        (Input::PromptNak, "1/5 idle\n", "over"),
        (Input::PromptKeepAlive, "1/5 idle\n", "over"),
        (Input::Nak, "pdu not-ours\n", "over"),
        (Input::KeepAlive, "pdu not-ours\n", "over"),
        (Input::Finished, "pdu not-ours\n", "over"),
        (Input::Cancel, "1/5 idle\n", "over"),
        (Input::AllData, "1/5 idle\n", "over"),
        (Input::Forget, "", "over"),
    ],
};

static HELD_AND_CANCELLED: Scene = Scene {
    name: "over",
    is_acknowledged: true,
    before: &[Input::Eof, Input::Cancel],
    cases: &[
        (Input::Metadata, "1/5 duplicate\n", "over"),
        (Input::Data, "1/5 idle\n", "over"),
        (
            Input::Eof,
            "\
            send 28000300010502064001\n\
            1/5 idle\n",
            "over",
        ),
        (
            Input::EofCancel,
            "\
            send 280003000105020640f1\n\
            1/5 idle\n",
            "over",
        ),
        (Input::AckEof, "1/5 idle\n", "over"),
        (Input::AckFinished, "1/5 idle\n", "over"),
        (Input::Time(&[15]), "", "over"),
        (Input::Time(&[105]), "", "over"),
        (Input::Time(&[1000]), "", "over"),
        (Input::Work, "", "over"),
        (
            Input::Finish,
            "\
            send 2800050001050205f7060102\n\
            tell finished 1/5 15 incomplete 3\n\
            1/5 finished\n",
            "waiting",
        ),
        (Input::PromptNak, "1/5 idle\n", "over"),
        (Input::PromptKeepAlive, "1/5 idle\n", "over"),
        (Input::Nak, "pdu not-ours\n", "over"),
        (Input::KeepAlive, "pdu not-ours\n", "over"),
        (Input::Finished, "pdu not-ours\n", "over"),
        (Input::Cancel, "1/5 idle\n", "over"),
        (Input::AllData, "1/5 idle\n", "over"),
        (Input::Forget, "", "over"),
    ],
};

static DONE_UNACKNOWLEDGED: Scene = Scene {
    name: "over",
    is_acknowledged: false,
    before: &[Input::Metadata, Input::AllData, Input::Eof, Input::Work],
    cases: &[
        (Input::Metadata, "1/5 duplicate\n", "over"),
        (Input::Data, "1/5 idle\n", "over"),
        (Input::Eof, "1/5 idle\n", "over"),
        (Input::EofCancel, "1/5 idle\n", "over"),
        (
            Input::Finish,
            "\
            send 2c0002000105020502\n\
            tell finished 1/5 0 complete 2\n\
            1/5 closed\n",
            "closed",
        ),
        (Input::AllData, "1/5 idle\n", "over"),
        (Input::AckEof, "1/5 idle\n", "over"),
        (Input::AckFinished, "1/5 idle\n", "over"),
        (Input::PromptNak, "1/5 idle\n", "over"),
        (Input::PromptKeepAlive, "1/5 idle\n", "over"),
        (Input::Nak, "pdu not-ours\n", "over"),
        (Input::KeepAlive, "pdu not-ours\n", "over"),
        (Input::Finished, "pdu not-ours\n", "over"),
        (Input::Time(&[15]), "", "over"),
        (Input::Time(&[1000]), "", "over"),
        (Input::Work, "", "over"),
        (Input::Cancel, "1/5 idle\n", "over"),
        (Input::Forget, "", "over"),
    ],
};

static WAITING: Scene = Scene {
    name: "waiting",
    is_acknowledged: true,
    before: &[
        Input::Metadata,
        Input::AllData,
        Input::Eof,
        Input::Work,
        Input::Finish,
    ],
    cases: &[
        (Input::Work, "", "waiting"),
        (Input::Finish, "", "waiting"),
        (Input::Forget, "", "waiting"),
    ],
};

static CLOSED: Scene = Scene {
    name: "closed",
    is_acknowledged: true,
    before: &[
        Input::Metadata,
        Input::AllData,
        Input::Eof,
        Input::Work,
        Input::Finish,
        Input::AckFinished,
    ],
    cases: &[
        (Input::Work, "", "closed"),
        (Input::Finish, "", "closed"),
        (Input::Forget, "", "undefined"),
    ],
};

static EXECUTING_UNACKNOWLEDGED: Scene = Scene {
    name: "executing",
    is_acknowledged: false,
    before: &[Input::Metadata, Input::AllData, Input::Eof],
    cases: &[
        (Input::Metadata, "1/5 duplicate\n", "executing"),
        (Input::Data, "1/5 idle\n", "executing"),
        (Input::AllData, "1/5 idle\n", "executing"),
        (Input::Eof, "1/5 duplicate\n", "executing"),
        (Input::EofCancel, "1/5 faulted 15\n", "over"),
        (Input::AckEof, "1/5 idle\n", "executing"),
        (Input::AckFinished, "1/5 idle\n", "executing"),
        (Input::PromptNak, "1/5 idle\n", "executing"),
        (Input::PromptKeepAlive, "1/5 idle\n", "executing"),
        (Input::Nak, "pdu not-ours\n", "executing"),
        (Input::KeepAlive, "pdu not-ours\n", "executing"),
        (Input::Finished, "pdu not-ours\n", "executing"),
        (Input::Time(&[15]), "", "executing"),
        (Input::Time(&[1000]), "", "executing"),
        (Input::Work, "1/5 installed\n", "over"),
        (Input::Finish, "", "executing"),
        (Input::Cancel, "1/5 cancelled\n", "over"),
        (Input::Forget, "", "executing"),
    ],
};

static CANCELLED_UNACKNOWLEDGED: Scene = Scene {
    name: "over",
    is_acknowledged: false,
    before: &[Input::Metadata, Input::Cancel],
    cases: &[
        (Input::Metadata, "1/5 duplicate\n", "over"),
        (Input::Data, "1/5 idle\n", "over"),
        (Input::AllData, "1/5 idle\n", "over"),
        (Input::Eof, "1/5 idle\n", "over"),
        (Input::EofCancel, "1/5 idle\n", "over"),
        (Input::AckEof, "1/5 idle\n", "over"),
        (Input::AckFinished, "1/5 idle\n", "over"),
        (Input::PromptNak, "1/5 idle\n", "over"),
        (Input::PromptKeepAlive, "1/5 idle\n", "over"),
        (Input::Nak, "pdu not-ours\n", "over"),
        (Input::KeepAlive, "pdu not-ours\n", "over"),
        (Input::Finished, "pdu not-ours\n", "over"),
        (Input::Time(&[15]), "", "over"),
        (Input::Time(&[1000]), "", "over"),
        (Input::Work, "", "over"),
        (
            Input::Finish,
            "\
            send 2c00050001050205f4060102\n\
            tell finished 1/5 15 incomplete 0\n\
            1/5 closed\n",
            "closed",
        ),
        (Input::Cancel, "1/5 idle\n", "over"),
        (Input::Forget, "", "over"),
    ],
};

static CLOSED_UNACKNOWLEDGED: Scene = Scene {
    name: "closed",
    is_acknowledged: false,
    before: &[
        Input::Metadata,
        Input::AllData,
        Input::Eof,
        Input::Work,
        Input::Finish,
    ],
    cases: &[
        (Input::Work, "", "closed"),
        (Input::Finish, "", "closed"),
        (Input::Forget, "", "undefined"),
    ],
};

#[test]
fn executing(rt: HostRuntime) -> Result<(), AllocError> {
    each_input_holds(&rt, rt.alloc(), &EXECUTING)?;
    each_input_holds(&rt, rt.alloc(), &LIST_BEGUN)?;
    each_input_holds(&rt, rt.alloc(), &EXECUTING_UNACKNOWLEDGED)
}

#[test]
fn over(rt: HostRuntime) -> Result<(), AllocError> {
    each_input_holds(&rt, rt.alloc(), &ENDED)?;
    each_input_holds(&rt, rt.alloc(), &DONE)?;
    each_input_holds(&rt, rt.alloc(), &FAULTED)?;
    each_input_holds(&rt, rt.alloc(), &HELD_AND_CANCELLED)?;
    each_input_holds(&rt, rt.alloc(), &CANCELLED_UNACKNOWLEDGED)?;
    each_input_holds(&rt, rt.alloc(), &DONE_UNACKNOWLEDGED)
}

#[test]
fn calls(rt: HostRuntime) -> Result<(), AllocError> {
    let finished = [&FINISHED_AFTER_ITS_SENDERS_CANCEL, &FINISHED_AFTER_A_CANCEL];
    for scene in finished {
        all_hold(&rt, rt.alloc(), scene)?;
    }
    for scene in [&WAITING, &CLOSED, &CLOSED_UNACKNOWLEDGED] {
        all_hold(&rt, rt.alloc(), scene)?;
    }
    Ok(())
}
