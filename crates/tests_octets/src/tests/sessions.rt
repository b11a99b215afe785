//! A table that is filled, emptied and filled again, and the names at its limits.

ghost use Rattle.std.specs.Prelude.{◌<◌};

use cfdp_pdus::{Header, condition};
use cfdp_retransmission::Timer;
use cfdp_sessions::{
    ClosedTransactions, Ending, MOST_CLOSED, MOST_CLOSED_OF_ONE_OCTET, MOST_SESSIONS, Session,
    Sessions, Stage,
};
use cfdp_status::TransactionId;
use std::alloc::{AllocError, Global};

/// A transaction from entity `source`.
fn id(source: u64, number: u64) -> TransactionId {
    TransactionId { source, number }
}

/// The session of a transaction; `alive_at` distinguishes one of a name from another of the same name.
fn session(alloc: Global, source: u64, number: u64, alive_at: u64) -> Session {
    Session {
        header: Header {
            toward_sender: false,
            acknowledged: true,
            large: false,
            id_len: 8,
            number_len: 8,
            source,
            number,
            destination: 2,
        },
        stage: Stage::Known,
        timer: Timer::start(0),
        alive_at,
        cause: None,
        is_abandoned: false,
        has_changed: false,
        finished: Vec::new(alloc),
    }
}

/// Adds a session where there is room, and none of its name.
fn add(sessions: &mut Sessions, session: Session) {
    if sessions.len() < MOST_SESSIONS && sessions.find(session.name()).is_none() {
        sessions.add(session);
    }
}

/// 64 sessions of one source, numbered from 0.
fn full(alloc: Global) -> Result<Sessions, AllocError> {
    let mut sessions = Sessions::new(alloc)?;
    for number in 0..64u64 {
        add(&mut sessions, session(alloc, 1, number, number));
    }
    Ok(sessions)
}

/// Whether the sessions have these numbers, in order.
fn has_numbers(sessions: &Sessions, numbers: &[u64]) -> bool {
    sessions.len() == numbers.len()
        && sessions
            .as_slice()
            .iter()
            .zip(numbers)
            .all(|(session, number)| session.header.number == *number)
}

#[test]
fn fills_and_empties(rt: HostRuntime) -> Result<(), AllocError> {
    let mut sessions = full(rt.alloc())?;
    assert!(&rt; sessions.is_full(), "64 sessions");
    for number in 0..64u64 {
        let found = sessions.get(id(1, number));
        assert!(&rt;
            found.is_some_and(|s| s.alive_at == number),
            "number {number}"
        );
    }
    for number in 0..60u64 {
        sessions.close(id(1, number));
        assert!(&rt; !sessions.is_full(), "less than 64 after {number}");
        assert!(&rt; sessions.get(id(1, number)).is_none(), "closed: {number}");
    }
    assert!(&rt;
        has_numbers(&sessions, &[60, 61, 62, 63]),
        "the others, in order"
    );
    add(&mut sessions, session(rt.alloc(), 1, 0, 7));
    assert!(&rt;
        has_numbers(&sessions, &[60, 61, 62, 63, 0]),
        "one more, after the others"
    );
    Ok(())
}

#[test]
fn names_at_their_limits(rt: HostRuntime) -> Result<(), AllocError> {
    let alloc = rt.alloc();
    let mut sessions = Sessions::new(alloc)?;
    for (source, number) in [(0, 0), (0, u64::MAX), (u64::MAX, 0), (u64::MAX, u64::MAX)] {
        assert!(&rt;
            sessions.get(id(source, number)).is_none(),
            "{source}/{number}: before"
        );
        add(&mut sessions, session(alloc, source, number, 1));
        assert!(&rt;
            sessions.get(id(source, number)).is_some(),
            "{source}/{number}: after"
        );
    }
    assert!(&rt; sessions.len() == 4, "{} sessions", sessions.len());
    Ok(())
}

/// Three sessions of one source, numbered from 0.
fn three(alloc: Global) -> Result<Sessions, AllocError> {
    let mut sessions = Sessions::new(alloc)?;
    for number in 0..3u64 {
        add(&mut sessions, session(alloc, 1, number, 0));
    }
    Ok(sessions)
}

#[test]
fn finds_the_index(rt: HostRuntime) -> Result<(), AllocError> {
    let sessions = three(rt.alloc())?;
    for (number, index) in [(0, 0), (1, 1), (2, 2)] {
        assert!(&rt;
            sessions.find(id(1, number)) == Some(index),
            "number {number}"
        );
    }
    assert!(&rt; sessions.find(id(2, 1)).is_none(), "another source");
    assert!(&rt; sessions.find(id(1, 3)).is_none(), "another number");
    Ok(())
}

/// A call that changes the session with an index.
#[derive(Clone, Copy)]
enum Call {
    Timer,
    AliveAt,
    End,
    Cause,
    Abandon,
    Wait,
}

/// Changes the session of a transaction, if it has one.
fn change(
    alloc: Global,
    sessions: &mut Sessions,
    id: TransactionId,
    call: Call,
) -> Result<(), AllocError> {
    let Some(index) = sessions.find(id) else {
        return Ok(());
    };
    match call {
        Call::Timer => sessions.set_timer(index, Timer { since: 5, count: 1 }),
        Call::AliveAt => sessions.set_alive_at(index, 6),
        Call::End => sessions.end(index, ENDING),
        Call::Cause => sessions.set_cause(index, 15),
        Call::Abandon => sessions.abandon(index),
        Call::Wait => sessions.wait(
            index,
            vec![in alloc; 1, 2, 3]?,
            true,
            Timer { since: 7, count: 0 },
        ),
    }
    Ok(())
}

const ENDING: Ending = Ending {
    condition: condition::CANCEL_REQUEST_RECEIVED,
    is_sent: true,
    at_fault: 0,
};

/// What a session has beside its header, and how many octets its Finished PDU has.
#[derive(Clone, Copy, PartialEq, Eq)]
struct Kept {
    stage: Stage,
    timer: Timer,
    alive_at: u64,
    cause: Option<u8>,
    is_abandoned: bool,
    has_changed: bool,
    octets: usize,
}

const BEFORE: Kept = Kept {
    stage: Stage::Known,
    timer: Timer { since: 0, count: 0 },
    alive_at: 0,
    cause: None,
    is_abandoned: false,
    has_changed: false,
    octets: 0,
};

fn kept_of(session: &Session) -> Kept {
    Kept {
        stage: session.stage,
        timer: session.timer,
        alive_at: session.alive_at,
        cause: session.cause,
        is_abandoned: session.is_abandoned,
        has_changed: session.has_changed,
        octets: session.finished.len(),
    }
}

/// A call, and what the session has after it.
struct Row {
    name: &'static str,
    call: Call,
    after: Kept,
}

static ROWS: [Row; 6] = [
    Row {
        name: "another timer",
        call: Call::Timer,
        after: Kept {
            timer: Timer { since: 5, count: 1 },
            ..BEFORE
        },
    },
    Row {
        name: "a Keep Alive PDU was sent",
        call: Call::AliveAt,
        after: Kept {
            alive_at: 6,
            ..BEFORE
        },
    },
    Row {
        name: "it is over",
        call: Call::End,
        after: Kept {
            stage: Stage::Over(ENDING),
            ..BEFORE
        },
    },
    Row {
        name: "this entity cancelled it",
        call: Call::Cause,
        after: Kept {
            cause: Some(15),
            ..BEFORE
        },
    },
    Row {
        name: "it is abandoned",
        call: Call::Abandon,
        after: Kept {
            is_abandoned: true,
            ..BEFORE
        },
    },
    Row {
        name: "it waits",
        call: Call::Wait,
        after: Kept {
            stage: Stage::Waiting,
            timer: Timer { since: 7, count: 0 },
            has_changed: true,
            octets: 3,
            ..BEFORE
        },
    },
];

#[test]
fn one_is_changed(rt: HostRuntime) -> Result<(), AllocError> {
    let alloc = rt.alloc();
    for row in &ROWS {
        let mut sessions = three(alloc)?;
        change(alloc, &mut sessions, id(1, 1), row.call)?;
        for (number, expected) in [(0, BEFORE), (1, row.after), (2, BEFORE)] {
            let found = sessions.get(id(1, number));
            assert!(&rt;
                found.is_some_and(|s| kept_of(s) == expected),
                "{}: number {number}",
                row.name
            );
        }
        assert!(&rt;
            has_numbers(&sessions, &[0, 1, 2]),
            "{}: the same names, in order",
            row.name
        );
    }
    Ok(())
}

#[test]
fn one_is_replaced(rt: HostRuntime) -> Result<(), AllocError> {
    let alloc = rt.alloc();
    let mut sessions = three(alloc)?;
    sessions.put(session(alloc, 1, 1, 9));
    sessions.put(session(alloc, 2, 1, 9));
    assert!(&rt;
        has_numbers(&sessions, &[0, 1, 2]),
        "the same names, in order"
    );
    for (number, alive_at) in [(0, 0), (1, 9), (2, 0)] {
        let found = sessions.get(id(1, number));
        assert!(&rt;
            found.is_some_and(|s| s.alive_at == alive_at),
            "number {number}"
        );
    }
    assert!(&rt; sessions.get(id(2, 1)).is_none(), "none was added");
    sessions.close(id(2, 1));
    assert!(&rt; sessions.len() == 3, "none was closed");
    Ok(())
}

/// Remembers a transaction of a source that has a place.
fn close(closed: &mut ClosedTransactions, id: TransactionId, most: Most, has_changed: bool) {
    if closed.has_room_for(id.source) {
        closed.add_source(id.source);
    }
    if closed.has_source(id.source) {
        let most = match most {
            Most::All => MOST_CLOSED,
            Most::Half => MOST_CLOSED_OF_ONE_OCTET,
        };
        closed.add(id, most, has_changed);
    }
}

/// How many names of a source are kept.
#[derive(Clone, Copy)]
enum Most {
    All,
    Half,
}

/// 256 closed transactions of one source, numbered from 0, that changed something.
fn closed(alloc: Global) -> Result<ClosedTransactions, AllocError> {
    let mut closed = ClosedTransactions::new(alloc)?;
    for number in 0..256u64 {
        close(&mut closed, id(1, number), Most::All, true);
    }
    Ok(closed)
}

#[test]
fn fills_and_forgets(rt: HostRuntime) -> Result<(), AllocError> {
    let sessions = Sessions::new(rt.alloc())?;
    let mut closed = closed(rt.alloc())?;
    assert!(&rt; !closed.has_forgotten(), "256 names");
    for number in 0..256u64 {
        assert!(&rt; closed.remembers(id(1, number)), "number {number}");
    }
    assert!(&rt; !closed.remembers(id(2, 0)), "another source");
    close(&mut closed, id(1, 256), Most::All, true);
    assert!(&rt; closed.has_forgotten(), "257 names");
    assert!(&rt; !closed.remembers(id(1, 0)), "the oldest is dropped");
    assert!(&rt;
        closed.remembers(id(1, 1)) && closed.remembers(id(1, 256)),
        "the others stay"
    );
    closed.forget(sessions.as_slice());
    assert!(&rt;
        !closed.remembers(id(1, 256)) && closed.has_forgotten(),
        "cleared"
    );
    assert!(&rt; !closed.has_source(1), "the place is free");
    Ok(())
}

#[test]
fn keeps_half_of_one_octet(rt: HostRuntime) -> Result<(), AllocError> {
    let mut closed = ClosedTransactions::new(rt.alloc())?;
    for number in 0..128u64 {
        close(&mut closed, id(1, number), Most::Half, true);
    }
    assert!(&rt;
        closed.remembers(id(1, 0)) && !closed.has_forgotten(),
        "128 names"
    );
    close(&mut closed, id(1, 128), Most::Half, true);
    assert!(&rt;
        !closed.remembers(id(1, 0)) && closed.remembers(id(1, 1)) && closed.remembers(id(1, 128)),
        "129 names"
    );
    assert!(&rt; closed.has_forgotten(), "one was dropped");
    Ok(())
}

#[test]
fn drops_first_what_changed_nothing(rt: HostRuntime) -> Result<(), AllocError> {
    let mut closed = ClosedTransactions::new(rt.alloc())?;
    close(&mut closed, id(1, 0), Most::Half, true);
    for number in 1..300u64 {
        close(&mut closed, id(1, number), Most::Half, false);
    }
    assert!(&rt; closed.remembers(id(1, 0)), "the oldest changed something");
    assert!(&rt;
        !closed.remembers(id(1, 172)) && closed.remembers(id(1, 173)),
        "127 of those that changed nothing stay"
    );
    Ok(())
}

#[test]
fn keeps_sources_apart(rt: HostRuntime) -> Result<(), AllocError> {
    let mut sessions = Sessions::new(rt.alloc())?;
    let mut closed = ClosedTransactions::new(rt.alloc())?;
    for source in 0..16u64 {
        close(&mut closed, id(source, 5), Most::All, true);
    }
    for number in 0..600u64 {
        close(&mut closed, id(9, number), Most::All, true);
    }
    for source in 0..16u64 {
        assert!(&rt;
            closed.remembers(id(source, 5)) == (source != 9),
            "source {source}"
        );
    }
    assert!(&rt;
        closed.has_room_for(15) && !closed.has_room_for(16),
        "16 places"
    );
    add(&mut sessions, session(rt.alloc(), 3, 0, 0));
    closed.forget(sessions.as_slice());
    assert!(&rt;
        closed.has_source(3) && !closed.has_source(4),
        "3 has a session"
    );
    assert!(&rt;
        !closed.remembers(id(3, 5)) && closed.has_room_for(16),
        "room again"
    );
    Ok(())
}
