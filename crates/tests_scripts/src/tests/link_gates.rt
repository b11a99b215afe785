//! Workers of `links` that are at work at once, and are fed in turn.
use super::fakes::{Stream, Writer};
use super::links::run;
use cfdp_engine::Gate;
use std::sync::Wait;
use std::sync::atomic::{AtomicBool, Ordering};
use std::thread;
use std::time::{Clock, Duration};

/// The Metadata PDU of a transaction with a request.
const FIRST: &str = "pdu 24000D00010502 07 40 00000000 00 00 00 03 00 01 61\n";

/// The Metadata and EOF PDUs of one without.
const SECOND: &str = "\
    pdu 24000800010602 0740 00000000 0000\n\
    pdu 24000a00010602 0400 00000000 00000000\n";

/// Looks at a flag up to 10,000 times, about a millisecond apart, until it is set; else gives up.
fn wait_for<C: Clock>(clock: &C, flag: &AtomicBool, gave_up: &AtomicBool) {
    for _look in 0..10_000 {
        if flag.load(Ordering::SeqCst) {
            return;
        }
        thread::sleep(clock, Duration::from_millis(1));
    }
    gave_up.store(true, Ordering::SeqCst);
}

/// Two workers cross: each waits, at its first message, for the other. Seat 1 goes on when seat 0 has come, and seat 0
/// when seat 1 has come to its second message; or both after 10,000 looks, with about a millisecond between two.
#[derive(Drop)]
struct Cross<C: Clock + Drop> {
    clock: C,
    zero_came: AtomicBool,
    one_came_again: AtomicBool,
    gave_up: AtomicBool,
}

impl<C: Clock + Drop> Cross<C> {
    fn new(clock: C) -> Cross<C> {
        Cross {
            clock,
            zero_came: AtomicBool::new(false),
            one_came_again: AtomicBool::new(false),
            gave_up: AtomicBool::new(false),
        }
    }

    fn wait_for(&self, other: &AtomicBool) {
        wait_for(&self.clock, other, &self.gave_up);
    }
}

impl<C: Clock + Drop> Gate for Cross<C> {
    fn pass<R: Wait>(&self, _rt: &R, seat: u8, turn: u64) {
        match (seat, turn) {
            (0, 0) => {
                self.zero_came.store(true, Ordering::SeqCst);
                self.wait_for(&self.one_came_again);
            }
            (1, 0) => self.wait_for(&self.zero_came),
            (1, 1) => self.one_came_again.store(true, Ordering::SeqCst),
            _ => {}
        }
    }
}

/// The two scripts.
static SCRIPTS: [&[&str]; 2] = [&[FIRST], &[SECOND]];

/// How the text of their journal begins, and how it ends.
static BEGIN: &[u8] = b"0 1 1/6 admitted blocks 0 steps 0\n";

static END: &[u8] =
    b"\nseat 0 1 dropped 0\nseat 1 2 dropped 0\njournal 3\nstore used 0 free 64 spare 63\n";

#[test]
fn two_workers_of_links_cross(rt: HostRuntime) {
    let mut writer = Writer::new(rt.alloc(), Stream::sound(100));
    let gate = Cross::new(rt);
    let end = run(&rt, rt.alloc(), &SCRIPTS, &gate, &mut writer);
    assert!(rt; end == Ok(()), "the run");
    assert!(rt;
        !gate.gave_up.load(Ordering::SeqCst),
        "a worker waited too long"
    );
    assert!(rt; writer.text.starts_with(BEGIN), "how the text begins");
    assert!(rt; writer.text.ends_with(END), "how the text ends");
}

/// Holds one of two seats at its first message until the other seat has come to its sixteenth. An inbox has room for 16
/// messages, so a feeder that sent all of one file first would wait for the held seat, and this gate would give up.
#[derive(Drop)]
struct Hold<C: Clock + Drop> {
    clock: C,
    held: u8,
    came: AtomicBool,
    gave_up: AtomicBool,
}

impl<C: Clock + Drop> Hold<C> {
    fn new(clock: C, held: u8) -> Hold<C> {
        Hold {
            clock,
            held,
            came: AtomicBool::new(false),
            gave_up: AtomicBool::new(false),
        }
    }
}

impl<C: Clock + Drop> Gate for Hold<C> {
    fn pass<R: Wait>(&self, _rt: &R, seat: u8, turn: u64) {
        if seat == self.held && turn == 0 {
            wait_for(&self.clock, &self.came, &self.gave_up);
        }
        if seat != self.held && turn == 15 {
            self.came.store(true, Ordering::SeqCst);
        }
    }
}

/// Five events of a transaction that is not known.
const FIVE: &str = "check 3 1\ncheck 3 1\ncheck 3 1\ncheck 3 1\ncheck 3 1\n";

/// Two files of twenty events.
static TWENTY_EACH: [&[&str]; 2] = [&[FIVE, FIVE, FIVE, FIVE], &[FIVE, FIVE, FIVE, FIVE]];

/// How the text of their journal ends.
static TWENTY_END: &[u8] =
    b"\nseat 0 20 dropped 0\nseat 1 20 dropped 0\njournal 40\nstore used 0 free 64 spare 64\n";

#[test]
fn links_feeds_the_second_file_while_the_first_is_held(rt: HostRuntime) {
    let mut writer = Writer::new(rt.alloc(), Stream::sound(100));
    let gate = Hold::new(rt, 0);
    let end = run(&rt, rt.alloc(), &TWENTY_EACH, &gate, &mut writer);
    assert!(rt; end == Ok(()), "the run");
    assert!(rt;
        !gate.gave_up.load(Ordering::SeqCst),
        "a worker waited too long"
    );
    assert!(rt; writer.text.ends_with(TWENTY_END), "how the text ends");
}

#[test]
fn links_feeds_the_first_file_while_the_second_is_held(rt: HostRuntime) {
    let mut writer = Writer::new(rt.alloc(), Stream::sound(100));
    let gate = Hold::new(rt, 1);
    let end = run(&rt, rt.alloc(), &TWENTY_EACH, &gate, &mut writer);
    assert!(rt; end == Ok(()), "the run");
    assert!(rt;
        !gate.gave_up.load(Ordering::SeqCst),
        "a worker waited too long"
    );
    assert!(rt; writer.text.ends_with(TWENTY_END), "how the text ends");
}
