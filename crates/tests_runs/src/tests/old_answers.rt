//! The PDUs of an answer are written before the next input: an answer that is not the last one is refused.

use super::actor::made_at_last;
use cfdp_receiver::{Answer, NotWritten, Receiver};
use cfdp_status::TransactionId;
use std::alloc::{AllocError, Global};

/// The Metadata PDU of a file of 15 octets, its octets, and its EOF PDU, in unacknowledged mode with closure.
const PDUS: [&str; 3] = [
    "24000a0001050207400000000f01730166",
    "3400130001050200000000000102030405060708090a0b0c0d0e",
    "24000a000105020400181c20150000000f",
];

/// The octets of the longest of them.
const LONGEST: usize = 26;

/// The octet of the transaction sequence number, and the last one of the Metadata PDU: the name of the file.
const NUMBER: usize = 5;

const NAME: usize = 16;

/// The Finished PDUs of the transactions 5 and 6: no error, complete, in the filestore.
const FINISHED_5: [u8; 9] = [0x2c, 0, 2, 0, 1, 5, 2, 5, 2];

const FINISHED_6: [u8; 9] = [0x2c, 0, 2, 0, 1, 6, 2, 5, 2];

/// A transaction that never was.
const NOBODY: TransactionId = TransactionId {
    source: 9,
    number: 9,
};

/// Hands in a PDU of a transaction and of a file with this name.
fn hand_in(alloc: Global, receiver: &mut Receiver, spelled: &str, number: u8, name: u8) {
    let mut room = [0u8; LONGEST];
    let Some(octets) = room.get_mut(..spelled.len() / 2) else {
        return;
    };
    if hex::decode_to_slice(spelled, octets).is_err() {
        return;
    }
    if let Some(octet) = octets.get_mut(NUMBER) {
        *octet = number;
    }
    if octets.len() == NAME + 1 && octets.ends_with(b"\x01f") {
        octets[NAME] = name;
    }
    let _answer = receiver.receive(alloc, 5, octets);
}

/// Delivers a file, and takes the outcome. The answer has the Finished PDU, and the transaction is closed.
fn delivered(
    alloc: Global,
    receiver: &mut Receiver,
    number: u8,
    name: u8,
) -> Result<Answer, AllocError> {
    for spelled in PDUS {
        hand_in(alloc, receiver, spelled, number, name);
    }
    let _installed = receiver.work(5);
    receiver.finish(alloc, 5)
}

/// The first PDU of an answer, or why it is not written.
type Written = Result<[u8; 9], NotWritten>;

/// Writes the first PDU of an answer.
fn written(receiver: &Receiver, answer: &Answer) -> Written {
    let mut room = [0u8; 9];
    receiver.write(answer, 0, &mut room)?;
    Ok(room)
}

/// What is written between the inputs, and what has to be.
const ROWS: [(&str, Written); 7] = [
    ("the last answer", Ok(FINISHED_5)),
    (
        "an answer about another transaction",
        Err(NotWritten::NotLast),
    ),
    ("the last answer, once more", Ok(FINISHED_6)),
    (
        "the last answer, after octets that were dropped",
        Ok(FINISHED_6),
    ),
    (
        "an answer, after a call with nothing to do",
        Err(NotWritten::NotLast),
    ),
    ("the answer to that call", Err(NotWritten::NoMore)),
    (
        "an answer, after a cancel of nobody",
        Err(NotWritten::NotLast),
    ),
];

/// Delivers two files, and writes answers in between.
fn all_written(alloc: Global, receiver: &mut Receiver) -> Result<[Written; 7], AllocError> {
    let first = delivered(alloc, receiver, 5, b'f')?;
    let last = written(receiver, &first);
    let second = delivered(alloc, receiver, 6, b'g')?;
    let about_another = written(receiver, &first);
    let once_more = written(receiver, &second);
    let _dropped = receiver.receive(alloc, 5, &mut [0u8; 3]);
    let after_dropped = written(receiver, &second);
    let nothing = receiver.work(5);
    let after_work = written(receiver, &second);
    let of_work = written(receiver, &nothing);
    let _unknown = receiver.cancel(5, NOBODY);
    let after_cancel = written(receiver, &nothing);
    Ok([
        last,
        about_another,
        once_more,
        after_dropped,
        after_work,
        of_work,
        after_cancel,
    ])
}

#[test]
fn only_the_last_is_written(rt: HostRuntime) -> Result<(), AllocError> {
    let Some(mut receiver) = made_at_last(rt.alloc())? else {
        return Err(AllocError);
    };
    let all = all_written(rt.alloc(), &mut receiver)?;
    for ((name, want), found) in ROWS.iter().zip(&all) {
        assert!(rt; found == want, "{name}");
    }
    Ok(())
}
