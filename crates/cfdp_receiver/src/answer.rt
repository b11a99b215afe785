//! What is sent, indicated and reported of one input.

ghost use Rattle.std.specs.Prelude.{◌≡◌, ◌∷◌, [], ◌<◌, ◌^◌, IfSome};
ghost use Rattle.cfdp_pdus.specs.Bits.{fss};
ghost use Rattle.cfdp_pdus.specs.Canonical.{IsHeader};
ghost use Rattle.cfdp_directives.specs.Spelling.{IsSizedAck};
ghost use Rattle.cfdp_receiver.specs.StateMachine.{listed};
ghost use Rattle.cfdp_receiver.specs.code.StateMachine.{all_naks, silent};
ghost use Rattle.cfdp_receiver.specs.State.{turned_header};
ghost use Rattle.cfdp_receiver.specs.declared.indication.Became.TheVariants.{Nothing, TooFarAhead, Said, Replied};

use crate::{Became, Indication, Word};
use arrayvec::ArrayVec;
use cfdp_directives::{Ack, KeepAlive, NakRange};
use cfdp_pdus::Header;
use cfdp_status::TransactionId;
use cfdp_transactions::{MOST_GAPS, Reply};
use std::marker::Model;

/// A sequence of NAK PDUs (CCSDS 727.0-B-5 §5.2.6): what is asked for, and how many segment requests each of its PDUs
/// has at most.
#[derive(Drop)]
pub struct NakSequence {
    pub(crate) header: Header,
    pub(crate) low: u64,
    pub(crate) high: u64,
    pub(crate) most: usize,
    pub(crate) requests: ArrayVec<NakRange, MOST_GAPS>,
}

impl Model for NakSequence {
    ghost use Rattle.std.specs.Prelude.{List};
    ghost use Rattle.cfdp_directives.specs.Reading.{NakFields};
    ghost use Rattle.cfdp_receiver.specs.code.StateMachine.{IsAsking, sequence_of};

    ghost Value = { List NakFields };

    ghost view = { λ n. sequence_of n.header n.most n.low n.high n.requests.items };

    ghost invariant = { λ n. IsAsking n.header n.low n.high n.most n.requests.items };
}

/// What became of an input, what the user is notified of, and the PDUs that are to be sent: one ACK PDU at most, one
/// sequence of NAK PDUs, one Keep Alive PDU and one Finished PDU, in this order. `Receiver::write` writes them, before
/// the next input.
#[derive(Drop)]
pub struct Answer {
    pub(crate) ack: Option<(Header, Ack)>,
    pub(crate) naks: Option<NakSequence>,
    pub(crate) keep_alive: Option<(Header, KeepAlive)>,
    /// The transaction whose Finished PDU is sent.
    pub(crate) finished: Option<TransactionId>,
    pub(crate) indication: Option<Indication>,
    pub(crate) became: Became,
    /// The number of its turn: 0 before the turn is made.
    pub(crate) turn: u64,
}

impl Model for Answer {
    ghost use Rattle.cfdp_receiver.specs.StateMachine.{AnswerParts, listed};
    ghost use Rattle.cfdp_receiver.specs.code.StateMachine.{IsSendable, all_naks};

    ghost Value = { AnswerParts };

    ghost view = { λ a. record {
      acks = listed a.ack;
      naks = all_naks a.naks;
      keep_alives = listed a.keep_alive;
      finished = listed a.finished;
      indications = listed a.indication;
      became = a.became;
      turn = a.turn;
    } };

    ghost invariant = { λ a. IsSendable a.ack a.keep_alive };
}

/// The answer to an input with which nothing is sent: what became of the input, and what the user is notified of. It is
/// small beside an [`Answer`], which has room for 33 segment requests, so it is moved at little cost.
#[derive(Drop)]
pub(crate) struct Unsent {
    pub(crate) indication: Option<Indication>,
    pub(crate) became: Became,
}

impl Model for Unsent {
    ghost use Rattle.cfdp_receiver.specs.StateMachine.{AnswerParts, listed};
    ghost use Rattle.cfdp_receiver.specs.code.StateMachine.{silent};

    ghost Value = { AnswerParts };

    ghost view = { λ u. record (silent u.became) { indications = listed u.indication } };
}

impl Unsent {
    /// The core's reply, and an indication, if there is one.
    pub(crate) fn replied(id: TransactionId, reply: Reply, indication: Option<Indication>) -> Unsent
        ensures { result ≡ record (silent (Replied id reply)) { indications = listed indication } }
    {
        Unsent {
            indication,
            became: Became::Replied(id, reply),
        }
    }

    /// This answer as an [`Answer`] that sends nothing, of the turn with this number.
    pub(crate) fn answer(self, turn: u64) -> Answer
        ensures { result ≡ record self { turn = turn } }
    {
        Answer {
            ack: None,
            naks: None,
            keep_alive: None,
            finished: None,
            indication: self.indication,
            became: self.became,
            turn,
        }
    }
}

/// The header of a PDU that is sent: toward the sender, and in all else as the PDU that came.
pub(crate) fn turned(header: &Header) -> Header
    ensures { result ≡ turned_header header.now }
{
    Header {
        toward_sender: true,
        acknowledged: header.acknowledged,
        large: header.large,
        id_len: header.id_len,
        number_len: header.number_len,
        source: header.source,
        number: header.number,
        destination: header.destination,
    }
}

impl Answer {
    /// Nothing is sent or indicated.
    pub(crate) fn quiet(became: Became) -> Answer
        ensures { result ≡ silent became }
    {
        Answer {
            ack: None,
            naks: None,
            keep_alive: None,
            finished: None,
            indication: None,
            became,
            turn: 0,
        }
    }

    /// There was nothing to do.
    pub(crate) fn nothing() -> Answer
        ensures { result ≡ silent Nothing }
    {
        Answer::quiet(Became::Nothing)
    }

    /// The moment is too far ahead, and the input was not taken.
    pub(crate) fn not_taken() -> Answer
        ensures { result ≡ silent TooFarAhead }
    {
        Answer::quiet(Became::TooFarAhead)
    }

    /// A word of the receiver's own.
    pub(crate) fn said(id: TransactionId, word: Word) -> Answer
        ensures { result ≡ silent (Said id word) }
    {
        Answer::quiet(Became::Said(id, word))
    }

    /// The core's reply.
    pub(crate) fn replied(id: TransactionId, reply: Reply) -> Answer
        ensures { result ≡ silent (Replied id reply) }
    {
        Answer::quiet(Became::Replied(id, reply))
    }

    /// With an ACK PDU, if there is one.
    pub(crate) fn with_ack(self, ack: Option<(Header, Ack)>) -> Answer
        requires { IfSome ack (λ a. IsHeader a.0 × IsSizedAck a.1) }
        ensures { result ≡ record self { acks = listed ack } }
    {
        Answer {
            ack,
            naks: self.naks,
            keep_alive: self.keep_alive,
            finished: self.finished,
            indication: self.indication,
            became: self.became,
            turn: self.turn,
        }
    }

    /// With a sequence of NAK PDUs, if there is one.
    pub(crate) fn with_naks(self, naks: Option<NakSequence>) -> Answer
        ensures { result ≡ record self { naks = all_naks naks } }
    {
        Answer {
            ack: self.ack,
            naks,
            keep_alive: self.keep_alive,
            finished: self.finished,
            indication: self.indication,
            became: self.became,
            turn: self.turn,
        }
    }

    /// With a Keep Alive PDU.
    pub(crate) fn with_keep_alive(self, header: Header, progress: u64) -> Answer
        requires header { IsHeader header }
        requires sized { progress < 256 ^ fss header.large }
        ensures { result ≡ record self { keep_alives = (header, record { progress = progress }) ∷ [] } }
    {
        Answer {
            ack: self.ack,
            naks: self.naks,
            keep_alive: Some((header, KeepAlive { progress })),
            finished: self.finished,
            indication: self.indication,
            became: self.became,
            turn: self.turn,
        }
    }

    /// With the Finished PDU of a transaction.
    pub(crate) fn with_finished(self, id: TransactionId) -> Answer
        ensures { result ≡ record self { finished = id ∷ [] } }
    {
        Answer {
            ack: self.ack,
            naks: self.naks,
            keep_alive: self.keep_alive,
            finished: Some(id),
            indication: self.indication,
            became: self.became,
            turn: self.turn,
        }
    }

    /// With an indication, if there is one.
    pub(crate) fn with_indication(self, indication: Option<Indication>) -> Answer
        ensures { result ≡ record self { indications = listed indication } }
    {
        Answer {
            ack: self.ack,
            naks: self.naks,
            keep_alive: self.keep_alive,
            finished: self.finished,
            indication,
            became: self.became,
            turn: self.turn,
        }
    }

    /// What became of the input.
    pub fn became(&self) -> &Became
        ensures { result.now ≡ self.now.became }
    {
        &self.became
    }

    /// What the user is notified of, if anything.
    pub fn indication(&self) -> Option<Indication>
        ensures { listed result ≡ self.now.indications }
    {
        self.indication
    }
}
