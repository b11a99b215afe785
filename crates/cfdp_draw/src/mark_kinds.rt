//! What the marks and colours of a picture mean.

ghost use Rattle.std.specs.Prelude.{◌≡◌};
ghost use Rattle.cfdp_draw.specs.MarkKinds.{kind_of_directive, letter_of, outline_of, kind_in_words, phase_letter, phase_words, way_opening};

use cfdp_pdus::directive;

/// What a mark shows.
#[derive(Clone, Copy, Debug, PartialEq, Eq)]
pub enum MarkKind {
    Metadata,
    FileData,
    Eof,
    Nak,
    Ack,
    Finished,
    KeepAlive,
    Prompt,
    /// Octets that are no PDU.
    NoPdu,
    /// A timer that is served.
    Timer,
    /// The user cancels the transaction.
    Cancel,
}

/// Which way a PDU goes. A timer and a cancel come.
#[derive(Clone, Copy, Debug, PartialEq, Eq)]
pub enum Direction {
    /// It comes.
    Came,
    /// It comes, and is dropped.
    Dropped,
    /// It is sent.
    Sent,
}

/// How far a transaction is.
#[derive(Clone, Copy, Debug, PartialEq, Eq)]
pub enum DrawnPhase {
    /// Its EOF PDU came, and its Metadata PDU did not.
    Held,
    /// File data is taken, and no EOF PDU has come.
    Receiving,
    /// The EOF PDU came, and octets are missing.
    Awaiting,
    /// Its Finished PDU was sent, and is not acknowledged yet.
    Waiting,
    /// It is over.
    Closed,
}

impl MarkKind {
    /// The kind of a file directive PDU by its directive code (CCSDS 727.0-B-5 §5.2). `NoPdu`: no directive has
    /// this code.
    pub fn of_directive(code: u8) -> MarkKind
        ensures { result ≡ kind_of_directive code }
    {
        match code {
            directive::EOF => MarkKind::Eof,
            directive::FINISHED => MarkKind::Finished,
            directive::ACK => MarkKind::Ack,
            directive::METADATA => MarkKind::Metadata,
            directive::NAK => MarkKind::Nak,
            directive::PROMPT => MarkKind::Prompt,
            directive::KEEP_ALIVE => MarkKind::KeepAlive,
            _ => MarkKind::NoPdu,
        }
    }

    /// The kind in words.
    #[tactic(auto, unfolding(crate::specs::MarkKinds::kind_in_words))]
    pub fn words(self) -> &'static [u8]
        ensures { result.now ≡ kind_in_words self }
    {
        match self {
            MarkKind::Metadata => b"Metadata",
            MarkKind::FileData => b"File Data",
            MarkKind::Eof => b"EOF",
            MarkKind::Nak => b"NAK",
            MarkKind::Ack => b"ACK",
            MarkKind::Finished => b"Finished",
            MarkKind::KeepAlive => b"Keep Alive",
            MarkKind::Prompt => b"Prompt",
            MarkKind::NoPdu => b"no PDU",
            MarkKind::Timer => b"timer",
            MarkKind::Cancel => b"cancel",
        }
    }

    /// The letter in a mark. A File Data PDU has none.
    #[tactic(auto, unfolding(crate::specs::MarkKinds::letter_of))]
    pub(crate) fn letter(self) -> &'static [u8]
        ensures { result.now ≡ letter_of self }
    {
        match self {
            MarkKind::Metadata => b"M",
            MarkKind::FileData => b"",
            MarkKind::Eof => b"E",
            MarkKind::Nak => b"N",
            MarkKind::Ack => b"A",
            MarkKind::Finished => b"F",
            MarkKind::KeepAlive => b"K",
            MarkKind::Prompt => b"P",
            MarkKind::NoPdu => b"?",
            MarkKind::Timer => b"T",
            MarkKind::Cancel => b"C",
        }
    }

    /// The outline of a mark, as the data of a path: a box that points down, a small triangle for file data,
    /// and a disc for what is no PDU.
    #[tactic(auto, unfolding(crate::specs::MarkKinds::outline_of))]
    pub(crate) fn outline(self) -> &'static [u8]
        ensures { result.now ≡ outline_of self }
    {
        match self {
            MarkKind::FileData => b"M0 2h6l-3 11z",
            MarkKind::Timer | MarkKind::Cancel => b"M0 7a7 7 0 1 1 14 0a7 7 0 1 1-14 0z",
            _ => b"M0 0h14v10l-7 4l-7-4z",
        }
    }
}

impl Direction {
    /// The beginning of a mark, with its class.
    #[tactic(auto, unfolding(crate::specs::MarkKinds::way_opening))]
    pub(crate) fn opening(self) -> &'static [u8]
        ensures { result.now ≡ way_opening self }
    {
        match self {
            Direction::Came => b"<g class=\"came\" transform=\"translate(",
            Direction::Dropped => b"<g class=\"dropped\" transform=\"translate(",
            Direction::Sent => b"<g class=\"sent\" transform=\"translate(",
        }
    }
}

impl DrawnPhase {
    /// The phase in a word, which is its class too.
    #[tactic(auto, unfolding(crate::specs::MarkKinds::phase_words))]
    pub fn words(self) -> &'static [u8]
        ensures { result.now ≡ phase_words self }
    {
        match self {
            DrawnPhase::Held => b"held",
            DrawnPhase::Receiving => b"receiving",
            DrawnPhase::Awaiting => b"awaiting",
            DrawnPhase::Waiting => b"waiting",
            DrawnPhase::Closed => b"closed",
        }
    }

    /// The first letter of the phase.
    #[tactic(auto, unfolding(crate::specs::MarkKinds::phase_letter))]
    pub(crate) fn letter(self) -> &'static [u8]
        ensures { result.now ≡ phase_letter self }
    {
        match self {
            DrawnPhase::Held => b"h",
            DrawnPhase::Receiving => b"r",
            DrawnPhase::Awaiting => b"a",
            DrawnPhase::Waiting => b"w",
            DrawnPhase::Closed => b"c",
        }
    }
}
