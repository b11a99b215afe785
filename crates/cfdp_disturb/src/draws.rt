//! What is drawn for a line.

/// How often a PDU line comes.
#[derive(Clone, Copy, Debug, PartialEq, Eq)]
pub enum Copies {
    /// It is lost.
    Lost,
    /// It comes once.
    Once,
    /// It comes twice, one after the other.
    Twice,
}

/// What a link does to a PDU line. For a line of another kind it says nothing.
#[derive(Clone, Copy, Debug, PartialEq, Eq)]
pub struct Draw {
    /// How often the line comes.
    pub copies: Copies,
    /// Whether it comes after the next line, where that is a PDU line too.
    pub swapped: bool,
}
