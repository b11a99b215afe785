//! The words with which the lines of a script begin.

ghost use Rattle.std.specs.Prelude.{◌≡◌};
ghost use Rattle.cfdp_run.specs.Words.{form_of, is_of_head, spelling_of, word_of};

/// The first word of a line.
#[derive(Clone, Copy, Debug, PartialEq, Eq)]
pub enum FirstWord {
    /// `mib`: settings.
    Mib,
    /// `config`: the configuration.
    Config,
    /// `protect`: a protected prefix.
    Protect,
    /// `put`: a file or a directory that the filestore begins with.
    Put,
    /// `at`: an input, or time that passes.
    At,
    /// `get`: a question for a file.
    Get,
    /// `gaps`: a question for what is missing of a transaction.
    Gaps,
    /// `phase`: a question for how far a transaction is.
    Phase,
    /// `list`: a question for all of the filestore.
    List,
    /// `expect`: a line that has to be among those written last.
    Expect,
    /// `end`: the script ends.
    End,
}

impl FirstWord {
    /// How it is spelled.
    #[tactic(auto, unfolding(crate::specs::Words::spelling_of))]
    pub fn spelling(self) -> &'static [u8]
        ensures { result.now ≡ spelling_of self }
    {
        match self {
            FirstWord::Mib => b"mib",
            FirstWord::Config => b"config",
            FirstWord::Protect => b"protect",
            FirstWord::Put => b"put",
            FirstWord::At => b"at",
            FirstWord::Get => b"get",
            FirstWord::Gaps => b"gaps",
            FirstWord::Phase => b"phase",
            FirstWord::List => b"list",
            FirstWord::Expect => b"expect",
            FirstWord::End => b"end",
        }
    }

    /// How a line is written that begins with it.
    #[tactic(auto, unfolding(crate::specs::Words::form_of))]
    pub fn form(self) -> &'static [u8]
        ensures { result.now ≡ form_of self }
    {
        match self {
            FirstWord::Mib => b"mib KEY=VALUE ..",
            FirstWord::Config => b"config E B C K J",
            FirstWord::Protect => b"protect PATH",
            FirstWord::Put => b"put PATH [HEX | @FILE] or put PATH/",
            FirstWord::At => b"at T [pdu HEX | cancel S N | clock]",
            FirstWord::Get => b"get PATH",
            FirstWord::Gaps => b"gaps S N",
            FirstWord::Phase => b"phase S N",
            FirstWord::List => b"list",
            FirstWord::Expect => b"expect LINE",
            FirstWord::End => b"end",
        }
    }

    /// Whether its lines come before every line of another kind.
    pub(crate) fn is_of_head(self) -> bool
        ensures { result ≡ is_of_head self }
    {
        match self {
            FirstWord::Mib | FirstWord::Config | FirstWord::Protect | FirstWord::Put => true,
            FirstWord::At
            | FirstWord::Get
            | FirstWord::Gaps
            | FirstWord::Phase
            | FirstWord::List
            | FirstWord::Expect
            | FirstWord::End => false,
        }
    }
}

/// The word that some octets spell.
#[tactic(auto, unfolding(crate::specs::Words::word_of))]
pub(crate) fn word_of(octets: &[u8]) -> Option<FirstWord>
    ensures { result ≡ word_of octets.now }
{
    if octets == b"at".as_slice() {
        return Some(FirstWord::At);
    }
    if octets == b"expect".as_slice() {
        return Some(FirstWord::Expect);
    }
    if octets == b"get".as_slice() {
        return Some(FirstWord::Get);
    }
    if octets == b"gaps".as_slice() {
        return Some(FirstWord::Gaps);
    }
    if octets == b"phase".as_slice() {
        return Some(FirstWord::Phase);
    }
    if octets == b"list".as_slice() {
        return Some(FirstWord::List);
    }
    if octets == b"put".as_slice() {
        return Some(FirstWord::Put);
    }
    if octets == b"protect".as_slice() {
        return Some(FirstWord::Protect);
    }
    if octets == b"mib".as_slice() {
        return Some(FirstWord::Mib);
    }
    if octets == b"config".as_slice() {
        return Some(FirstWord::Config);
    }
    if octets == b"end".as_slice() {
        return Some(FirstWord::End);
    }
    None
}
