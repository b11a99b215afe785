//! What a line of `replay` and of `links` says.
ghost use Rattle.std.specs.Prelude.{◌≡◌, ◌↔◌, Some, None, Err, IfOk, OnErr, option_map};
ghost use Rattle.cfdp_commands.specs.Commands.{IsPdu, SaysPdu, without_words, command_by, command_in, command_of, config_by, keyword_of, local_by, local_event, pdu_by, protect_by};
ghost use Rattle.cfdp_lines.specs.Hexadecimal.{octets_of_words};
ghost use Rattle.cfdp_lines.specs.Words.{id_by, numbers_of, words_of};
ghost use Rattle.cfdp_lines.specs.declared.faults.LineFault.TheVariants.{Bad};

use cfdp_lines::{LineFault, decode_within, decode_words, id_in, next_word, numbers_of};
use cfdp_paths::{LONGEST_NAME, MOST_NAMES, Names};
use cfdp_status::TransactionId;
use cfdp_transactions::Event;
use std::alloc::Global;

/// The most octets that spell a path: its names, with a `/` before each.
const LONGEST_PATH: usize = MOST_NAMES * (LONGEST_NAME + 1);

/// What happens at the receiving entity itself: an event of one transaction.
#[derive(Clone, Copy)]
pub enum Local {
    /// The next item is performed.
    Step,
    /// The transaction is cancelled.
    Cancel,
    /// Its check timer expired.
    Check,
    /// Its outcome is handed out.
    Take,
}

impl Local {
    /// The event of this transaction. Costs nothing.
    pub fn event(self, id: TransactionId) -> Event
        ensures { result ≡ local_event self id }
    {
        match self {
            Local::Step => Event::Step(id),
            Local::Cancel => Event::Cancel(id),
            Local::Check => Event::Check(id),
            Local::Take => Event::Take(id),
        }
    }
}

/// The first word of a line that says something.
#[derive(Clone, Copy)]
enum Keyword {
    /// `config`
    Config,
    /// `protect`
    Protect,
    /// `pdu`
    Pdu,
    /// `step`, `cancel`, `check` or `take`
    Local(Local),
    /// `run`
    Run,
    /// `list`
    List,
}

/// What a line says.
#[derive(Clone, Copy)]
pub enum Command<'a> {
    /// The configuration is given, by its five numbers: the entity's ID, the blocks of the filestore, the cap in
    /// octets, the check limit, and the entries of the journal. Any number may be outside its limits.
    Config {
        entity: u64,
        blocks: u64,
        cap: u64,
        checks: u64,
        journal: u64,
    },
    /// A path is protected, by the octets that spell it.
    Protect(&'a [u8]),
    /// A PDU of these octets came.
    Pdu(&'a [u8]),
    /// Something of the entity's own happened to a transaction.
    Local(Local, TransactionId),
    /// The next items are performed, of one transaction after the other, until none has any.
    Run,
    /// What is in the filestore is written.
    List,
}

/// Room for the octets that lines spell. It is used again for each line.
#[derive(Drop)]
pub struct CommandRoom {
    /// The octets of a path. They take no memory, so that a bad line is reported even when out of memory.
    path: [u8; LONGEST_PATH],
    /// The octets of a PDU.
    pdu: Vec<u8>,
}

impl CommandRoom {
    /// Room that takes no memory yet. A path has its room in it; the room for a PDU grows with the longest one.
    pub fn new(alloc: Global) -> Self {
        CommandRoom {
            path: [0; LONGEST_PATH],
            pdu: Vec::new(alloc),
        }
    }
}

/// What the first word of a line says, if it says something.
fn keyword_of(word: &[u8]) -> Option<Keyword>
    ensures { result ≡ keyword_of word.now }
{
    if word == b"pdu".as_slice() {
        return Some(Keyword::Pdu);
    }
    if word == b"step".as_slice() {
        return Some(Keyword::Local(Local::Step));
    }
    if word == b"run".as_slice() {
        return Some(Keyword::Run);
    }
    if word == b"check".as_slice() {
        return Some(Keyword::Local(Local::Check));
    }
    if word == b"take".as_slice() {
        return Some(Keyword::Local(Local::Take));
    }
    if word == b"cancel".as_slice() {
        return Some(Keyword::Local(Local::Cancel));
    }
    if word == b"list".as_slice() {
        return Some(Keyword::List);
    }
    if word == b"config".as_slice() {
        return Some(Keyword::Config);
    }
    if word == b"protect".as_slice() {
        return Some(Keyword::Protect);
    }
    None
}

/// What a line `config` says, by the words after its first: five numbers.
fn read_config<'a>(words: &[u8]) -> Option<Command<'a>>
    ensures { option_map command_of result ≡ config_by (numbers_of (words_of words.now)) }
{
    let Some(numbers) = numbers_of(words) else {
        return None;
    };
    let [entity, blocks, cap, checks, journal] = numbers.as_slice() else {
        return None;
    };
    Some(Command::Config {
        entity: *entity,
        blocks: *blocks,
        cap: *cap,
        checks: *checks,
        journal: *journal,
    })
}

/// What a line `protect` says, by the words after its first: the octets that spell a path.
fn read_protect<'a>(words: &[u8], room: &'a mut [u8; LONGEST_PATH]) -> Option<Command<'a>>
    ensures { option_map command_of result ≡ protect_by (octets_of_words (words_of words.now)) }
{
    let Some(len) = decode_within(words, room) else {
        return None;
    };
    let octets = &room[..len];
    match Names::fault_in(octets) {
        None => Some(Command::Protect(octets)),
        Some(_) => None,
    }
}

/// What a line `pdu` says, by the words after its first: the octets that came.
fn read_pdu<'a>(words: &[u8], room: &'a mut Vec<u8>) -> Result<Command<'a>, LineFault>
    ensures ok { IfOk result (λ command. pdu_by (octets_of_words (words_of words.now)) ≡ Some (command_of command)) }
    ensures bad { (result ≡ Err Bad) ↔ (pdu_by (octets_of_words (words_of words.now)) ≡ None) }
    ensures memory { result ≡ Err LineFault.Memory → IsPdu (pdu_by (octets_of_words (words_of words.now))) }
{
    decode_words(words, room)?;
    if room.is_empty() {
        return Err(LineFault::Bad);
    }
    Ok(Command::Pdu(room.as_slice()))
}

/// What a line says whose other words name a transaction: something of the entity's own happened to it.
fn read_local<'a>(which: Local, words: &[u8]) -> Option<Command<'a>>
    ensures { option_map command_of result ≡ local_by which (id_by (numbers_of (words_of words.now))) }
{
    match id_in(words) {
        Some(id) => Some(Command::Local(which, id)),
        None => None,
    }
}

/// What a line says that has no other word than its first.
fn read_alone<'a>(words: &[u8], command: Command<'a>) -> Option<Command<'a>>
    ensures { option_map command_of result ≡ without_words (command_of command.entry) (words_of words.now) }
{
    let mut rest = words;
    match next_word(&mut rest) {
        None => Some(command),
        Some(_) => None,
    }
}

/// What a line says, if it says something.
fn found(command: Option<Command<'_>>) -> Result<Command<'_>, LineFault>
    ensures ok { IfOk result (λ found. option_map command_of command.entry ≡ Some (command_of found)) }
    ensures bad { (result ≡ Err Bad) ↔ (option_map command_of command.entry ≡ None) }
    ensures only { OnErr result (result ≡ Err Bad) }
{
    match command {
        Some(command) => Ok(command),
        None => Err(LineFault::Bad),
    }
}

/// What a line says, by its first word and the words after it.
fn read_words<'a>(
    keyword: Keyword,
    words: &[u8],
    room: &'a mut CommandRoom,
) -> Result<Command<'a>, LineFault>
    ensures ok { IfOk result (λ command. command_by keyword (words_of words.now) ≡ Some (command_of command)) }
    ensures bad { (result ≡ Err Bad) ↔ (command_by keyword (words_of words.now) ≡ None) }
    ensures memory { result ≡ Err LineFault.Memory → IsPdu (command_by keyword (words_of words.now)) }
{
    match keyword {
        Keyword::Config => found(read_config(words)),
        Keyword::Protect => found(read_protect(words, &mut room.path)),
        Keyword::Pdu => read_pdu(words, &mut room.pdu),
        Keyword::Local(which) => found(read_local(which, words)),
        Keyword::Run => found(read_alone(words, Command::Run)),
        Keyword::List => found(read_alone(words, Command::List)),
    }
}

/// What a line says that is neither too long nor a comment: nothing, where it has no word. The octets that it spells
/// are put into the room. Cost: one pass over the line.
///
/// # Errors
///
/// [`LineFault::Bad`] exactly if the line says none of these, even when out of memory; [`LineFault::Memory`] out of
/// memory, which only the octets of a PDU take.
pub fn read_command<'a>(
    line: &[u8],
    room: &'a mut CommandRoom,
) -> Result<Option<Command<'a>>, LineFault>
    ensures ok { IfOk result (λ command. command_in line.now ≡ Some (option_map command_of command)) }
    ensures bad { (result ≡ Err Bad) ↔ (command_in line.now ≡ None) }
    ensures memory { result ≡ Err LineFault.Memory → SaysPdu (command_in line.now) }
{
    let mut rest = line;
    let Some(word) = next_word(&mut rest) else {
        return Ok(None);
    };
    let Some(keyword) = keyword_of(word) else {
        return Err(LineFault::Bad);
    };
    let command = read_words(keyword, rest, room)?;
    Ok(Some(command))
}
