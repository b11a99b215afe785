//! A line of a script is read.

ghost use Rattle.std.specs.Prelude.{◌≡◌, ◌≤◌, ◌<◌, ◌^◌, ◌&&◌, length, true, Some, None, Ok, Err, IfOk, IfErr, IfSome, position, is_ok, is_some, option_map};
ghost use Rattle.std.specs.Option.{option_copied};
ghost use Rattle.cfdp_lines.specs.Words.{numbers_of, words_of};
ghost use Rattle.cfdp_paths.specs.Paths.{path_of};
ghost use Rattle.cfdp_plans.specs.Names.{name_in};
ghost use Rattle.cfdp_run.specs.Words.{is_of_head};
ghost use Rattle.cfdp_run.specs.Commands.{IfWrong, OnMemory, says_alone, asks_by, asks_memory, at_in, before_slash, meaning_in, config_in, config_of, content_in, content_of, directory_or_file, in_time, input_in, is_equals, is_fresh, is_playing, line_in, octets_spelled, only_name, only_path, put_alone, put_in, command_meaning, says, setting, settings_in, takes_memory, texts_say};

use crate::run_commands::{CommandFault, FileContent, HeadProgress, RunCommand};
use crate::settings::key_of;
use crate::words::{FirstWord, word_of};
use crate::wrong::Wrong;
use cfdp_actions::Protected;
use cfdp_lines::{
    COMMENT, LINE_LIMIT, LineFault, decode_words, id_in, next_word, number_of, numbers_of,
};
use cfdp_paths::{Path, PathFault};
use cfdp_plans::{parse_path, read_name};
use cfdp_receiver::Mib;
use cfdp_status::TransactionId;
use cfdp_transactions::Config;
use std::alloc::Global;

/// The index of the first `=` of a word.
fn equals_in(word: &[u8]) -> Option<usize>
    ensures at { result ≡ position is_equals word.now }
    ensures within { IfSome result (λ at. at < length word.now) }
{
    word.iter().position(|octet| *octet == b'=')
}

/// Sets what a word `KEY=VALUE` writes.
fn set(mib: &mut Mib, word: &[u8]) -> Result<(), Wrong>
    ensures ok { IfOk result (λ done. setting mib.old word.now ≡ Ok mib.new) }
    ensures wrong { IfErr result (λ wrong. setting mib.old word.now ≡ Err wrong) }
{
    let Some(end) = equals_in(word) else {
        return Err(Wrong::UnknownKey);
    };
    let Some(key) = key_of(&word[..end]) else {
        return Err(Wrong::UnknownKey);
    };
    match key.set(mib, &word[end + 1..]) {
        Some(()) => Ok(()),
        None => Err(Wrong::OutOfRange(key)),
    }
}

/// The settings of a line `mib`, by the words after its first.
fn read_settings(mib: Mib, words: &[u8]) -> Result<Mib, Wrong>
    ensures { result ≡ settings_in mib (words_of words.now) }
{
    let mut rest = words;
    let mut settings = mib;
    let Some(first) = next_word(&mut rest) else {
        return Err(Wrong::Expected(FirstWord::Mib));
    };
    set(&mut settings, first)?;
    'words: while let Some(word) = next_word(&mut rest) {
        set(&mut settings, word)?;
    }
    Ok(settings)
}

/// A number of a configuration, below 2^32.
fn count_of(number: u64) -> Result<u32, Wrong>
    ensures ok { IfOk result (λ count. count ≡ number) }
    ensures wrong { IfErr result (λ wrong. (wrong ≡ Wrong.ConfigRange) × (2 ^ 32 ≤ number)) }
{
    match u32::try_from(number) {
        Ok(count) => Ok(count),
        Err(_) => Err(Wrong::ConfigRange),
    }
}

/// The configuration of these numbers, with nothing protected.
fn config_of(entity: u64, blocks: u64, cap: u64, checks: u64, journal: u64) -> Result<Config, Wrong>
    ensures { result ≡ config_of entity blocks cap checks journal }
{
    let blocks = count_of(blocks)?;
    let checks = count_of(checks)?;
    let journal = count_of(journal)?;
    match Config::new(entity, blocks, cap, checks, journal, Protected::new()) {
        Ok(config) => Ok(config),
        Err(_) => Err(Wrong::ConfigRange),
    }
}

/// Whether a `config` comes in time.
fn is_fresh(progress: HeadProgress) -> bool
    ensures { result ≡ is_fresh progress }
{
    match progress {
        HeadProgress::Fresh => true,
        HeadProgress::Begun | HeadProgress::Playing => false,
    }
}

/// The configuration of a line `config`, by the words after its first.
fn read_config(progress: HeadProgress, words: &[u8]) -> Result<Config, Wrong>
    ensures { result ≡ config_in progress (numbers_of (words_of words.now)) }
{
    let Some(numbers) = numbers_of(words) else {
        return Err(Wrong::Expected(FirstWord::Config));
    };
    let [entity, blocks, cap, checks, journal] = numbers.as_slice() else {
        return Err(Wrong::Expected(FirstWord::Config));
    };
    if !is_fresh(progress) {
        return Err(Wrong::ConfigTooLate);
    }
    config_of(*entity, *blocks, *cap, *checks, *journal)
}

/// The path that is the only word of some.
fn read_only_path(alloc: Global, word: FirstWord, words: &[u8]) -> Result<Path, CommandFault>
    ensures ok { IfOk result (λ path. only_path word (words_of words.now) ≡ Ok path) }
    ensures wrong { IfWrong result (λ wrong. only_path word (words_of words.now) ≡ Err wrong) }
    ensures memory { OnMemory result (asks_by (λ path. true) (only_path word (words_of words.now)) ≡ true) }
{
    let mut rest = words;
    let Some(text) = next_word(&mut rest) else {
        return Err(CommandFault::Wrong(Wrong::Expected(word)));
    };
    if next_word(&mut rest).is_some() {
        return Err(CommandFault::Wrong(Wrong::Expected(word)));
    }
    match parse_path(alloc, text)? {
        Some(path) => Ok(path),
        None => Err(CommandFault::Wrong(Wrong::NoPath)),
    }
}

/// The octets that one or more words spell. They are decoded once, and not copied.
fn read_octets(alloc: Global, word: FirstWord, words: &[u8]) -> Result<Vec<u8>, CommandFault>
    ensures ok { IfOk result (λ octets. octets_spelled (words_of words.now) ≡ Some octets.items) }
    ensures wrong { IfWrong result (λ wrong. (wrong ≡ Wrong.Expected word) ×
        (octets_spelled (words_of words.now) ≡ None)) }
    ensures memory { OnMemory result (is_some (octets_spelled (words_of words.now)) ≡ true) }
{
    let mut octets = Vec::new(alloc);
    match decode_words(words, &mut octets) {
        Ok(()) if octets.is_empty() => Err(CommandFault::Wrong(Wrong::Expected(word))),
        Ok(()) => Ok(octets),
        Err(LineFault::Bad) => Err(CommandFault::Wrong(Wrong::Expected(word))),
        Err(LineFault::Memory) => Err(CommandFault::Memory),
    }
}

/// What a file of a line `put` holds, by the words after its path.
fn read_content(alloc: Global, words: &[u8]) -> Result<FileContent<'_>, CommandFault>
    ensures ok { IfOk result (λ content. content_in (words_of words.now) ≡ Some (content_of content)) }
    ensures wrong { IfWrong result
        (λ wrong. (wrong ≡ Wrong.Expected FirstWord.Put) × (content_in (words_of words.now) ≡ None)) }
    ensures memory { OnMemory result (is_some (content_in (words_of words.now)) ≡ true) }
{
    let mut rest = words;
    if let Some([b'@', name @ ..]) = next_word(&mut rest) {
        return match next_word(&mut rest) {
            None => Ok(FileContent::File(name)),
            Some(_) => Err(CommandFault::Wrong(Wrong::Expected(FirstWord::Put))),
        };
    }
    let octets = read_octets(alloc, FirstWord::Put, words)?;
    Ok(FileContent::Octets(octets))
}

/// The path that some octets spell.
fn path_of(alloc: Global, octets: &[u8]) -> Result<Path, CommandFault>
    ensures ok { IfOk result (λ path. path_of octets.now ≡ Some path) }
    ensures wrong { IfWrong result (λ wrong. (wrong ≡ Wrong.NoPath) × (path_of octets.now ≡ None)) }
{
    match Path::parse(alloc, octets) {
        Ok(path) => Ok(path),
        Err(PathFault::Memory) => Err(CommandFault::Memory),
        Err(_) => Err(CommandFault::Wrong(Wrong::NoPath)),
    }
}

/// The octets without the `/` at their end, if they have one.
fn before_slash(octets: &[u8]) -> Option<&[u8]>
    ensures { option_copied result ≡ before_slash octets.now }
{
    match octets {
        [front @ .., b'/'] => Some(front),
        _ => None,
    }
}

/// A directory, by its path with a `/` at its end, or an empty file, by its path.
fn read_directory_or_file<'a>(alloc: Global, octets: &[u8]) -> Result<RunCommand<'a>, CommandFault>
    ensures ok { IfOk result
        (λ command. directory_or_file octets.now (before_slash octets.now) ≡ Ok (command_meaning command)) }
    ensures wrong { IfWrong result (λ wrong. directory_or_file octets.now (before_slash octets.now) ≡ Err wrong) }
{
    match before_slash(octets) {
        Some(front) => Ok(RunCommand::PutDirectory(path_of(alloc, front)?)),
        None => Ok(RunCommand::PutFile(path_of(alloc, octets)?, FileContent::None)),
    }
}

/// What a line `put` with one word after its first says: an empty file, or a directory.
fn read_empty<'a>(alloc: Global, text: &[u8]) -> Result<RunCommand<'a>, CommandFault>
    ensures ok { IfOk result (λ command. put_alone (name_in text.now) ≡ Ok (command_meaning command)) }
    ensures wrong { IfWrong result (λ wrong. put_alone (name_in text.now) ≡ Err wrong) }
    ensures memory { OnMemory result (asks_by takes_memory (put_alone (name_in text.now)) ≡ true) }
{
    match read_name(alloc, text)? {
        Some(octets) => read_directory_or_file(alloc, &octets),
        None => Err(CommandFault::Wrong(Wrong::NoPath)),
    }
}

/// What a line `put` says, by the words after its first.
fn read_put<'a>(alloc: Global, words: &'a [u8]) -> Result<RunCommand<'a>, CommandFault>
    ensures ok { IfOk result (λ command. put_in (words_of words.entry.now) ≡ Ok (command_meaning command)) }
    ensures wrong { IfWrong result (λ wrong. put_in (words_of words.entry.now) ≡ Err wrong) }
    ensures memory { OnMemory result (asks_by takes_memory (put_in (words_of words.entry.now)) ≡ true) }
{
    let mut rest = words;
    let Some(text) = next_word(&mut rest) else {
        return Err(CommandFault::Wrong(Wrong::Expected(FirstWord::Put)));
    };
    let mut more = rest;
    if next_word(&mut more).is_none() {
        return read_empty(alloc, text);
    }
    let content = read_content(alloc, rest)?;
    match parse_path(alloc, text)? {
        Some(path) => Ok(RunCommand::PutFile(path, content)),
        None => Err(CommandFault::Wrong(Wrong::NoPath)),
    }
}

/// The transaction that is named by the only words of some.
fn read_only_name(word: FirstWord, words: &[u8]) -> Result<TransactionId, CommandFault>
    ensures ok { IfOk result (λ id. only_name word (words_of words.now) ≡ Ok id) }
    ensures wrong { IfWrong result (λ wrong. only_name word (words_of words.now) ≡ Err wrong) }
    ensures never { OnMemory result ⊥ }
{
    match id_in(words) {
        Some(id) => Ok(id),
        None => Err(CommandFault::Wrong(Wrong::Expected(word))),
    }
}

/// What a line `at` says, by the words after its time.
fn read_input<'a>(alloc: Global, now: u64, words: &[u8]) -> Result<RunCommand<'a>, CommandFault>
    ensures ok { IfOk result (λ command. input_in now (words_of words.now) ≡ Ok (command_meaning command)) }
    ensures wrong { IfWrong result (λ wrong. input_in now (words_of words.now) ≡ Err wrong) }
    ensures memory { OnMemory result (asks_by takes_memory (input_in now (words_of words.now)) ≡ true) }
{
    let mut rest = words;
    let Some(word) = next_word(&mut rest) else {
        return Ok(RunCommand::Pass { now });
    };
    if word == b"pdu".as_slice() {
        let octets = read_octets(alloc, FirstWord::At, rest)?;
        return Ok(RunCommand::Receive { now, octets });
    }
    if word == b"cancel".as_slice() {
        let id = read_only_name(FirstWord::At, rest)?;
        return Ok(RunCommand::Cancel { now, id });
    }
    if word == b"clock".as_slice() && next_word(&mut rest).is_none() {
        return Ok(RunCommand::SetClock { now });
    }
    Err(CommandFault::Wrong(Wrong::Expected(FirstWord::At)))
}

/// What a line `at` says, by the words after its first.
fn read_at<'a>(alloc: Global, words: &[u8]) -> Result<RunCommand<'a>, CommandFault>
    ensures ok { IfOk result (λ command. at_in (words_of words.now) ≡ Ok (command_meaning command)) }
    ensures wrong { IfWrong result (λ wrong. at_in (words_of words.now) ≡ Err wrong) }
    ensures memory { OnMemory result (asks_by takes_memory (at_in (words_of words.now)) ≡ true) }
{
    let mut rest = words;
    let Some(time) = next_word(&mut rest) else {
        return Err(CommandFault::Wrong(Wrong::Expected(FirstWord::At)));
    };
    match number_of(time) {
        Some(now) => read_input(alloc, now, rest),
        None => Err(CommandFault::Wrong(Wrong::Expected(FirstWord::At))),
    }
}

/// The words of a line `expect` after its first, with one space between them.
fn read_line(alloc: Global, words: &[u8]) -> Result<Vec<u8>, CommandFault>
    ensures ok { IfOk result (λ line. line_in (words_of words.now) ≡ Ok line.items) }
    ensures wrong { IfWrong result (λ wrong. line_in (words_of words.now) ≡ Err wrong) }
    ensures memory { OnMemory result (is_ok (line_in (words_of words.now)) ≡ true) }
{
    let mut rest = words;
    let Some(first) = next_word(&mut rest) else {
        return Err(CommandFault::Wrong(Wrong::Expected(FirstWord::Expect)));
    };
    let mut line = Vec::from_slice(alloc, first)?;
    'words: while let Some(word) = next_word(&mut rest) {
        line.extend_from_slice(b" ")?;
        line.extend_from_slice(word)?;
    }
    Ok(line)
}

/// What a line says that has no other word than its first.
fn read_alone<'a>(
    word: FirstWord,
    words: &[u8],
    command: RunCommand<'a>,
) -> Result<RunCommand<'a>, CommandFault>
    ensures ok { IfOk result (λ read. says_alone word (command_meaning command.entry) (words_of words.now) ≡ Ok
        (command_meaning read)) }
    ensures wrong { IfWrong result (λ wrong. says_alone word (command_meaning command.entry) (words_of words.now)
        ≡ Err wrong) }
    ensures never { OnMemory result ⊥ }
{
    let mut rest = words;
    match next_word(&mut rest) {
        None => Ok(command),
        Some(_) => Err(CommandFault::Wrong(Wrong::Expected(word))),
    }
}

/// What a line says, by its first word and those after it.
fn read_words<'a>(
    alloc: Global,
    word: FirstWord,
    words: &'a [u8],
    mib: Mib,
    progress: HeadProgress,
) -> Result<RunCommand<'a>, CommandFault>
    ensures ok { IfOk result (λ command. says mib progress word (words_of words.entry.now) ≡ Ok
        (command_meaning command)) }
    ensures wrong { IfWrong result (λ wrong. says mib progress word (words_of words.entry.now) ≡ Err wrong) }
    ensures memory { OnMemory result (asks_by takes_memory (says mib progress word (words_of words.entry.now)) ≡ true) }
{
    match word {
        FirstWord::Mib => Ok(RunCommand::Settings(read_settings(mib, words)?)),
        FirstWord::Config => Ok(RunCommand::Configure(read_config(progress, words)?)),
        FirstWord::Protect => Ok(RunCommand::Protect(read_only_path(alloc, word, words)?)),
        FirstWord::Put => read_put(alloc, words),
        FirstWord::At => read_at(alloc, words),
        FirstWord::Get => Ok(RunCommand::Get(read_only_path(alloc, word, words)?)),
        FirstWord::Gaps => Ok(RunCommand::Gaps(read_only_name(word, words)?)),
        FirstWord::Phase => Ok(RunCommand::Phase(read_only_name(word, words)?)),
        FirstWord::List => read_alone(word, words, RunCommand::List),
        FirstWord::Expect => Ok(RunCommand::Expect(read_line(alloc, words)?)),
        FirstWord::End => read_alone(word, words, RunCommand::End),
    }
}

/// Whether a line that begins with this word comes too late.
fn is_too_late(word: FirstWord, progress: HeadProgress) -> bool
    ensures { result ≡ (is_of_head word && is_playing progress) }
{
    match progress {
        HeadProgress::Fresh | HeadProgress::Begun => false,
        HeadProgress::Playing => word.is_of_head(),
    }
}

/// What a line says, by its first word and those after it, if it comes in time.
fn read_in_time<'a>(
    alloc: Global,
    word: FirstWord,
    words: &'a [u8],
    mib: Mib,
    progress: HeadProgress,
) -> Result<RunCommand<'a>, CommandFault>
    ensures ok { IfOk result (λ command. in_time mib progress word (words_of words.entry.now) ≡ Ok
        (command_meaning command)) }
    ensures wrong { IfWrong result (λ wrong. in_time mib progress word (words_of words.entry.now) ≡ Err wrong) }
    ensures memory { OnMemory result
        (asks_by takes_memory (in_time mib progress word (words_of words.entry.now)) ≡ true) }
{
    if is_too_late(word, progress) {
        return Err(CommandFault::Wrong(Wrong::TooLate(word)));
    }
    read_words(alloc, word, words, mib, progress)
}

/// What a line says that is not too long and no comment.
fn read_worded<'a>(
    alloc: Global,
    line: &'a [u8],
    mib: Mib,
    progress: HeadProgress,
) -> Result<Option<RunCommand<'a>>, CommandFault>
    ensures ok { IfOk result
        (λ command. texts_say mib progress (words_of line.entry.now) ≡ Ok (option_map command_meaning command)) }
    ensures wrong { IfWrong result (λ wrong. texts_say mib progress (words_of line.entry.now) ≡ Err wrong) }
    ensures memory { OnMemory result (asks_memory (texts_say mib progress (words_of line.entry.now)) ≡ true) }
{
    let mut rest = line;
    let Some(first) = next_word(&mut rest) else {
        return Ok(None);
    };
    let Some(word) = word_of(first) else {
        return Err(CommandFault::Wrong(Wrong::UnknownWord));
    };
    match read_in_time(alloc, word, rest, mib, progress) {
        Ok(command) => Ok(Some(command)),
        Err(fault) => Err(fault),
    }
}

/// What a line says, without its newline. `None`: it is a comment, or it has no word. `mib` are the settings before it.
///
/// # Errors
///
/// The first of these: [`Wrong::TooLong`] (also of a comment), [`Wrong::UnknownWord`], [`Wrong::TooLate`],
/// [`Wrong::Expected`]; then those of the line's word. A bad line is reported even when out of memory, but for
/// [`Wrong::NoPath`]: [`CommandFault::Memory`] comes only where a path is read, or where the line is good and has
/// octets or a line in it.
///
/// Cost: a pass over the line, and one more over a path. The octets of hexadecimal are decoded into a vector of their
/// own, and a file's name is lent.
pub fn read_run_command<'a>(
    alloc: Global,
    line: &'a [u8],
    mib: Mib,
    progress: HeadProgress,
) -> Result<Option<RunCommand<'a>>, CommandFault>
    ensures ok { IfOk result (λ command. meaning_in mib progress line.entry.now ≡ Ok
        (option_map command_meaning command)) }
    ensures wrong { IfWrong result (λ wrong. meaning_in mib progress line.entry.now ≡ Err wrong) }
    ensures memory { OnMemory result (asks_memory (meaning_in mib progress line.entry.now) ≡ true) }
{
    if line.len() > LINE_LIMIT {
        return Err(CommandFault::Wrong(Wrong::TooLong));
    }
    if line.first() == Some(&COMMENT) {
        return Ok(None);
    }
    read_worded(alloc, line, mib, progress)
}
