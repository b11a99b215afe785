//! The lines of the files of `links`: what each says to a worker.
ghost use Rattle.std.specs.Prelude.{◌≡◌, ◌↔◌, ◌≤◌, length, map, IfOk, IfErr, OnOk, OnErr, Err, Ok, Some, None};
ghost use Rattle.cfdp_commands.specs.Commands.{command_of};
ghost use Rattle.cfdp_links.specs.code.Linked.{AddsLine, IsBadLine};
ghost use Rattle.cfdp_lines.specs.Lines.{input_limit};
ghost use Rattle.cfdp_links.specs.Links.{Happened, file_said, link_answer, said_by, said_of};
ghost use Rattle.cfdp_links.specs.code.Links.{said_in};
ghost use Rattle.cfdp_lines.specs.Report.{line_answer};
ghost use Rattle.cfdp_commands.specs.Stages.{setup_of};
ghost use Rattle.cfdp_lines.specs.declared.faults.LineFault.TheVariants.{Bad};

use cfdp_commands::{Command, CommandRoom, Setup, read_command};
use cfdp_engine::Message;
use cfdp_lines::{COMMENT, LINE_LIMIT, LineFault, LinkFault, first_line};
use cfdp_transactions::Event;
use std::alloc::Global;
use std::sync::Arc;

/// The message of an event.
fn message_of(alloc: Global, event: Event) -> Result<Message, LineFault>
    ensures ok { IfOk result (λ message. said_of message ≡ Happened event) }
    ensures memory { OnErr result (result ≡ Err LineFault.Memory) }
{
    match Arc::new(alloc, event) {
        Ok(event) => Ok(Message::Event(event)),
        Err(_) => Err(LineFault::Memory),
    }
}

/// What a command says to a worker, if it says something to one.
fn message_by(
    alloc: Global,
    setup: &mut Setup,
    command: Command<'_>,
) -> Result<Option<Message>, LineFault>
    ensures ok { IfOk result (λ message. said_by (setup_of setup.old) (command_of command.entry)
        ≡ Some (setup_of setup.new, said_in message)) }
    ensures bad { (result ≡ Err Bad) ↔ (said_by (setup_of setup.old) (command_of command.entry) ≡ None) }
{
    match command {
        Command::Config {
            entity,
            blocks,
            cap,
            checks,
            journal,
        } => setup
            .configure(entity, blocks, cap, checks, journal)
            .map(|()| None),
        Command::Protect(octets) => setup.protect(alloc, octets).map(|()| None),
        Command::Pdu(octets) => {
            let message = Message::Pdu(Vec::from_slice(alloc, octets)?);
            setup.close();
            Ok(Some(message))
        }
        Command::Local(which, id) => {
            let message = message_of(alloc, which.event(id))?;
            setup.close();
            Ok(Some(message))
        }
        Command::Run => {
            setup.close();
            Ok(Some(Message::Run))
        }
        Command::List => Err(LineFault::Bad),
    }
}

/// What a line says that is neither too long nor a comment.
fn read_words(
    alloc: Global,
    setup: &mut Setup,
    line: &[u8],
    room: &mut CommandRoom,
) -> Result<Option<Message>, LineFault>
    ensures ok { IfOk result (λ message. link_answer (setup_of setup.old) line.now
        ≡ Some (setup_of setup.new, said_in message)) }
    ensures bad { (result ≡ Err Bad) ↔ (link_answer (setup_of setup.old) line.now ≡ None) }
{
    let Some(command) = read_command(line, room)? else {
        return Ok(None);
    };
    message_by(alloc, setup, command)
}

/// What a line says.
fn read_line(
    alloc: Global,
    setup: &mut Setup,
    line: &[u8],
    room: &mut CommandRoom,
) -> Result<Option<Message>, LineFault>
    ensures ok { IfOk result (λ message. line_answer link_answer (setup_of setup.old) line.now
        ≡ Some (setup_of setup.new, said_in message)) }
    ensures bad { (result ≡ Err Bad) ↔ (line_answer link_answer (setup_of setup.old) line.now ≡ None) }
{
    if line.len() > LINE_LIMIT {
        return Err(LineFault::Bad);
    }
    if line.first() == Some(&COMMENT) {
        return Ok(None);
    }
    read_words(alloc, setup, line, room)
}

/// Appends what a line says.
fn add_line(
    alloc: Global,
    setup: &mut Setup,
    line: &[u8],
    room: &mut CommandRoom,
    messages: &mut Vec<Message>,
) -> Result<(), LineFault>
    ensures ok { OnOk result (AddsLine (setup_of setup.old) (setup_of setup.new) line.now
        (map said_of messages.old.items) (map said_of messages.new.items)) }
    ensures bad { (result ≡ Err Bad) ↔ (line_answer link_answer (setup_of setup.old) line.now ≡ None) }
{
    let Some(message) = read_line(alloc, setup, line, room)? else {
        return Ok(());
    };
    let Ok(()) = messages.push(message) else {
        return Err(LineFault::Memory);
    };
    Ok(())
}

/// What the lines of the file with this number say, in order.
///
/// # Errors
///
/// The first bad line, by the file's number and its own, counted from 1; out of memory.
pub(crate) fn read_file(
    alloc: Global,
    file: u8,
    setup: &mut Setup,
    script: &[u8],
) -> Result<Vec<Message>, LinkFault>
    requires { length script.now ≤ input_limit }
    ensures ok { IfOk result (λ messages. file_said (setup_of setup.old) script.now
        ≡ Ok (record { stage = setup_of setup.new; said = map said_of messages.items })) }
    ensures bad { IfErr result (λ fault. IsBadLine (file_said (setup_of setup.old) script.now) file fault) }
{
    let mut messages = Vec::new(alloc);
    let mut room = CommandRoom::new(alloc);
    let mut rest = script;
    let mut number = 1u64;
    'lines: while !rest.is_empty() {
        let (line, following) = first_line(rest);
        match add_line(alloc, setup, line, &mut room, &mut messages) {
            Ok(()) => {}
            Err(LineFault::Bad) => return Err(LinkFault::BadLine(file, number)),
            Err(LineFault::Memory) => return Err(LinkFault::Memory),
        }
        rest = following;
        number += 1;
    }
    Ok(messages)
}
