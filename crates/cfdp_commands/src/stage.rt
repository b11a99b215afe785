//! How far a script of `replay` is.
ghost use Rattle.std.specs.Prelude.{◌≡◌, ◌↔◌, [], None, Some, OnOk, Err};
ghost use Rattle.cfdp_commands.specs.Commands.{command_of};
ghost use Rattle.cfdp_commands.specs.Replay.{Running as IsRunning, at_first, obeyed, stage_world};
ghost use Rattle.cfdp_commands.specs.Stages.{setup_of, stage_of};
ghost use Rattle.cfdp_lines.specs.declared.faults.LineFault.TheVariants.{Bad};

use crate::commands::Command;
use crate::reply_lines;
use crate::setup::Setup;
use cfdp_entity::Entity;
use cfdp_lines::LineFault;
use std::alloc::Global;

/// Does what a line says after the first event, and puts what it writes into the empty text.
fn happen(
    alloc: Global,
    entity: &mut Entity,
    command: Command<'_>,
    text: &mut Vec<u8>,
) -> Result<(), LineFault>
    requires { text.old.items ≡ [] }
    ensures ok { OnOk result (obeyed (IsRunning entity.old) (command_of command.entry)
        ≡ Some (IsRunning entity.new, text.new.items)) }
    ensures bad { (result ≡ Err Bad) ↔ (obeyed (IsRunning entity.old) (command_of command.entry) ≡ None) }
{
    match command {
        Command::Config { .. } | Command::Protect(_) => Err(LineFault::Bad),
        Command::Pdu(octets) => Ok(reply_lines::receive(alloc, entity, octets, text)?),
        Command::Local(which, id) => Ok(reply_lines::tell(alloc, entity, &which.event(id), text)?),
        Command::Run => Ok(reply_lines::run(alloc, entity, text)?),
        Command::List => Ok(reply_lines::list(alloc, entity, text)?),
    }
}

/// How far a script is.
#[derive(Drop)]
pub(crate) struct CommandStage {
    /// What was set up before the first event.
    setup: Setup,
    /// From the first event on.
    entity: Option<Entity>,
}

impl CommandStage {
    /// Before the first line.
    pub(crate) fn new() -> Self
        ensures { stage_of result ≡ at_first }
    {
        CommandStage {
            setup: Setup::new(),
            entity: None,
        }
    }

    /// Makes the entity, and does what the line of the first event says. Not inlined: the room of its locals is large,
    /// and the lines after the first event are not to pay for it.
    #[cold]
    #[inline(never)]
    fn begin(
        &mut self,
        alloc: Global,
        command: Command<'_>,
        text: &mut Vec<u8>,
    ) -> Result<(), LineFault>
        requires { text.old.items ≡ [] }
        ensures ok { OnOk result (obeyed (IsRunning (stage_world (setup_of self.old.setup))) (command_of command.entry)
            ≡ Some (stage_of self.new, text.new.items)) }
        ensures bad { result ≡ Err Bad
            → obeyed (IsRunning (stage_world (setup_of self.old.setup))) (command_of command.entry) ≡ None }
    {
        let mut entity = Entity::new(alloc, self.setup.take_config())?;
        let done = happen(alloc, &mut entity, command, text);
        self.entity = Some(entity);
        done
    }

    /// Does what a line says, and puts what it writes into the empty text.
    pub(crate) fn obey(
        &mut self,
        alloc: Global,
        command: Command<'_>,
        text: &mut Vec<u8>,
    ) -> Result<(), LineFault>
        requires { text.old.items ≡ [] }
        ensures ok { OnOk result (obeyed (stage_of self.old) (command_of command.entry)
            ≡ Some (stage_of self.new, text.new.items)) }
        ensures bad { (result ≡ Err Bad) ↔ (obeyed (stage_of self.old) (command_of command.entry) ≡ None) }
    {
        if let Some(entity) = &mut self.entity {
            return happen(alloc, entity, command, text);
        }
        match command {
            Command::Config {
                entity,
                blocks,
                cap,
                checks,
                journal,
            } => self.setup.configure(entity, blocks, cap, checks, journal),
            Command::Protect(octets) => self.setup.protect(alloc, octets),
            Command::Pdu(_) | Command::Local(..) | Command::Run | Command::List => {
                self.begin(alloc, command, text)
            }
        }
    }
}
