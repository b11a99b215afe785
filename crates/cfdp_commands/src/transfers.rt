//! The lines of `replay`: PDUs and local events, handed to one receiving entity.
ghost use Rattle.std.specs.Prelude.{◌≡◌};
ghost use Rattle.cfdp_commands.specs.Replay.{at_first};

use crate::commands::{CommandRoom, read_command};
use crate::stage::CommandStage;
use cfdp_lines::{LineFault, Script};
use std::alloc::Global;

/// A script of `replay`, between two lines.
#[derive(Drop)]
pub struct Transfers {
    stage: CommandStage,
    /// What the last line spelled: room that is used again for the next one.
    room: CommandRoom,
    /// What the last line wrote: its room is used again, too.
    text: Vec<u8>,
}

impl Transfers {
    ghost use Rattle.cfdp_commands.specs.Scripts.{transfers_of};

    /// Before the first line.
    pub fn new(alloc: Global) -> Self
        ensures { transfers_of result ≡ at_first }
    {
        Transfers {
            stage: CommandStage::new(),
            room: CommandRoom::new(alloc),
            text: Vec::new(alloc),
        }
    }
}

impl Script for Transfers {
    ghost use Rattle.cfdp_commands.specs.Replay.{ReplayStage, replay_answer};
    ghost use Rattle.cfdp_commands.specs.Scripts.{transfers_of};

    ghost State = { ReplayStage };

    ghost state = { λ s. transfers_of s };

    ghost answer = { replay_answer };

    fn line(&mut self, alloc: Global, line: &[u8], out: &mut Vec<u8>) -> Result<(), LineFault> {
        let command = match read_command(line, &mut self.room) {
            Ok(Some(command)) => command,
            Ok(None) => return Ok(()),
            Err(fault) => return Err(fault),
        };
        self.text.clear();
        self.stage.obey(alloc, command, &mut self.text)?;
        Ok(out.extend_from_slice(&self.text)?)
    }
}
