//! What the files of `links` say, all of them together.
ghost use Rattle.std.specs.Prelude.{◌≡◌, ℕ, ◌+◌, ◌≤◌, List, ◌∷◌, length, map, IfOk, IfErr, Ok, OnOk};
ghost use Rattle.std.specs.List.{AllByRecursion};
ghost use Rattle.cfdp_transactions.specs.World.{start};
ghost use Rattle.cfdp_lines.specs.Lines.{input_limit};
ghost use Rattle.cfdp_links.specs.Linked.{IsBadFile, IsHeard};
ghost use Rattle.cfdp_links.specs.Links.{files_from, link_files, said_of};
ghost use Rattle.cfdp_commands.specs.Stages.{setup_of};

use crate::link_lines::read_file;
use cfdp_commands::Setup;
use cfdp_engine::Message;
use cfdp_lines::LinkFault;
use cfdp_transactions::{Config, Core};
use cfdp_tree::TreeStore;
use std::alloc::{AllocError, Global};

/// What is made of the files before a worker starts.
#[derive(Drop)]
pub struct Prepared {
    /// An entity of their configuration, to which nothing has happened.
    pub core: Core<TreeStore>,

    /// What each file says, in their order.
    pub files: Vec<Vec<Message>>,
}

/// Reads the file with this number, and adds what it says.
///
/// # Errors
///
/// The file's first bad line; out of memory.
fn read_next(
    alloc: Global,
    file: u8,
    script: &[u8],
    setup: &mut Setup,
    files: &mut Vec<Vec<Message>>,
) -> Result<(), LinkFault>
    requires { length script.now ≤ input_limit }
    ensures ok { OnOk result ((scripts : List (List ℕ)) →
        files_from file (setup_of setup.old) (map (λ file. map said_of file.items) files.old.items)
        (script.now ∷ scripts)
        ≡ files_from (file + 1) (setup_of setup.new) (map (λ file. map said_of file.items) files.new.items) scripts) }
    ensures one { OnOk result (length files.new.items ≡ length files.old.items + 1) }
    ensures heard { OnOk result (AllByRecursion (λ file. AllByRecursion IsHeard (map said_of file.items))
        files.old.items → AllByRecursion (λ file. AllByRecursion IsHeard (map said_of file.items)) files.new.items) }
    ensures bad { IfErr result (λ fault. (scripts : List (List ℕ)) →
        IsBadFile (files_from file (setup_of setup.old) (map (λ file. map said_of file.items) files.old.items)
        (script.now ∷ scripts)) fault) }
{
    let messages = match read_file(alloc, file, setup, script) {
        Ok(messages) => messages,
        Err(fault) => return Err(fault),
    };
    let Ok(()) = files.push(messages) else {
        return Err(LinkFault::Memory);
    };
    setup.close();
    Ok(())
}

/// The core of an entity of this configuration, to which nothing has happened.
fn core_of(alloc: Global, config: Config) -> Result<Core<TreeStore>, AllocError>
    ensures { IfOk result (λ core. core.world ≡ start config) }
{
    let store = TreeStore::new(alloc, config.blocks())?;
    let core = Core::new(alloc, config, store)?;
    Ok(core)
}

/// Reads the files, in their order.
///
/// # Errors
///
/// The first bad line of the first file that has one; out of memory.
pub fn read_files(alloc: Global, scripts: &[Vec<u8>]) -> Result<Prepared, LinkFault>
    requires few { length scripts.now ≤ 4 }
    requires short { AllByRecursion (λ script. length script.items ≤ input_limit) scripts.now }
    ensures ok { IfOk result (λ prepared. link_files (map (λ script. script.items) scripts.now)
        ≡ Ok (record {
          config = prepared.core.world.config;
          said = map (λ file. map said_of file.items) prepared.files.items;
        })) }
    ensures each { IfOk result (λ prepared. length prepared.files.items ≡ length scripts.now) }
    ensures fresh { IfOk result (λ prepared. prepared.core.world ≡ start prepared.core.world.config) }
    ensures heard { IfOk result (λ prepared. AllByRecursion
        (λ file. AllByRecursion IsHeard (map said_of file.items)) prepared.files.items) }
    ensures bad { IfErr result (λ fault. IsBadFile (link_files (map (λ script. script.items) scripts.now)) fault) }
{
    let mut setup = Setup::new();
    let mut files = Vec::new(alloc);
    for (index, script) in scripts.iter().enumerate() {
        read_next(alloc, index as u8, script, &mut setup, &mut files)?;
    }
    let core = core_of(alloc, setup.take_config())?;
    Ok(Prepared { core, files })
}
