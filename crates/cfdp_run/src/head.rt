//! The head of a script: what its lines `mib`, `config`, `protect` and `put` say.

ghost use Rattle.std.specs.Prelude.{◌≡◌, ◌≢◌, [], replicate, None, Some, Err, Ok, IfErr, IfOk, OnErr, OnOk};
ghost use Rattle.std.specs.Option.{option_map};
ghost use Rattle.cfdp_actions.specs.Filestore.{Directory, File};
ghost use Rattle.cfdp_receiver.specs.StateMachine.{mib_fault};
ghost use Rattle.cfdp_run.specs.Putting.{path_wrong};
ghost use Rattle.cfdp_run.specs.Scripts.{begun, first_config, first_head, progress_by, head_protected, put_node, with_config, with_mib};
ghost use Rattle.cfdp_run.specs.Stops.{IsWrong, NoMemory, stop_of};

use crate::play::Play;
use crate::putting::{path_fault, put_directory, put_file};
use crate::reconfigured::reconfigured;
use crate::run_commands::HeadProgress;
use crate::settings::default_mib;
use crate::stop::ScriptStop;
use crate::wrong::Wrong;
use cfdp_actions::Protected;
use cfdp_entity::Entity;
use cfdp_paths::Path;
use cfdp_receiver::{Mib, NotMade, Receiver};
use cfdp_transactions::Config;
use std::alloc::{AllocError, Global};
use std::mem;

/// The configuration of a script that gives none, with nothing protected.
fn first_config() -> Config
    ensures { result ≡ first_config }
{
    Config::new(2, 64, 2_400, 2, 1_000, Protected::new()).unwrap()
}

/// The configuration, with these prefixes protected instead of its own.
fn with_prefixes(config: &Config, protected: Protected) -> Config
    ensures { result ≡ record config.now { prefixes = protected } }
{
    Config::new(
        config.entity(),
        config.blocks(),
        config.cap(),
        config.checks(),
        config.journal(),
        protected,
    )
    .unwrap()
}

/// What the lines of a head have said so far.
#[derive(Drop)]
pub struct Head {
    mib: Mib,
    /// The entity whose filestore has what was put. Nothing is protected in it.
    entity: Entity,
    protected: Protected,
    /// Whether a line `config`, `protect` or `put` came.
    has_begun: bool,
    ghost fits: { mib_fault mib ≡ None },
    ghost idle: { entity.table ≡ [] },
    ghost staged: { entity.filestore.staged ≡ replicate 64 [] },
}

impl Head {
    ghost use Rattle.cfdp_run.specs.Stages.{head_of, play_from};

    /// The head before its first line: the settings are those of [`default_mib`], and the filestore is empty. The
    /// entity has the ID 2 and 64 blocks, and nothing is protected.
    ///
    /// # Errors
    ///
    /// [`AllocError`] when out of memory. Cost: that of [`Entity::new`].
    pub fn new(alloc: Global) -> Result<Head, AllocError>
        ensures { IfOk result (λ head. head_of head ≡ first_head) }
    {
        Ok(Head {
            mib: default_mib(),
            entity: Entity::new(alloc, first_config())?,
            protected: Protected::new(),
            has_begun: false,
        })
    }

    /// The settings of the receiver, as the lines `mib` so far say. Each is within its limits. Costs nothing.
    pub fn mib(&self) -> Mib
        ensures value { result ≡ (head_of self.now).mib }
        ensures fits { mib_fault result ≡ None }
    {
        self.mib
    }

    /// The entity whose filestore has what was put so far. Costs nothing.
    pub fn entity(&self) -> &Entity
        ensures { result.now.filestore ≡ (head_of self.now).world.filestore }
    {
        &self.entity
    }

    /// Whether a line `config`, `protect` or `put` came: after one of these a `config` is too late. Costs nothing.
    pub fn progress(&self) -> HeadProgress
        ensures { result ≡ progress_by (head_of self.now).has_begun }
    {
        if self.has_begun {
            HeadProgress::Begun
        } else {
            HeadProgress::Fresh
        }
    }

    /// Carries out a line `mib`: these are the settings from now on. Each has to be within its limits. Costs nothing.
    #[tactic(auto, unfolding(crate::specs::Scripts::with_mib))]
    pub fn set(&mut self, mib: Mib)
        requires { mib_fault mib ≡ None }
        ensures { head_of self.new ≡ with_mib (head_of self.old) mib }
    {
        self.mib = mib;
    }

    /// Carries out a line `config`: the entity has this configuration from now on, and an empty filestore. What was put
    /// before is gone. The prefixes that were protected stay so.
    ///
    /// # Errors
    ///
    /// [`AllocError`] when out of memory: the head is as before. Cost: that of [`Entity::new`].
    #[tactic(auto, unfolding(crate::specs::Scripts::with_config))]
    pub fn configure(&mut self, alloc: Global, config: Config) -> Result<(), AllocError>
        ensures { OnOk result (head_of self.new ≡ with_config (head_of self.old) config) }
    {
        self.entity = Entity::new(alloc, config)?;
        self.has_begun = true;
        Ok(())
    }

    /// Carries out a line `protect`: what is at or below the path is protected from now on.
    ///
    /// # Errors
    ///
    /// [`Wrong::TooManyProtected`] where eight paths are protected already: the head is as before. Cost: the move of
    /// the path.
    #[tactic(auto, unfolding(crate::specs::Scripts::head_protected))]
    pub fn protect(&mut self, path: Path) -> Result<(), ScriptStop>
        ensures ok { OnOk result (head_protected (head_of self.old) path ≡ Ok (head_of self.new)) }
        ensures err { IfErr result (λ why. head_protected (head_of self.old) path ≡ Err (stop_of why)) }
        ensures same { OnErr result (head_of self.new ≡ head_of self.old) }
    {
        let Ok(()) = self.protected.add(path) else {
            return Err(ScriptStop::Wrong(Wrong::TooManyProtected));
        };
        self.has_begun = true;
        Ok(())
    }

    /// Checks that something can be put at a path, whatever it is. [`put_directory`](Head::put_directory) and
    /// [`put_file`](Head::put_file) need this.
    ///
    /// # Errors
    ///
    /// - [`Wrong::Taken`] where a file or a directory has the path.
    /// - [`Wrong::ParentIsFile`] where one of its parents is a file.
    /// - [`ScriptStop::Memory`] when out of memory.
    ///
    /// Cost: a look-up of the path, and a look-up and a copy of each of its parents.
    pub fn check_path(&self, alloc: Global, path: &Path) -> Result<(), ScriptStop>
        ensures ok { OnOk result (path_wrong (head_of self.now).world.filestore path.now ≡ None) }
        ensures err { IfErr result (λ why. stop_of why ≢ NoMemory →
            option_map IsWrong (path_wrong (head_of self.now).world.filestore path.now) ≡ Some (stop_of why)) }
    {
        match path_fault(alloc, &self.entity, path)? {
            None => Ok(()),
            Some(wrong) => Err(ScriptStop::Wrong(wrong)),
        }
    }

    /// Puts a directory at a path, and directories at the parents that are missing. [`check_path`](Head::check_path)
    /// must find nothing wrong with the path.
    ///
    /// # Errors
    ///
    /// - [`Wrong::NoRoom`] where the filestore has too few free blocks.
    /// - [`ScriptStop::Memory`] when out of memory.
    ///
    /// The head is as before then.
    ///
    /// Cost: a look-up of the path and of each of its parents, and one block for each directory that is made.
    #[tactic(auto, unfolding(crate::specs::Scripts::put_node))]
    pub fn put_directory(&mut self, alloc: Global, path: &Path) -> Result<(), ScriptStop>
        requires { path_wrong (head_of self.old).world.filestore path.now ≡ None }
        ensures ok { OnOk result (put_node (head_of self.old) path.now Directory ≡ Ok (head_of self.new)) }
        ensures err { IfErr result (λ why. stop_of why ≢ NoMemory → put_node (head_of self.old) path.now Directory
            ≡ Err (stop_of why)) }
        ensures same { OnErr result (head_of self.new ≡ head_of self.old) }
    {
        if let Some(wrong) = put_directory(alloc, &mut self.entity, path)? {
            return Err(ScriptStop::Wrong(wrong));
        }
        self.has_begun = true;
        Ok(())
    }

    /// Puts a file with these octets at a path, and directories at the parents that are missing.
    /// [`check_path`](Head::check_path) must find nothing wrong with the path.
    ///
    /// # Errors
    ///
    /// - [`Wrong::NoRoom`] where the filestore has too few free blocks.
    /// - [`ScriptStop::Memory`] when out of memory.
    ///
    /// The head is as before then.
    ///
    /// Cost: as for a directory, and two passes over the octets.
    #[tactic(auto, unfolding(crate::specs::Scripts::put_node))]
    pub fn put_file(&mut self, alloc: Global, path: &Path, octets: &[u8]) -> Result<(), ScriptStop>
        requires { path_wrong (head_of self.old).world.filestore path.now ≡ None }
        ensures ok { OnOk result (put_node (head_of self.old) path.now (File octets.now) ≡ Ok (head_of self.new)) }
        ensures err { IfErr result (λ why. stop_of why ≢ NoMemory →
            put_node (head_of self.old) path.now (File octets.now) ≡ Err (stop_of why)) }
        ensures same { OnErr result (head_of self.new ≡ head_of self.old) }
    {
        if let Some(wrong) = put_file(alloc, &mut self.entity, path, octets)? {
            return Err(ScriptStop::Wrong(wrong));
        }
        self.has_begun = true;
        Ok(())
    }

    /// The head is over: the receiving entity that it describes. The prefixes are moved out of it.
    ///
    /// # Errors
    ///
    /// [`AllocError`] when out of memory. Cost: that of the entity and the receiver, and three passes over what was
    /// put.
    #[tactic(auto, unfolding(crate::specs::Scripts::begun))]
    pub fn play(&mut self, alloc: Global) -> Result<Play, AllocError>
        ensures { IfOk result (λ play. play_from play ≡ begun (head_of self.old)) }
    {
        let protected = mem::replace(&mut self.protected, Protected::new());
        let config = with_prefixes(self.entity.core().config(), protected);
        let entity = reconfigured(alloc, config, &self.entity)?;
        match Receiver::new(alloc, self.mib, entity) {
            Ok(receiver) => Play::new(alloc, receiver),
            Err(unmade) => match unmade.why {
                NotMade::Memory => Err(AllocError),
                NotMade::Mib(_) | NotMade::HasTransactions => unreachable!(),
            },
        }
    }
}
