//! What a script sets up before its first event.
ghost use Rattle.std.specs.Prelude.{◌≡◌, ◌↔◌, ◌≤◌, ◌^◌, [], None, Some, OnOk, OnErr, IfOk, IfSome, IsSome, Err};
ghost use Rattle.cfdp_transactions.specs.Config.{config_fault};
ghost use Rattle.cfdp_transactions.specs.World.{start};
ghost use Rattle.cfdp_commands.specs.Replay.{Running, at_first, configured, default_config, protected, stage_world};
ghost use Rattle.cfdp_commands.specs.Stages.{setup_of};
ghost use Rattle.cfdp_lines.specs.declared.faults.LineFault.TheVariants.{Bad};

use cfdp_actions::{MOST_PREFIXES, Protected};
use cfdp_lines::LineFault;
use cfdp_paths::{Path, PathFault};
use cfdp_transactions::Config;
use std::alloc::{AllocError, Global};
use std::mem;

/// The default configuration, with nothing protected.
fn default_config() -> Config
    ensures { result ≡ default_config }
{
    Config::new(2, 64, 2_400, 2, 1_000, Protected::new()).unwrap()
}

/// The configuration with these prefixes protected instead of its own.
fn with_prefixes(config: &Config, protected: Protected) -> Config
    ensures { result ≡ record config.now { prefixes = protected } }
{
    Config::new(
        config.entity(),
        config.blocks(),
        config.cap(),
        config.checks(),
        config.journal(),
        protected,
    )
    .unwrap()
}

/// A copy of the prefixes.
fn copy_prefixes(alloc: Global, protected: &Protected) -> Result<Protected, AllocError>
    ensures { IfOk result (λ copy. copy ≡ protected.now) }
{
    let mut copy = Protected::new();
    for index in 0..protected.len() {
        let Some(prefix) = protected.get(index) else {
            return Err(AllocError);
        };
        if copy.add(prefix.copy(alloc)?).is_err() {
            return Err(AllocError);
        }
    }
    Ok(copy)
}

/// A copy of the configuration. The only fault is out of memory. Cost: a copy of each protected path, at most eight.
pub fn copy_config(alloc: Global, config: &Config) -> Result<Config, AllocError>
    ensures { IfOk result (λ copy. copy ≡ config.now) }
{
    let protected = copy_prefixes(alloc, config.protected())?;
    Ok(with_prefixes(config, protected))
}

/// A number that may be a count of the configuration.
fn count_of(number: u64) -> Option<u32>
    ensures some { IfSome result (λ count. count ≡ number) }
    ensures none { result ≡ None → 2 ^ 32 ≤ number }
{
    match u32::try_from(number) {
        Ok(count) => Some(count),
        Err(_) => None,
    }
}

/// The configuration of these numbers, with nothing protected.
fn config_of(
    entity: u64,
    blocks: u64,
    cap: u64,
    checks: u64,
    journal: u64,
) -> Result<Config, LineFault>
    ensures ok { IfOk result (λ config. (config ≡ record {
      entity = entity;
      blocks = blocks;
      cap = cap;
      checks = checks;
      journal = journal;
      prefixes = [];
    })
        × (config_fault blocks cap checks journal ≡ None)) }
    ensures bad { OnErr result (IsSome (config_fault blocks cap checks journal)) }
    ensures only { OnErr result (result ≡ Err Bad) }
{
    let Some(blocks) = count_of(blocks) else {
        return Err(LineFault::Bad);
    };
    let Some(checks) = count_of(checks) else {
        return Err(LineFault::Bad);
    };
    let Some(journal) = count_of(journal) else {
        return Err(LineFault::Bad);
    };
    match Config::new(entity, blocks, cap, checks, journal, Protected::new()) {
        Ok(config) => Ok(config),
        Err(_) => Err(LineFault::Bad),
    }
}

/// What a line may still set up.
#[derive(Clone, Copy)]
pub(crate) enum SetupProgress {
    /// The configuration and paths: every line so far was blank or a comment.
    First,
    /// Paths.
    Open,
    /// Nothing: the first event came.
    Closed,
}

/// What a script sets up before its first event: the configuration, and the paths that are protected.
#[derive(Drop)]
pub struct Setup {
    progress: SetupProgress,
    /// The configuration, without the protected paths.
    config: Config,
    protected: Protected,
}

impl Setup {
    /// Before the first line. Takes no memory.
    pub fn new() -> Self
        ensures { setup_of result ≡ at_first }
    {
        Setup {
            progress: SetupProgress::First,
            config: default_config(),
            protected: Protected::new(),
        }
    }

    /// The configuration is given by its five numbers: the entity's ID, the blocks of the filestore, the cap in octets,
    /// the check limit, and the entries of the journal. Takes no memory.
    ///
    /// # Errors
    ///
    /// [`LineFault::Bad`] exactly if a line came before that was neither blank nor a comment, or a number is outside
    /// its limits.
    pub fn configure(
        &mut self,
        entity: u64,
        blocks: u64,
        cap: u64,
        checks: u64,
        journal: u64,
    ) -> Result<(), LineFault>
        ensures ok { OnOk result (configured (setup_of self.old) entity blocks cap checks journal
            ≡ Some (setup_of self.new)) }
        ensures bad { (result ≡ Err Bad) ↔ (configured (setup_of self.old) entity blocks cap checks journal
            ≡ None) }
    {
        let SetupProgress::First = self.progress else {
            return Err(LineFault::Bad);
        };
        let config = config_of(entity, blocks, cap, checks, journal)?;
        *self = Setup {
            progress: SetupProgress::Open,
            config,
            protected: Protected::new(),
        };
        Ok(())
    }

    /// A path is protected, by the octets that spell it. A line that is bad is reported even when out
    /// of memory: so whether one more path may be protected is tested first.
    ///
    /// # Errors
    ///
    /// [`LineFault::Bad`] exactly if an event came before, eight paths are protected, or the octets spell no path;
    /// [`LineFault::Memory`] out of memory.
    pub fn protect(&mut self, alloc: Global, octets: &[u8]) -> Result<(), LineFault>
        ensures ok { OnOk result (protected (setup_of self.old) octets.now ≡ Some (setup_of self.new)) }
        ensures bad { (result ≡ Err Bad) ↔ (protected (setup_of self.old) octets.now ≡ None) }
    {
        if let SetupProgress::Closed = self.progress {
            return Err(LineFault::Bad);
        }
        if self.protected.len() >= MOST_PREFIXES {
            return Err(LineFault::Bad);
        }
        let path = match Path::parse(alloc, octets) {
            Ok(path) => path,
            Err(PathFault::Memory) => return Err(LineFault::Memory),
            Err(_) => return Err(LineFault::Bad),
        };
        let Ok(()) = self.protected.add(path) else {
            unreachable!()
        };
        self.progress = SetupProgress::Open;
        Ok(())
    }

    /// The first event comes: nothing more is set up. Costs nothing.
    pub fn close(&mut self)
        ensures { setup_of self.new ≡ Running (stage_world (setup_of self.old)) }
    {
        self.progress = SetupProgress::Closed;
    }

    /// The configuration that was set up. It is moved out: nothing is protected any more in what is left. Takes no
    /// memory.
    pub fn take_config(&mut self) -> Config
        ensures { stage_world (setup_of self.old) ≡ start result }
    {
        with_prefixes(
            &self.config,
            mem::replace(&mut self.protected, Protected::new()),
        )
    }
}
