//! The configuration of a receiving entity.

ghost use Rattle.std.specs.Prelude.{◌≡◌, Some, None, IfErr, IfOk, OnOk};
ghost use Rattle.cfdp_transactions.specs.Config.{config_fault};
ghost use Rattle.cfdp_transactions.specs.ConfigEquality.{same_config, same_counts, same_store};
ghost use Rattle.cfdp_transactions.specs.code.ConfigEquality.{config_equiv, config_per};
ghost use Rattle.cfdp_transactions.specs.ConfigWords.{config_fault_text};

use cfdp_actions::Protected;
use std::error::Error;
use std::fmt;
use std::marker::Model;

/// The fewest blocks of a filestore.
const LEAST_BLOCKS: u32 = 16;

/// The most blocks of a filestore.
const MOST_BLOCKS: u32 = 65_536;

/// The highest cap: the payload of the most blocks.
const MOST_CAP: u64 = 7_864_320;

/// The lowest check limit.
const LEAST_CHECKS: u32 = 1;

/// The highest check limit.
const MOST_CHECKS: u32 = 1_000;

/// The fewest entries of a journal.
const LEAST_JOURNAL: u32 = 16;

/// The most entries of a journal.
const MOST_JOURNAL: u32 = 1_000_000;

/// What CCSDS 727.0-B-5 §8 leaves to the management information base of a receiving entity. All numbers are within
/// their limits. Contracts see its values.
#[derive(Debug, Drop)]
pub struct Config {
    entity: u64,
    blocks: u32,
    cap: u64,
    checks: u32,
    journal: u32,
    protected: Protected,
}

impl Model for Config {
    ghost use Rattle.std.specs.Prelude.{◌≡◌, None};
    ghost use Rattle.cfdp_transactions.specs.Config as words;

    ghost Value = { words.Config };

    ghost view = { λ c. record {
      entity = c.entity;
      blocks = c.blocks;
      cap = c.cap;
      checks = c.checks;
      journal = c.journal;
      prefixes = c.protected;
    } };

    ghost invariant = { λ c. words.config_fault c.blocks c.cap c.checks c.journal ≡ None };
}

/// Two are equal where each value of one is that of the other. A comparison takes no memory.
impl PartialEq for Config {
    ghost eq = { same_config };

    ghost laws = { config_per };

    fn eq(&self, other: &Config) -> bool {
        self.entity == other.entity && has_same_store(self, other) && has_same_counts(self, other)
    }
}

/// Whether two configurations say the same of the filestore.
#[tactic(auto, unfolding(crate::specs::ConfigEquality::same_store))]
fn has_same_store(a: &Config, b: &Config) -> bool
    ensures { result ≡ same_store a.now b.now }
{
    a.blocks == b.blocks && a.cap == b.cap && a.protected == b.protected
}

/// Whether two configurations have the same check limit and the same journal.
#[tactic(auto, unfolding(crate::specs::ConfigEquality::same_counts))]
fn has_same_counts(a: &Config, b: &Config) -> bool
    ensures { result ≡ same_counts a.now b.now }
{
    a.checks == b.checks && a.journal == b.journal
}

impl Eq for Config {
    ghost laws = { config_equiv };
}

/// Which number of a configuration is outside its limits, in the order of tests.
#[derive(Clone, Copy, Debug, PartialEq, Eq)]
pub enum ConfigFault {
    /// The filestore has not 16 to 65,536 blocks.
    BadBlocks,
    /// The cap is above 7,864,320 octets, the payload of 65,536 blocks.
    BadCap,
    /// The check limit is not 1 to 1,000.
    BadChecks,
    /// The journal has not 16 to 1,000,000 entries.
    BadJournal,
}

impl ConfigFault {
    /// The fault in words.
    fn words(self) -> &'static str
        ensures { result.now ≡ config_fault_text self }
    {
        match self {
            ConfigFault::BadBlocks => "the filestore must have 16 to 65536 blocks",
            ConfigFault::BadCap => "the cap must be at most 7864320 octets",
            ConfigFault::BadChecks => "the check limit must be 1 to 1000",
            ConfigFault::BadJournal => "the journal must have 16 to 1000000 entries",
        }
    }
}

impl fmt::Display for ConfigFault {
    ghost output = { λ fault. Some (config_fault_text fault) };

    fn fmt<W: fmt::Write>(&self, f: &mut fmt::Formatter<W>) -> fmt::Result {
        f.write_str(self.words())
    }
}

impl Error for ConfigFault {}

impl Config {
    /// A configuration: this entity's ID, the blocks of its filestore, how many octets a file of unbounded size may
    /// have, how often a check timer may expire (timer procedures), how many entries the journal has room for, and the
    /// prefixes that are protected. Takes no memory.
    ///
    /// # Errors
    ///
    /// The first number, in the order of [`ConfigFault`], that is outside its limits; the prefixes are dropped.
    pub fn new(
        entity: u64,
        blocks: u32,
        cap: u64,
        checks: u32,
        journal: u32,
        protected: Protected,
    ) -> Result<Config, ConfigFault>
        ensures values { IfOk result (λ config. config ≡ record {
          entity = entity;
          blocks = blocks;
          cap = cap;
          checks = checks;
          journal = journal;
          prefixes = protected;
        }) }
        ensures ok { OnOk result (config_fault blocks cap checks journal ≡ None) }
        ensures err { IfErr result (λ fault. config_fault blocks cap checks journal ≡ Some fault) }
    {
        if blocks < LEAST_BLOCKS || MOST_BLOCKS < blocks {
            return Err(ConfigFault::BadBlocks);
        }
        if MOST_CAP < cap {
            return Err(ConfigFault::BadCap);
        }
        if checks < LEAST_CHECKS || MOST_CHECKS < checks {
            return Err(ConfigFault::BadChecks);
        }
        if journal < LEAST_JOURNAL || MOST_JOURNAL < journal {
            return Err(ConfigFault::BadJournal);
        }
        Ok(Config {
            entity,
            blocks,
            cap,
            checks,
            journal,
            protected,
        })
    }

    /// This entity's ID.
    pub fn entity(&self) -> u64
        ensures { result ≡ self.now.entity }
    {
        self.entity
    }

    /// The blocks of the filestore, 16 to 65,536.
    pub fn blocks(&self) -> u32
        ensures value { result ≡ self.now.blocks }
        ensures limits { config_fault self.now.blocks self.now.cap self.now.checks self.now.journal ≡ None }
    {
        self.blocks
    }

    /// How many octets a file of unbounded size may have, at most 7,864,320.
    pub fn cap(&self) -> u64
        ensures { result ≡ self.now.cap }
    {
        self.cap
    }

    /// How often a check timer may expire, 1 to 1,000 times.
    pub fn checks(&self) -> u32
        ensures value { result ≡ self.now.checks }
        ensures limits { config_fault self.now.blocks self.now.cap self.now.checks self.now.journal ≡ None }
    {
        self.checks
    }

    /// How many entries the journal has room for, 16 to 1,000,000.
    pub fn journal(&self) -> u32
        ensures value { result ≡ self.now.journal }
        ensures limits { config_fault self.now.blocks self.now.cap self.now.checks self.now.journal ≡ None }
    {
        self.journal
    }

    /// The prefixes that no request may change.
    pub fn protected(&self) -> &Protected
        ensures { result.now ≡ self.now.prefixes }
    {
        &self.protected
    }
}
