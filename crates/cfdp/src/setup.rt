//! The setup of a receiving entity: a file that says what scripts say in `config`, `protect` and `mib` lines.

use crate::end::End;
use crate::input;
use crate::plan::{EntitySection, read_entity, read_table, wrong_top};
use crate::section::{PlanFault, Section};
use crate::uploads::end_of;
use cfdp_receiver::{Handler, Mib, NakMode, Retries, Watch};
use cfdp_run::default_mib;
use std::alloc::Global;
use std::rt::Files;
use toml::Table;

/// The keys of `[mib]`.
const KEYS: [&str; 14] = [
    "ack-interval",
    "ack-limit",
    "on-ack-limit",
    "nak-interval",
    "nak-limit",
    "on-nak-limit",
    "check-interval",
    "on-check-limit",
    "inactivity",
    "on-inactivity",
    "keep-alive",
    "immediate",
    "crc",
    "longest",
];

/// What is left to the management of a receiving entity whose clock has milliseconds.
#[derive(Drop)]
pub struct MibSetup {
    pub entity: EntitySection,
    pub mib: Mib,
}

/// What a fault does, by the key of its handler.
fn handler(section: &Section<'_>, key: &str, without: Handler) -> Result<Handler, PlanFault> {
    match section.text(key)? {
        None => Ok(without),
        Some("cancel") => Ok(Handler::Cancel),
        Some("ignore") => Ok(Handler::Ignore),
        Some("abandon") => Ok(Handler::Abandon),
        Some(_) => Err(section.expected(key, "\"cancel\", \"ignore\" or \"abandon\"")),
    }
}

/// The time at a key in milliseconds, or these seconds without it.
fn interval(section: &Section<'_>, key: &str, seconds: u32) -> Result<u32, PlanFault> {
    section.millis(key, seconds.saturating_mul(1_000))
}

/// The limit at a key.
fn limit(section: &Section<'_>, key: &str, without: u32) -> Result<u32, PlanFault> {
    let number = section.number(key, 1..=1_000, u64::from(without))?;
    Ok(u32::try_from(number).unwrap_or(without))
}

/// After what time a Finished PDU is sent again.
fn read_ack(section: &Section<'_>, without: Retries) -> Result<Retries, PlanFault> {
    Ok(Retries {
        interval: interval(section, "ack-interval", without.interval)?,
        limit: limit(section, "ack-limit", without.limit)?,
        at_limit: handler(section, "on-ack-limit", without.at_limit)?,
    })
}

/// After what time what is missing is asked for again.
fn read_nak(section: &Section<'_>, without: Retries) -> Result<Retries, PlanFault> {
    Ok(Retries {
        interval: interval(section, "nak-interval", without.interval)?,
        limit: limit(section, "nak-limit", without.limit)?,
        at_limit: handler(section, "on-nak-limit", without.at_limit)?,
    })
}

/// The time between two checks.
fn read_check(section: &Section<'_>, without: Watch) -> Result<Watch, PlanFault> {
    Ok(Watch {
        interval: interval(section, "check-interval", without.interval)?,
        at_limit: handler(section, "on-check-limit", without.at_limit)?,
    })
}

/// How long a transaction may bring nothing.
fn read_inactivity(section: &Section<'_>, without: Watch) -> Result<Watch, PlanFault> {
    Ok(Watch {
        interval: interval(section, "inactivity", without.interval)?,
        at_limit: handler(section, "on-inactivity", without.at_limit)?,
    })
}

/// When gaps are asked for.
fn read_nak_mode(section: &Section<'_>) -> Result<NakMode, PlanFault> {
    if section.flag("immediate")? {
        Ok(NakMode::Immediate)
    } else {
        Ok(NakMode::Deferred)
    }
}

/// How many octets a NAK PDU has at most.
fn read_longest(section: &Section<'_>, without: u16) -> Result<u16, PlanFault> {
    let number = section.number("longest", 72..=65_535, u64::from(without))?;
    Ok(u16::try_from(number).unwrap_or(without))
}

/// What `[mib]` says.
fn read_mib(section: &Section<'_>) -> Result<Mib, PlanFault> {
    section.check_keys(&KEYS)?;
    let without = default_mib();
    Ok(Mib {
        ack: read_ack(section, without.ack)?,
        nak: read_nak(section, without.nak)?,
        check: read_check(section, without.check)?,
        inactivity: read_inactivity(section, without.inactivity)?,
        keep_alive: section.millis_or_none("keep-alive")?,
        nak_mode: read_nak_mode(section)?,
        has_crc: section.flag("crc")?,
        longest_nak: read_longest(section, without.longest_nak)?,
        most_ahead: None,
    })
}

/// That the setup has no other key.
fn check_top(alloc: Global, setup: &Table) -> Result<(), PlanFault> {
    for key in setup.keys() {
        if key.as_str() != "entity" && key.as_str() != "mib" {
            let what = format!(in alloc; "unknown key '{key}': expected [entity] or [mib]")?;
            return Err(wrong_top(alloc, key.as_str(), what.as_str()));
        }
    }
    Ok(())
}

/// The table at a key of the setup, or an empty one without it.
fn table_at<'a>(
    alloc: Global,
    setup: &'a Table,
    key: &str,
    empty: &'a Table,
) -> Result<&'a Table, PlanFault> {
    let Some(value) = setup.get(key) else {
        return Ok(empty);
    };
    match value.as_table() {
        Some(table) => Ok(table),
        None => {
            let what = format!(in alloc; "expected [{key}]")?;
            Err(wrong_top(alloc, key, what.as_str()))
        }
    }
}

/// The setup that a table has.
fn read_setup(alloc: Global, setup: &Table) -> Result<MibSetup, PlanFault> {
    check_top(alloc, setup)?;
    let empty = Table::new(alloc);
    let entity = table_at(alloc, setup, "entity", &empty)?;
    let mib = table_at(alloc, setup, "mib", &empty)?;
    Ok(MibSetup {
        entity: read_entity(&Section::entity(alloc, entity))?,
        mib: read_mib(&Section::mib(alloc, mib))?,
    })
}

/// The setup that a text has.
fn setup_in(alloc: Global, text: &[u8]) -> Result<MibSetup, PlanFault> {
    let table = read_table(alloc, text)?;
    read_setup(alloc, &table)
}

/// The octets of the file of a setup.
fn text_of<R: AllocGlobal + Files + Input>(rt: &R, path: &str) -> Result<Vec<u8>, End> {
    match input::read(rt, Some(path)) {
        Err(End::Read) => Err(End::unread(rt.alloc(), path)),
        read => read,
    }
}

/// The setup in a file, or without one that of an empty file.
pub fn read<R: AllocGlobal + Files + Input>(rt: &R, path: Option<&str>) -> Result<MibSetup, End> {
    let alloc = rt.alloc();
    let (name, text) = match path {
        None => ("", Vec::new(alloc)),
        Some(path) => (path, text_of(rt, path)?),
    };
    match setup_in(alloc, &text) {
        Ok(setup) => Ok(setup),
        Err(fault) => Err(end_of(alloc, name, &text, fault)),
    }
}
