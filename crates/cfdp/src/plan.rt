//! What a plan says.

use crate::section::{PlanFault, Section};
use crate::setting_lines::Part;
use cfdp_plans::{RequestFault, read_request};
use cfdp_tlv::FilestoreRequest;
use std::alloc::Global;
use toml::{Table, Value};

/// The greatest number that a plan can have.
const MOST: u64 = i64::MAX as u64;

/// The receiving entity: what `config` and `protect` lines say.
#[derive(Drop)]
pub struct EntitySection {
    pub id: u64,
    pub blocks: u64,
    pub cap: u64,
    pub checks: u64,
    pub journal: u64,
    pub protected: Vec<Vec<u8>>,
}

/// The order in which the pieces of a file are sent.
#[derive(Drop)]
pub enum PieceOrder {
    InOrder,
    Reversed,
    Swapped,
    Listed(Vec<usize>),
}

/// The file of a transaction: where it is on this computer, and its names in the Metadata.
#[derive(Drop)]
pub struct Source {
    pub path: String,
    pub source_name: Vec<u8>,
    pub destination_name: Vec<u8>,
}

/// What the headers of a transaction's PDUs say.
#[derive(Clone, Copy)]
pub struct Heading {
    pub source: u64,
    pub number: u64,
    pub id_len: u8,
    pub number_len: u8,
    pub acknowledged: bool,
    pub large: bool,
}

/// A transaction.
#[derive(Drop)]
pub struct Transaction {
    pub heading: Heading,
    pub closure: bool,
    pub file: Option<Source>,
    pub segment: usize,
    pub order: PieceOrder,
    pub requests: Vec<FilestoreRequest>,
}

/// A plan.
#[derive(Drop)]
pub struct Plan {
    pub entity: EntitySection,
    pub transactions: Vec<Transaction>,
}

/// The entity of a plan or of a setup.
pub fn read_entity(section: &Section<'_>) -> Result<EntitySection, PlanFault> {
    section.check_keys(&["id", "blocks", "cap", "checks", "journal", "protect"])?;
    let protected = section.paths("protect")?;
    if protected.len() > 8 {
        return Err(section.expected("protect", "at most 8 paths"));
    }
    Ok(EntitySection {
        id: section.number("id", 0..=MOST, 2)?,
        blocks: section.number("blocks", 16..=65_536, 64)?,
        cap: section.number("cap", 0..=7_864_320, 2_400)?,
        checks: section.number("checks", 1..=1_000, 2)?,
        journal: section.number("journal", 16..=1_000_000, 1_000)?,
        protected,
    })
}

/// Whether the mode of a transaction is acknowledged.
fn read_mode(section: &Section<'_>) -> Result<bool, PlanFault> {
    match section.text("mode")? {
        None | Some("unacknowledged") => Ok(false),
        Some("acknowledged") => Ok(true),
        Some(_) => Err(section.expected("mode", "\"acknowledged\" or \"unacknowledged\"")),
    }
}

/// What is after the last `/` of a text.
fn last_name(path: &str) -> &[u8] {
    path.as_bytes()
        .rsplit(|octet| *octet == b'/')
        .next()
        .unwrap_or(&[])
}

/// The file of a transaction, if it has one.
fn read_source(alloc: Global, section: &Section<'_>) -> Result<Option<Source>, PlanFault> {
    let destination = section.path("as")?;
    let name = section.text("name")?;
    let Some(path) = section.text("file")? else {
        for key in ["as", "name", "segment", "order"] {
            if section.get(key).is_some() {
                return Err(section.expected(key, "only beside file"));
            }
        }
        return Ok(None);
    };
    let Some(destination_name) = destination else {
        return Err(section.expected(
            "file",
            "the key as beside it: the path of the file at the receiver",
        ));
    };
    let source_name = name.map_or(last_name(path), str::as_bytes);
    Ok(Some(Source {
        path: String::from_str(alloc, path)?,
        source_name: Vec::from_slice(alloc, source_name)?,
        destination_name,
    }))
}

/// The order of the pieces.
fn read_order(alloc: Global, section: &Section<'_>) -> Result<PieceOrder, PlanFault> {
    const WORDS: &str =
        "\"in-order\", \"reversed\", \"swapped\", or an array with the number of each piece, from 0";
    let Some(value) = section.get("order") else {
        return Ok(PieceOrder::InOrder);
    };
    match value.as_str() {
        Some("in-order") => return Ok(PieceOrder::InOrder),
        Some("reversed") => return Ok(PieceOrder::Reversed),
        Some("swapped") => return Ok(PieceOrder::Swapped),
        _ => {}
    }
    let Some(items) = value.as_array() else {
        return Err(section.expected("order", WORDS));
    };
    let mut order = Vec::new(alloc);
    for item in items {
        match item.as_integer().map(usize::try_from) {
            Some(Ok(index)) => order.push(index)?,
            _ => return Err(section.expected("order", WORDS)),
        }
    }
    Ok(PieceOrder::Listed(order))
}

/// A request of a transaction.
fn read_item(
    alloc: Global,
    section: &Section<'_>,
    number: usize,
    item: &Value,
) -> Result<FilestoreRequest, PlanFault> {
    let Some(text) = item.as_str() else {
        return Err(section.expected_item("requests", number, "expected a text"));
    };
    match read_request(alloc, text.as_bytes()) {
        Ok(request) => Ok(request),
        Err(RequestFault::Memory) => Err(PlanFault::Memory),
        Err(fault) => {
            let what = format!(in alloc; "'{text}': {fault}")?;
            Err(section.expected_item("requests", number, what.as_str()))
        }
    }
}

/// The requests of a transaction.
fn read_requests(alloc: Global, section: &Section<'_>) -> Result<Vec<FilestoreRequest>, PlanFault> {
    let mut requests = Vec::new(alloc);
    for (number, item) in section.items("requests")?.iter().enumerate() {
        requests.push(read_item(alloc, section, number, item)?)?;
    }
    Ok(requests)
}

/// The keys of a transaction.
const KEYS: [&str; 13] = [
    "source",
    "number",
    "id-octets",
    "number-octets",
    "mode",
    "closure",
    "large",
    "file",
    "as",
    "name",
    "segment",
    "order",
    "requests",
];

/// The length in octets at a key.
fn read_len(section: &Section<'_>, key: &str) -> Result<u8, PlanFault> {
    let len = section.number(key, 1..=8, 1)?;
    u8::try_from(len).map_err(|_| section.expected(key, "a number from 1 to 8"))
}

/// What the headers of a transaction say, which is the one with this number, counted from 0.
fn read_heading(section: &Section<'_>, number: usize) -> Result<Heading, PlanFault> {
    let next = (number as u64).saturating_add(1);
    Ok(Heading {
        source: section.number("source", 0..=MOST, 1)?,
        number: section.number("number", 0..=MOST, next)?,
        id_len: read_len(section, "id-octets")?,
        number_len: read_len(section, "number-octets")?,
        acknowledged: read_mode(section)?,
        large: section.flag("large")?,
    })
}

/// Refuses the name of a transaction that one before it has.
fn check_name(
    alloc: Global,
    section: &Section<'_>,
    heading: Heading,
    earlier: &[Transaction],
) -> Result<(), PlanFault> {
    for other in earlier {
        let other = other.heading;
        if other.source == heading.source && other.number == heading.number {
            let (source, number) = (heading.source, heading.number);
            let what = format!(in alloc;
                "number: another transaction of the plan is {source}/{number}"
            )?;
            return Err(section.wrong("number", what.as_str()));
        }
    }
    Ok(())
}

/// The transaction of a plan after these.
fn read_transaction(
    alloc: Global,
    table: &Table,
    earlier: &[Transaction],
) -> Result<Transaction, PlanFault> {
    let number = earlier.len();
    let section = Section::transaction(alloc, table, number);
    section.check_keys(&KEYS)?;
    let heading = read_heading(&section, number)?;
    check_name(alloc, &section, heading, earlier)?;
    Ok(Transaction {
        heading,
        closure: section.flag("closure")?,
        file: read_source(alloc, &section)?,
        segment: section.number("segment", 1..=65_531, 1_000)? as usize,
        order: read_order(alloc, &section)?,
        requests: read_requests(alloc, &section)?,
    })
}

/// What is wrong with a key of the plan or of the setup itself.
pub fn wrong_top(alloc: Global, key: &str, what: &str) -> PlanFault {
    match (String::from_str(alloc, key), format!(in alloc; "{what}")) {
        (Ok(key), Ok(text)) => PlanFault::Wrong(Part::Top(key), text),
        _ => PlanFault::Memory,
    }
}

/// The transactions of a plan.
fn read_transactions(alloc: Global, plan: &Table) -> Result<Vec<Transaction>, PlanFault> {
    let mut transactions = Vec::new(alloc);
    let Some(value) = plan.get("transaction") else {
        return Ok(transactions);
    };
    let Some(items) = value.as_array() else {
        return Err(wrong_top(alloc, "transaction", "expected [[transaction]]"));
    };
    for item in items {
        let Some(table) = item.as_table() else {
            return Err(wrong_top(alloc, "transaction", "expected [[transaction]]"));
        };
        let transaction = read_transaction(alloc, table, &transactions)?;
        transactions.push(transaction)?;
    }
    Ok(transactions)
}

/// The table that a text has.
pub fn read_table(alloc: Global, text: &[u8]) -> Result<Table, PlanFault> {
    match toml::table_from_slice(alloc, text) {
        Ok(table) => Ok(table),
        Err(error) => {
            let Some(span) = error.span() else {
                return Err(PlanFault::Memory);
            };
            let what = String::from_str(alloc, error.message())?;
            Err(PlanFault::Wrong(Part::Octet(span.start), what))
        }
    }
}

/// The plan that a text has.
pub fn read_plan(alloc: Global, text: &[u8]) -> Result<Plan, PlanFault> {
    let plan = read_table(alloc, text)?;
    for key in plan.keys() {
        if key.as_str() != "entity" && key.as_str() != "transaction" {
            let what = format!(in alloc;
                "unknown key '{key}': expected [entity] or [[transaction]]"
            )?;
            return Err(wrong_top(alloc, key.as_str(), what.as_str()));
        }
    }
    let none = Table::new(alloc);
    let entity = match plan.get("entity") {
        None => &none,
        Some(value) => match value.as_table() {
            Some(table) => table,
            None => return Err(wrong_top(alloc, "entity", "expected [entity]")),
        },
    };
    Ok(Plan {
        entity: read_entity(&Section::entity(alloc, entity))?,
        transactions: read_transactions(alloc, &plan)?,
    })
}
