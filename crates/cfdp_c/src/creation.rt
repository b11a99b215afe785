//! Making an engine, and freeing it.
ghost use Rattle.std.specs.Prelude.{◌≡◌, ◌≢◌, None, OnOk, IfOk, IfErr, Ok, Err};
ghost use Rattle.cfdp_transactions.specs.World.{start};
ghost use Rattle.cfdp_c.specs.Calls.{Frees};
ghost use Rattle.cfdp_c.specs.Creation.{OpensEngine, config_of_fields, protected_by};
ghost use Rattle.cfdp_c.specs.declared.answer.CallAnswer.TheVariants.{Memory};
ghost use Rattle.cfdp_transactions.specs.Config.{Config as ConfigOf};

use crate::answer::CallAnswer;
use crate::fields::{ConfigFields, PathFields};
use crate::handle::Handle;
use crate::paths::path_of;
use cfdp_actions::Protected;
use cfdp_entity::Entity;
use cfdp_transactions::Config;
use std::alloc::Global;

/// The entries of the journal that a configuration has to name. No call from C keeps one.
const JOURNAL: u32 = 16;

/// Protects more prefixes. It calls itself at most nine times, since eight can be protected.
fn protect(
    alloc: Global,
    prefixes: &[PathFields],
    protected: &mut Protected,
) -> Result<(), CallAnswer>
    ensures ok { OnOk result (protected_by prefixes.now protected.old ≡ Ok protected.new) }
    ensures err { IfErr result (λ answer. answer ≢ Memory → protected_by prefixes.now protected.old ≡ Err answer) }
{
    let [prefix, rest @ ..] = prefixes else {
        return Ok(());
    };
    let path = path_of(alloc, prefix)?;
    match protected.add(path) {
        Ok(()) => protect(alloc, rest, protected),
        Err(_) => Err(CallAnswer::TooManyPrefixes),
    }
}

/// The configuration that is given as structs.
fn config_of(
    alloc: Global,
    fields: &ConfigFields,
    prefixes: &[PathFields],
) -> Result<Config, CallAnswer>
    ensures ok { IfOk result (λ config. config_of_fields fields.now prefixes.now ≡ Ok config) }
    ensures err { IfErr result (λ answer. answer ≢ Memory → config_of_fields fields.now prefixes.now ≡ Err answer) }
{
    let mut protected = Protected::new();
    protect(alloc, prefixes, &mut protected)?;
    match Config::new(
        fields.entity,
        fields.blocks,
        fields.cap,
        fields.checks,
        JOURNAL,
        protected,
    ) {
        Ok(config) => Ok(config),
        Err(fault) => Err(CallAnswer::of_config(fault)),
    }
}

/// A new engine.
fn make(
    alloc: Global,
    fields: &ConfigFields,
    prefixes: &[PathFields],
) -> Result<Box<Entity>, CallAnswer>
    ensures ok { IfOk result (λ engine. (config : ConfigOf) × (config_of_fields fields.now prefixes.now ≡ Ok config)
        × (engine.value ≡ start config)) }
    ensures err { IfErr result (λ answer. answer ≢ Memory → config_of_fields fields.now prefixes.now ≡ Err answer) }
{
    let config = config_of(alloc, fields, prefixes)?;
    let Ok(entity) = Entity::new(alloc, config) else {
        return Err(CallAnswer::Memory);
    };
    match Box::new(alloc, entity) {
        Ok(engine) => Ok(engine),
        Err(_) => Err(CallAnswer::Memory),
    }
}

/// Makes an engine over an empty filestore, with these prefixes protected, at most eight.
#[unsafe(no_mangle)]
pub extern "C" fn cfdp_new(
    alloc: Global,
    engine: &mut Handle,
    config: &ConfigFields,
    prefixes: &[PathFields],
) -> u32
    ensures { OpensEngine config.now prefixes.now engine.old.slot.engine engine.new.slot.engine result }
{
    if engine.has_engine() {
        return CallAnswer::HasEngine.code();
    }
    match make(alloc, config, prefixes) {
        Ok(entity) => {
            engine.put(entity);
            CallAnswer::Done.code()
        }
        Err(answer) => answer.code(),
    }
}

/// Frees the engine and all its memory.
#[unsafe(no_mangle)]
pub extern "C" fn cfdp_free(alloc: Global, engine: &mut Handle) -> u32
    ensures answer { Frees engine.old.slot.engine result }
    ensures freed { engine.new.slot.engine ≡ None }
{
    match engine.take(alloc) {
        None => CallAnswer::NoEngine.code(),
        Some(entity) => {
            drop(entity);
            CallAnswer::Done.code()
        }
    }
}

/// The octets of a `struct cfdp_engine`, for C to compare with what its header says.
#[unsafe(no_mangle)]
pub extern "C" fn cfdp_engine_octets() -> usize
    ensures { result ≡ 16 }
{
    std::mem::size_of::<Handle>()
}
