//! An entity with the same filestore as another, and another configuration.

ghost use Rattle.std.specs.Prelude.{◌≡◌, [], replicate, Some, IfOk, OnOk};
ghost use Rattle.cfdp_actions.specs.Filestore.{Node, node_at};
ghost use Rattle.cfdp_transactions.specs.Beginning.{with_node};
ghost use Rattle.cfdp_run.specs.code.Reconfigured.{CanCopy};

use cfdp_actions::{Entry, Filestore, Kind};
use cfdp_entity::Entity;
use cfdp_transactions::{Config, laws};
use std::alloc::{AllocError, Global};

/// Puts the file of an entry into another entity.
fn copy_file(alloc: Global, from: &Entity, entry: &Entry, to: &mut Entity) -> Result<(), AllocError>
    requires file { entry.now.kind ≡ Kind.File }
    requires can { CanCopy from.now.filestore entry.now to.old }
    ensures { OnOk result ((node : Node) → node_at from.now.filestore entry.now.path ≡ Some node → to.new
        ≡ with_node to.old entry.now.path node) }
{
    let mut octets = vec![in alloc; 0u8; entry.size as usize]?;
    from.core().store().read(&entry.path, 0, &mut octets);
    let Ok(()) = to.put_file(&entry.path, &octets) else {
        unreachable!()
    };
    Ok(())
}

/// Puts what there is at an entry into another entity.
fn copy_entry(
    alloc: Global,
    from: &Entity,
    entry: &Entry,
    to: &mut Entity,
) -> Result<(), AllocError>
    requires { CanCopy from.now.filestore entry.now to.old }
    ensures { OnOk result ((node : Node) → node_at from.now.filestore entry.now.path ≡ Some node → to.new
        ≡ with_node to.old entry.now.path node) }
{
    match entry.kind {
        Kind::File => copy_file(alloc, from, entry, to),
        Kind::Directory => {
            let Ok(()) = to.put_directory(&entry.path) else {
                unreachable!()
            };
            Ok(())
        }
    }
}

/// A new entity with this configuration, and a copy of another entity's filestore. Both have as many blocks.
///
/// # Errors
///
/// [`AllocError`] when out of memory. Cost: that of the new entity, and three passes over the octets of the filestore.
pub(crate) fn reconfigured(
    alloc: Global,
    config: Config,
    from: &Entity,
) -> Result<Entity, AllocError>
    requires blocks { config.blocks ≡ from.now.config.blocks }
    requires idle { from.now.table ≡ [] }
    requires staged { from.now.filestore.staged ≡ replicate 64 [] }
    ensures { IfOk result (λ entity. entity ≡ record from.now { config = config }) }
{
    laws::beginning::put_back_is_same();
    from.sound();
    let mut to = Entity::new(alloc, config)?;
    let entries = from.core().store().listing(alloc)?;
    for entry in &entries {
        copy_entry(alloc, from, entry, &mut to)?;
    }
    Ok(to)
}
