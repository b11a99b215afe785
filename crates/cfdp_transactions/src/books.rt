//! What is kept of the receiving entity beside its store.

use crate::Config;
use crate::table::Table;
use cfdp_leases::Leases;
use cfdp_quota::Quota;

/// The configuration, the transactions, and what follows from these: the leases, and the budget of blocks.
#[derive(Drop)]
pub(crate) struct Books {
    pub(crate) config: Config,
    pub(crate) table: Table,
    pub(crate) leases: Leases,
    pub(crate) quota: Quota,
}
