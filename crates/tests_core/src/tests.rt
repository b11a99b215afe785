//! What the calls of the core do that no program makes, or does not print: `verdicts`, `views`, `leases` and a
//! `journal` by themselves, what an entity says of itself between events (`transfers`), memory that is refused, and
//! workers. Worked lists and transactions whose answers say all are text, in `.ci/cases`. `scene` has what lists are
//! judged on, and `entity` a receiving entity that is handed events.

mod engine;
mod entity;
mod finished;
mod journal;
mod leases;
mod moves;
mod one_tree;
mod peak;
mod put_back;
mod refused_views;
mod scene;
mod settings;
mod sparse_views;
mod transfers;
mod verdicts;
mod views;
