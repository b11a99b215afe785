//! A receiving entity that keeps its last answer: what a caller needs that can't hold an answer itself, as a C program.
#![tactic(auto)]

mod reception;

pub use reception::Reception;
