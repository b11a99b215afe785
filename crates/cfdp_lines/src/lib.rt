//! Scripts in lines: each line is answered by itself, in order, and the answers are written.
//!
//! At most 65,536 octets are read at a time. Answers are held back: they are written when 64 KiB of them are full,
//! before each read of input, and at the end. What a line does is a [`Script`]'s to say; why a run can stop before its
//! end is said here. So is where octets are cut into lines, and so are the words of a line, and the numbers and octets
//! that they spell.
#![tactic(auto)]

mod cutting;
mod digits;
mod fault_lines;
mod faults;
mod hexadecimal;
mod limits;
mod script;
mod session;
mod whole_run;
mod words;

pub use cutting::{OpenLine, first_line};
pub use fault_lines::{LinkLine, RunLine};
pub use faults::{LineFault, LinkFault, RunFault};
pub use hexadecimal::{decode_line, decode_within, decode_words};
pub use limits::{COMMENT, INPUT_LIMIT, LINE_LIMIT, NEWLINE};
pub use script::Script;
pub use whole_run::run;
pub use words::{MOST_NUMBERS, id_in, next_word, number_of, numbers_of, skip_spaces};
