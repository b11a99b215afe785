//! What a kind of script is: how one line of it is answered.
ghost use Rattle.std.specs.Prelude.{◌≡◌, ◌↔◌, ℕ, List, Option, None, OnOk, OnErr, Err};
ghost use Rattle.cfdp_lines.specs.Answers.{AnswersLine};
ghost use Rattle.cfdp_lines.specs.declared.faults.LineFault.TheVariants.{Bad};

use crate::faults::LineFault;
use std::alloc::Global;

/// A kind of script: a state, and an answer to each line.
pub trait Script {
    // What the state between two lines is seen as.
    ghost State: { Type 0 };

    ghost state: { Self → State };

    // What a line does that is neither overlong nor a comment: the state after it and its text, or nothing
    // where it is bad.
    ghost answer: { State → List ℕ → Option (State × List ℕ) };

    /// Answers a line, and appends its text to `out`: each line of it with a newline after it. A bad line is answered
    /// so even when out of memory.
    fn line(&mut self, alloc: Global, line: &[u8], out: &mut Vec<u8>) -> Result<(), LineFault>
        ensures ok { OnOk result (AnswersLine answer (state self.old)
            (state self.new) line.now out.old.items out.new.items) }
        ensures bad { (result ≡ Err Bad) ↔ (answer (state self.old) line.now ≡ None) }
        ensures kept { OnErr result (out.new.items ≡ out.old.items) };
}
