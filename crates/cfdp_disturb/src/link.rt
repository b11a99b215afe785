//! The link.

ghost use Rattle.std.specs.Prelude.{◌≡◌, ◌++◌, ◌∷◌, [], List, OnErr, OnOk};
ghost use Rattle.cfdp_disturb.specs.Disturbing.{Drawn, both, disturbed, is_held, with_newline, said, lines_text};

use crate::draws::{Copies, Draw};
use crate::lines::is_pdu_line;
use std::alloc::{AllocError, Global};
use std::marker::Model;

/// A PDU line that comes after the next line, if that is a PDU line.
#[derive(Drop)]
struct Held {
    line: Vec<u8>,
    draw: Draw,
}

/// A link over which the PDUs of a script come. Contracts see the line that it holds back, if there is one.
#[derive(Drop)]
pub struct Link {
    held: Option<Held>,
}

impl Model for Link {
    ghost use Rattle.std.specs.Prelude.{List};
    ghost use Rattle.cfdp_disturb.specs.Disturbing.{Drawn};
    ghost use Rattle.cfdp_disturb.specs.code.Holding.{AreHeld, held_of};

    ghost Value = { List Drawn };

    ghost view = { λ link. held_of link.held };

    ghost invariant = { λ link. AreHeld (held_of link.held) };
}

/// Appends a line.
fn push_line(line: &[u8], text: &mut Vec<u8>) -> Result<(), AllocError>
    ensures { OnOk result (text.new.items ≡ text.old.items ++ with_newline line.now) }
{
    text.extend_from_slice(line)?;
    Ok(text.push(b'\n')?)
}

/// Appends what results from a line by itself.
#[tactic(auto, unfolding(crate::specs::Disturbing::said, crate::specs::Disturbing::lines_text))]
fn push_said(line: &[u8], draw: Draw, text: &mut Vec<u8>) -> Result<(), AllocError>
    ensures { OnOk result (text.new.items ≡ text.old.items ++ lines_text (said (line.now, draw))) }
{
    if !is_pdu_line(line) {
        return push_line(line, text);
    }
    match draw.copies {
        Copies::Lost => Ok(()),
        Copies::Once => push_line(line, text),
        Copies::Twice => {
            push_line(line, text)?;
            push_line(line, text)
        }
    }
}

/// Whether a line is held back until the next one comes.
#[tactic(auto, unfolding(crate::specs::Disturbing::is_held))]
fn is_held(line: &[u8], draw: Draw) -> bool
    ensures { result ≡ is_held (line.now, draw) }
{
    draw.swapped && is_pdu_line(line)
}

/// Appends what results from a line that was held back, and of the one after it.
#[tactic(auto, unfolding(crate::specs::Disturbing::both))]
fn push_both(held: &Held, line: &[u8], draw: Draw, text: &mut Vec<u8>) -> Result<(), AllocError>
    ensures { OnOk result (text.new.items ≡ text.old.items
        ++ lines_text (both (held.now.line.items, held.now.draw) (line.now, draw))) }
{
    if is_pdu_line(line) {
        push_said(line, draw, text)?;
        push_said(&held.line, held.draw, text)
    } else {
        push_said(&held.line, held.draw, text)?;
        push_said(line, draw, text)
    }
}

impl Link {
    /// A link that holds no line back.
    pub fn new() -> Link
        ensures { result ≡ [] }
    {
        Link { held: None }
    }

    /// Takes the next line of a script where none is held back.
    fn take_first(
        &mut self,
        alloc: Global,
        line: &[u8],
        draw: Draw,
        text: &mut Vec<u8>,
    ) -> Result<(), AllocError>
        requires { self.old ≡ [] }
        ensures ok { OnOk result ((more : List Drawn) →
            text.old.items ++ lines_text (disturbed ((line.now, draw) ∷ more)) ≡ text.new.items
            ++ lines_text (disturbed (self.new ++ more))) }
        ensures err { OnErr result (self.new ≡ self.old) }
    {
        if !is_held(line, draw) {
            return push_said(line, draw, text);
        }
        let line = Vec::from_slice(alloc, line)?;
        self.held = Some(Held { line, draw });
        Ok(())
    }

    /// Takes the next line of a script, and what was drawn for it, and appends the lines that come now. One line may be
    /// held back until the next call. What was appended never changes, whatever lines follow.
    ///
    /// # Errors
    ///
    /// Out of memory: a part of a line may have been appended, and the link is as before. Cost: the octets of the lines
    /// that come, and a copy of a line that is held back.
    pub fn take(
        &mut self,
        alloc: Global,
        line: &[u8],
        draw: Draw,
        text: &mut Vec<u8>,
    ) -> Result<(), AllocError>
        ensures ok { OnOk result ((more : List Drawn) →
            text.old.items ++ lines_text (disturbed (self.old ++ (line.now, draw) ∷ more)) ≡ text.new.items
            ++ lines_text (disturbed (self.new ++ more))) }
        ensures err { OnErr result (self.new ≡ self.old) }
    {
        let Some(held) = &self.held else {
            return self.take_first(alloc, line, draw, text);
        };
        push_both(held, line, draw, text)?;
        self.held = None;
        Ok(())
    }

    /// The script ends: appends what results from the line that was held back.
    ///
    /// # Errors
    ///
    /// Out of memory: a part of a line may have been appended, and the link is as before.
    pub fn finish(&mut self, text: &mut Vec<u8>) -> Result<(), AllocError>
        ensures ok { OnOk result (text.new.items ≡ text.old.items ++ lines_text (disturbed self.old)) }
        ensures none { OnOk result (self.new ≡ []) }
        ensures err { OnErr result (self.new ≡ self.old) }
    {
        let Some(held) = &self.held else {
            return Ok(());
        };
        push_said(&held.line, held.draw, text)?;
        self.held = None;
        Ok(())
    }
}
