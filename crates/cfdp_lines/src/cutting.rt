//! Where octets are cut into lines.
ghost use Rattle.std.specs.Prelude.{◌≡◌, ◌↔◌, ◌+◌, ◌<◌, ◌≤◌, [], ◌∷◌, ◌++◌, None, Err, IfOk, IfSome, OnOk, length};
ghost use Rattle.cfdp_lines.specs.Cutting.{EndsLine, IsOpenLine, IsTooLong, ended_line};
ghost use Rattle.cfdp_lines.specs.Lines.{IsOneLine, line_limit, lines_of};
ghost use Rattle.cfdp_lines.specs.declared.faults.LineFault.TheVariants.{Bad};

use crate::faults::LineFault;
use crate::limits::{LINE_LIMIT, NEWLINE};
use memchr::memchr;
use std::alloc::Global;
use std::marker::Model;

/// The first line of some octets, and what is after its newline. A last line without a newline is a line, too. Cost:
/// one search.
#[inline]
pub fn first_line(octets: &[u8]) -> (&[u8], &[u8])
    requires { 0 < length octets.now }
    ensures lines { lines_of octets.now ≡ result.0.now ∷ lines_of result.1.now }
    ensures shorter { length result.1.now < length octets.now }
{
    let Some(end) = memchr(NEWLINE, octets) else {
        return (octets, &[]);
    };
    (&octets[..end], &octets[end + 1..])
}

/// A line of which the octets come in parts: those so far. Contracts see it as the list of them.
#[derive(Drop)]
pub struct OpenLine {
    octets: Vec<u8>,
}

impl Model for OpenLine {
    ghost use Rattle.std.specs.Prelude.{ℕ, List};
    ghost use Rattle.cfdp_lines.specs.Cutting.{IsOpenLine};

    ghost Value = { List ℕ };

    ghost view = { λ line. line.octets.items };

    ghost invariant = { λ line. IsOpenLine line.octets.items };
}

impl OpenLine {
    /// A line of which no octet came.
    pub fn new(alloc: Global) -> OpenLine
        ensures none { result ≡ [] }
        ensures after { IsOpenLine result }
    {
        OpenLine {
            octets: Vec::new(alloc),
        }
    }

    /// The octets so far.
    pub fn octets(&self) -> &[u8]
        ensures octets { result.now ≡ self.now }
        ensures whole { IsOpenLine self.now }
    {
        &self.octets
    }

    /// The next line begins.
    #[inline]
    pub fn clear(&mut self)
        ensures none { self.new ≡ [] }
        ensures after { IsOpenLine self.new }
    {
        self.octets.clear();
    }

    /// Adds octets to the line.
    fn gather(&mut self, part: &[u8]) -> Result<(), LineFault>
        requires { IsOneLine part.now }
        ensures begun { IsOpenLine self.old }
        ensures after { IsOpenLine self.new }
        ensures ok { OnOk result (self.new ≡ self.old ++ part.now) }
        ensures bad { (result ≡ Err Bad) ↔ (line_limit < length self.old + length part.now) }
    {
        if part.len() > LINE_LIMIT - self.octets.len() {
            return Err(LineFault::Bad);
        }
        Ok(self.octets.extend_from_slice(part)?)
    }

    /// Takes the next octets up to the next newline, or all where there is none: then the line goes on. Returns the
    /// index of the newline. [`OpenLine::ended`] is the line that it ends: octets that came whole are not copied. The
    /// next one begins by [`OpenLine::clear`].
    ///
    /// # Errors
    ///
    /// `Bad` where octets that are gathered make the line longer than [`LINE_LIMIT`], even when out of memory.
    #[inline]
    pub fn take(&mut self, octets: &[u8]) -> Result<Option<usize>, LineFault>
        ensures goes_on { IfOk result (λ end. end ≡ None → self.new ≡ self.old ++ octets.now) }
        ensures ends { IfOk result (λ end. IfSome end (λ at. EndsLine self.old octets.now at
            (ended_line self.new octets.now at))) }
        ensures bad { result ≡ Err Bad → IsTooLong self.old octets.now }
        // Memory is never refused for a line that came whole.
        ensures refused { result ≡ Err LineFault.Memory → self.old ≡ [] → IsOpenLine octets.now }
        ensures after { IsOpenLine self.new }
    {
        let Some(end) = memchr(NEWLINE, octets) else {
            self.gather(octets)?;
            return Ok(None);
        };
        if !self.octets.is_empty() {
            self.gather(&octets[..end])?;
        }
        Ok(Some(end))
    }

    /// The line that ended at an index of the octets that were taken.
    #[inline]
    pub fn ended<'a>(&'a self, octets: &'a [u8], end: usize) -> &'a [u8]
        requires { end ≤ length octets.now }
        ensures { result.now ≡ ended_line self.now octets.now end }
    {
        if self.octets.is_empty() {
            return &octets[..end];
        }
        &self.octets
    }
}
