//! A script after its head.

ghost use Rattle.std.specs.Prelude.{◌≡◌, [], IfOk, OnOk};
ghost use Rattle.cfdp_texts.specs.Replies.{listing_text};
ghost use Rattle.cfdp_run.specs.Contents.{get_line};
ghost use Rattle.cfdp_run.specs.Questions.{gaps_line, phase_line};
ghost use Rattle.cfdp_run.specs.Scripts.{asked, cancelled_at, clock_set, heard_at, is_written, passed_at};
ghost use Rattle.cfdp_run.specs.Stages.{play_from};

use crate::contents::push_get_line;
use crate::player::Player;
use crate::questions::{push_gaps_line, push_phase_line};
use cfdp_entity::Entity;
use cfdp_lines::first_line;
use cfdp_paths::Path;
use cfdp_receiver::Receiver;
use cfdp_status::TransactionId;
use cfdp_texts::write_listing;
use std::alloc::{AllocError, Global};

/// Whether a line is among some lines.
#[tactic(auto, unfolding(crate::specs::Scripts::is_written))]
fn is_among(lines: &[u8], line: &[u8]) -> bool
    ensures { result ≡ is_written lines.now line.now }
{
    let mut rest = lines;
    'lines: while !rest.is_empty() {
        let (first, others) = first_line(rest);
        if first == line {
            return true;
        }
        rest = others;
    }
    false
}

/// A receiving entity between two lines of a script. An earlier time than the latest counts as the latest, unless the
/// clock is set by [`Play::set_clock`]. At a time that is too far ahead nothing is done, and a line says so.
#[derive(Drop)]
pub struct Play {
    player: Player,
    /// What the last line wrote. A blank line, a comment and `expect` leave it as it was.
    lines: Vec<u8>,
}

impl Play {
    /// A script whose head is over, with this receiver. No line has written anything.
    ///
    /// # Errors
    ///
    /// [`AllocError`] when out of memory: the receiver is dropped. Cost: the memory for the longest PDU that the
    /// receiver sends.
    pub fn new(alloc: Global, receiver: Receiver) -> Result<Play, AllocError>
        ensures state { IfOk result (λ play. play.player.receiver ≡ receiver) }
        ensures lines { IfOk result (λ play. play.lines.items ≡ []) }
    {
        let player = Player::new(alloc, receiver)?;
        Ok(Play {
            player,
            lines: Vec::new(alloc),
        })
    }

    /// The text that the last line wrote: some lines, each with its newline, or nothing. A blank line, a comment and
    /// `expect` leave it as it was. Costs nothing.
    pub fn lines(&self) -> &[u8]
        ensures { result.now ≡ (play_from self.now).lines }
    {
        &self.lines
    }

    /// The entity under the receiver, for its filestore. Costs nothing.
    pub fn entity(&self) -> &Entity
        ensures { result.now ≡ (play_from self.now).state.world }
    {
        self.player.receiver().entity()
    }

    /// The receiving entity. Costs nothing.
    pub fn receiver(&self) -> &Receiver
        ensures { result.now.state ≡ (play_from self.now).state }
    {
        self.player.receiver()
    }

    /// Takes the octets of one PDU that came, performs all work and takes each outcome after it, and keeps the lines of
    /// what was answered. If the receiver drops the octets, the only line says why. The time is `now`, in ticks. The
    /// call may change the octets, since it takes a CRC off in place: do not use them after it.
    ///
    /// # Errors
    ///
    /// [`AllocError`] when out of memory: the input may be played in part, and its lines written in part.
    ///
    /// Cost: that of the PDU, and of all that is due after it.
    #[tactic(auto, unfolding(crate::specs::Scripts::heard_at))]
    pub fn receive(&mut self, alloc: Global, now: u64, octets: &mut [u8]) -> Result<(), AllocError>
        ensures { OnOk result (play_from self.new ≡ heard_at (play_from self.old) now octets.old) }
    {
        self.lines.clear();
        self.player.receive(alloc, now, octets, &mut self.lines)
    }

    /// The user cancels a transaction (condition code 15). All work is performed after it and each outcome taken, and
    /// the lines of what was answered are kept. The time is `now`, in ticks.
    ///
    /// # Errors
    ///
    /// [`AllocError`] when out of memory: the input may be played in part, and its lines written in part.
    ///
    /// Cost: that of [`Receiver::cancel`], and of all that is due after it.
    #[tactic(auto, unfolding(crate::specs::Scripts::cancelled_at))]
    pub fn cancel(&mut self, alloc: Global, now: u64, id: TransactionId) -> Result<(), AllocError>
        ensures { OnOk result (play_from self.new ≡ cancelled_at (play_from self.old) now id) }
    {
        self.lines.clear();
        self.player.cancel(alloc, now, id, &mut self.lines)
    }

    /// Moves the time on, and serves each timer that is due, at most [`MOST_TIMERS`](crate::MOST_TIMERS). After each,
    /// all work is performed and each outcome taken. The lines of what was answered are kept. The time is `now`, in
    /// ticks.
    ///
    /// # Errors
    ///
    /// [`AllocError`] when out of memory: the input may be played in part, and its lines written in part.
    ///
    /// Cost: a pass over the sessions for each timer that is served, and all that is due after it.
    #[tactic(auto, unfolding(crate::specs::Scripts::passed_at))]
    pub fn pass(&mut self, alloc: Global, now: u64) -> Result<(), AllocError>
        ensures { OnOk result (play_from self.new ≡ passed_at (play_from self.old) now) }
    {
        self.lines.clear();
        self.player.pass(alloc, now, &mut self.lines)
    }

    /// The driver's clock was set, back or ahead: the time is `now`, in ticks. What is left of each timer stays, and
    /// nothing is written.
    ///
    /// # Errors
    ///
    /// [`AllocError`] when out of memory.
    ///
    /// Cost: that of [`Receiver::move_clock`].
    #[tactic(auto, unfolding(crate::specs::Scripts::clock_set))]
    pub fn set_clock(&mut self, alloc: Global, now: u64) -> Result<(), AllocError>
        ensures { OnOk result (play_from self.new ≡ clock_set (play_from self.old) now) }
    {
        self.lines.clear();
        self.player.move_clock(alloc, now, &mut self.lines)
    }

    /// Writes the line of what is at a path: a file with its octets, a directory, or nothing. The time and the receiver
    /// stay as they are.
    ///
    /// # Errors
    ///
    /// [`AllocError`] when out of memory: the lines may be written in part. The receiver is as before.
    ///
    /// Cost: at most three look-ups, and three passes over the octets of the file.
    #[tactic(auto, unfolding(crate::specs::Scripts::asked))]
    pub fn get(&mut self, alloc: Global, path: &Path) -> Result<(), AllocError>
        ensures { OnOk result (play_from self.new ≡ asked (play_from self.old)
            (get_line (play_from self.old).state.world.filestore path.now)) }
    {
        self.lines.clear();
        push_get_line(
            alloc,
            self.player.receiver().entity(),
            path,
            &mut self.lines,
        )
    }

    /// Writes the line of what is missing of a transaction: the ranges of octets that a NAK PDU would ask for now, or
    /// `none`. Of a transaction without a session it says `unknown`. The time and the receiver stay as they are.
    ///
    /// # Errors
    ///
    /// [`AllocError`] when out of memory: the lines may be written in part. The receiver is as before.
    ///
    /// Cost: a pass over the sessions, and one over the ranges.
    #[tactic(auto, unfolding(crate::specs::Scripts::asked))]
    pub fn gaps(&mut self, id: TransactionId) -> Result<(), AllocError>
        ensures { OnOk result (play_from self.new ≡ asked (play_from self.old)
            (gaps_line (play_from self.old).state id)) }
    {
        self.lines.clear();
        push_gaps_line(self.player.receiver(), id, &mut self.lines)
    }

    /// Writes the line of how far a transaction is, in one word: `held`, `receiving`, `awaiting`, `other`, `over`,
    /// `waiting`, `closed` or `unknown`. The time and the receiver stay as they are.
    ///
    /// # Errors
    ///
    /// [`AllocError`] when out of memory: the lines may be written in part. The receiver is as before.
    ///
    /// Cost: a pass over the sessions. Of a transaction without a session, also one over the names of those closed
    /// last.
    #[tactic(auto, unfolding(crate::specs::Scripts::asked))]
    pub fn phase(&mut self, id: TransactionId) -> Result<(), AllocError>
        ensures { OnOk result (play_from self.new ≡ asked (play_from self.old)
            (phase_line (play_from self.old).state id)) }
    {
        self.lines.clear();
        push_phase_line(self.player.receiver(), id, &mut self.lines)
    }

    /// Writes the line of the blocks, and a line for each file and each directory, in path order. The time and the
    /// receiver stay as they are.
    ///
    /// # Errors
    ///
    /// [`AllocError`] when out of memory: the lines may be written in part. The receiver is as before.
    ///
    /// Cost: that of [`write_listing`].
    #[tactic(auto, unfolding(crate::specs::Scripts::asked))]
    pub fn list(&mut self, alloc: Global) -> Result<(), AllocError>
        ensures { OnOk result (play_from self.new ≡ asked (play_from self.old)
            (listing_text (play_from self.old).state.world)) }
    {
        self.lines.clear();
        write_listing(
            alloc,
            self.player.receiver().entity().core(),
            &mut self.lines,
        )
    }

    /// Whether a line, given without its newline, is among those that were written last. Cost: one pass over these.
    pub fn has_written(&self, line: &[u8]) -> bool
        ensures { result ≡ is_written (play_from self.now).lines line.now }
    {
        is_among(&self.lines, line)
    }
}
