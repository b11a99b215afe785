//! What is collected, moment by moment.

ghost use Rattle.std.specs.Prelude.{◌≡◌, ◌≢◌, ◌↔◌, ◌+◌, ◌≤◌, ◌++◌, ◌∷◌, [], ℕ, None, Some, Err, IfOk, IfSome, IsTrue, OnOk, slice_get};
ghost use Rattle.std.specs.List.{AllByRecursion};
ghost use Rattle.cfdp_draw.specs.Collecting.{Gains, HasLane, IsNoted, ids_of, marks_at};
ghost use Rattle.cfdp_draw.specs.code.Collecting.{is_wide, last_phase, next_of};

use crate::axis::AxisPosition;
use crate::chart::{
    Blocks, Chart, FileChange, Full, Lane, MOST_LANES, MOST_MARKS, MOST_MOMENTS, MOST_NOTES, Mark,
    Moment, Note, PhaseChange, Received,
};
use crate::mark_kinds::{Direction, DrawnPhase, MarkKind};
use cfdp_status::TransactionId;
use std::alloc::Global;

/// What there is to see of a transaction after a moment.
#[derive(Debug, Drop)]
pub struct Seen {
    /// How far it is. `None`: nothing is known of it.
    pub phase: Option<DrawnPhase>,
    /// What was received of its file. `None`: none of it is kept.
    pub received: Option<Received>,
    /// The size of its file, in octets, as far as it is known.
    pub size: u64,
}

/// Whether a mark is wide: all are but file data that is taken.
fn is_wide(kind: MarkKind, direction: Direction) -> bool
    ensures { result ≡ is_wide kind direction }
{
    match kind {
        MarkKind::FileData => direction == Direction::Dropped,
        _ => true,
    }
}

/// Whether a transaction is as far as it was.
fn is_same(last: Option<DrawnPhase>, phase: Option<DrawnPhase>) -> bool
    ensures { IsTrue result ↔ (last ≡ phase) }
{
    match (last, phase) {
        (None, None) => true,
        (Some(last), Some(phase)) => last == phase,
        (None, Some(_)) | (Some(_), None) => false,
    }
}

impl Lane {
    /// A lane without marks.
    fn new(alloc: Global, index: u32, id: Option<TransactionId>, here: AxisPosition) -> Lane
        ensures id { result.id ≡ id }
        ensures index { result.index ≡ index }
        ensures marks { result.marks.items ≡ [] }
    {
        Lane {
            index,
            id,
            file: Vec::new(alloc),
            size: 0,
            marks: Vec::new(alloc),
            phases: Vec::new(alloc),
            files: Vec::new(alloc),
            next_came: here,
            next_sent: here,
        }
    }

    /// Where the next mark of a way is.
    #[tactic(auto, unfolding(crate::specs::code::Collecting::next_of))]
    fn next(&self, direction: Direction, here: AxisPosition) -> AxisPosition
        ensures { result ≡ next_of self.now direction here }
    {
        let next = match direction {
            Direction::Sent => self.next_sent,
            Direction::Came | Direction::Dropped => self.next_came,
        };
        if next.moments == here.moments {
            next
        } else {
            here
        }
    }

    /// Adds a mark. Returns how many wide marks there are up to it.
    fn push_mark(
        &mut self,
        here: AxisPosition,
        kind: MarkKind,
        direction: Direction,
        words: Vec<u8>,
    ) -> Result<u32, Full>
        ensures marks { OnOk result (self.new.marks.items ≡ self.old.marks.items
            ++ record { at = next_of self.old direction here; kind = kind; direction = direction; words = words }
            ∷ []) }
        ensures id { self.new.id ≡ self.old.id }
    {
        let at = self.next(direction, here);
        let wide_marks = if is_wide(kind, direction) {
            at.wide_marks.checked_add(1).ok_or(Full::Marks)?
        } else {
            at.wide_marks
        };
        self.marks.push(Mark {
            at,
            kind,
            direction,
            words,
        })?;
        let next = AxisPosition {
            moments: here.moments,
            wide_marks,
        };
        match direction {
            Direction::Sent => self.next_sent = next,
            Direction::Came | Direction::Dropped => self.next_came = next,
        }
        Ok(wide_marks)
    }

    /// How far the transaction was seen to be last.
    fn last_phase(&self) -> Option<DrawnPhase>
        ensures { result ≡ last_phase self.now.phases.items }
    {
        match self.phases.last() {
            None => None,
            Some(change) => change.phase,
        }
    }

    /// It is this far from here on.
    fn see_phase(&mut self, here: AxisPosition, phase: Option<DrawnPhase>) -> Result<(), Full>
        ensures same { last_phase self.old.phases.items ≡ phase → self.new.phases.items ≡ self.old.phases.items }
        ensures other { last_phase self.old.phases.items ≢ phase → OnOk result (self.new.phases.items
            ≡ self.old.phases.items ++ record { at = here; phase = phase } ∷ []) }
        ensures marks { self.new.marks ≡ self.old.marks }
        ensures id { self.new.id ≡ self.old.id }
    {
        if is_same(self.last_phase(), phase) {
            return Ok(());
        }
        Ok(self.phases.push(PhaseChange { at: here, phase })?)
    }

    /// This much of its file is there from here on.
    fn see_file(&mut self, here: AxisPosition, received: Option<Received>) -> Result<(), Full>
        ensures marks { self.new.marks ≡ self.old.marks }
        ensures id { self.new.id ≡ self.old.id }
    {
        let same = match (self.files.last(), &received) {
            (None, None) => true,
            (None, Some(_)) => false,
            (Some(change), now) => change.received == *now,
        };
        if same {
            return Ok(());
        }
        Ok(self.files.push(FileChange { at: here, received })?)
    }
}

impl Chart {
    /// Before the first moment: a run with this title over a filestore of `size` blocks, some of which are
    /// taken at first.
    pub fn new(alloc: Global, title: Vec<u8>, size: u32, first: Blocks) -> Chart
        ensures lanes { result.lanes.items ≡ [] }
        ensures moments { result.moments.items ≡ [] }
        ensures notes { result.notes.items ≡ [] }
        ensures here { result.here ≡ record { moments = 0; wide_marks = 0 } }
        ensures size { result.size ≡ size }
        ensures first { result.first ≡ first }
        ensures title { result.title ≡ title }
    {
        Chart {
            title,
            size,
            first,
            lanes: Vec::new(alloc),
            moments: Vec::new(alloc),
            notes: Vec::new(alloc),
            others: 0,
            ending: Vec::new(alloc),
            here: AxisPosition {
                moments: 0,
                wide_marks: 0,
            },
            wide_marks: 0,
            marks: 0,
            most: 0,
        }
    }

    /// The lane of a transaction, if it has one.
    fn find(&self, id: Option<TransactionId>) -> Option<usize>
        ensures some { IfSome result (λ index. slice_get (ids_of self.now.lanes.items) index ≡ Some id) }
        ensures none { result ≡ None → AllByRecursion (λ lane. lane.id ≢ id) self.now.lanes.items }
    {
        for (index, lane) in self.lanes.iter().enumerate() {
            if lane.id == id {
                return Some(index);
            }
        }
        None
    }

    /// The lane of a transaction. It gets one where it has none.
    fn lane_of(&mut self, alloc: Global, id: Option<TransactionId>) -> Result<usize, Full>
        ensures found { IfOk result (λ index. slice_get (ids_of self.new.lanes.items) index ≡ Some id) }
        ensures lanes { OnOk result (HasLane self.old.lanes.items self.new.lanes.items id) }
        ensures rest { self.new ≡ record self.old { lanes = self.new.lanes } }
    {
        if let Some(index) = self.find(id) {
            return Ok(index);
        }
        let index = self.lanes.len();
        if index >= MOST_LANES {
            return Err(Full::Lanes);
        }
        self.lanes
            .push(Lane::new(alloc, index as u32, id, self.here))?;
        Ok(index)
    }

    /// Adds a mark for what comes or is sent to the lane of its transaction, at this moment. Returns how many lanes are
    /// above that one.
    ///
    /// # Errors
    ///
    /// [`Full`]: there are too many marks or lanes, or it is out of memory.
    pub fn mark(
        &mut self,
        alloc: Global,
        id: Option<TransactionId>,
        kind: MarkKind,
        direction: Direction,
        words: Vec<u8>,
    ) -> Result<usize, Full>
        ensures { IfOk result (λ index. Gains self.old.lanes.items self.new.lanes.items index id
            (record { moment = self.old.here.moments; kind = kind; direction = direction; words = words.items })) }
    {
        if self.marks >= MOST_MARKS {
            return Err(Full::Marks);
        }
        let index = self.lane_of(alloc, id)?;
        let Some(lane) = self.lanes.get_mut(index) else {
            return Err(Full::Lanes);
        };
        let wide_marks = lane.push_mark(self.here, kind, direction, words)?;
        self.wide_marks = self.wide_marks.max(wide_marks);
        self.marks += 1;
        Ok(index)
    }

    /// Adds a note about a transaction at this moment.
    ///
    /// # Errors
    ///
    /// [`Full`]: there are too many marks or lanes, or it is out of memory.
    pub fn note(
        &mut self,
        alloc: Global,
        id: Option<TransactionId>,
        time: u64,
        words: Vec<u8>,
    ) -> Result<(), Full>
        ensures noted { OnOk result (IsNoted self.old.notes.items self.new.notes.items id time words.items) }
        ensures lanes { OnOk result (HasLane self.old.lanes.items self.new.lanes.items id) }
    {
        let index = self.lane_of(alloc, id)?;
        let Some(lane) = self.lanes.get(index) else {
            return Err(Full::Lanes);
        };
        let lane = lane.index;
        let number = self.notes.len();
        if number >= MOST_NOTES {
            self.others = self.others.saturating_add(1);
            return Ok(());
        }
        let wide_marks = self.here.wide_marks.checked_add(1).ok_or(Full::Marks)?;
        self.notes.push(Note {
            number: number as u32 + 1,
            lane,
            id,
            at: self.here,
            time,
            words,
        })?;
        self.wide_marks = self.wide_marks.max(wide_marks);
        Ok(())
    }

    /// Records the phase and the file of a transaction after this moment.
    ///
    /// # Errors
    ///
    /// [`Full`]: there are too many lanes, or it is out of memory.
    pub fn see(&mut self, alloc: Global, id: Option<TransactionId>, seen: Seen) -> Result<(), Full>
        ensures { OnOk result ((k : ℕ) → marks_at self.new.lanes.items k ≡ marks_at self.old.lanes.items k) }
    {
        let index = self.lane_of(alloc, id)?;
        let Some(lane) = self.lanes.get_mut(index) else {
            return Err(Full::Lanes);
        };
        lane.size = lane.size.max(seen.size);
        lane.see_phase(self.here, seen.phase)?;
        lane.see_file(self.here, seen.received)
    }

    /// The name of a transaction's file, and its size in octets.
    ///
    /// # Errors
    ///
    /// [`Full`]: there are too many lanes, or it is out of memory.
    pub fn name_file(
        &mut self,
        alloc: Global,
        id: Option<TransactionId>,
        file: Vec<u8>,
        size: u64,
    ) -> Result<(), Full>
        ensures { OnOk result ((k : ℕ) → marks_at self.new.lanes.items k ≡ marks_at self.old.lanes.items k) }
    {
        let index = self.lane_of(alloc, id)?;
        let Some(lane) = self.lanes.get_mut(index) else {
            return Err(Full::Lanes);
        };
        lane.file = file;
        lane.size = lane.size.max(size);
        Ok(())
    }

    /// Ends this moment: these blocks are in use after it.
    ///
    /// # Errors
    ///
    /// [`Full`]: there are too many moments, or it is out of memory.
    pub fn end_moment(&mut self, time: u64, blocks: Blocks) -> Result<(), Full>
        ensures moment { OnOk result (self.new.moments.items ≡ self.old.moments.items
            ++ record { at = self.old.here; time = time; blocks = blocks } ∷ []) }
        ensures here { OnOk result (self.new.here ≡ record {
          moments = self.old.here.moments + 1;
          wide_marks = self.old.wide_marks;
        }) }
        ensures full { result ≡ Err Full.Moments → MOST_MOMENTS ≤ self.old.here.moments }
        ensures lanes { self.new.lanes ≡ self.old.lanes }
        ensures notes { self.new.notes ≡ self.old.notes }
    {
        let here = self.here;
        if here.moments >= MOST_MOMENTS {
            return Err(Full::Moments);
        }
        self.moments.push(Moment {
            at: here,
            time,
            blocks,
        })?;
        self.most = self.most.max(blocks.used.saturating_add(blocks.reserved));
        self.here = AxisPosition {
            moments: here.moments + 1,
            wide_marks: self.wide_marks,
        };
        Ok(())
    }
}
