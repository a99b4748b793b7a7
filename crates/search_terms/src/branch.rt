//! A branch of the search: its hypotheses, each with a state, and its goal.
use crate::bounds::Bounds;
use std::alloc::Global;
use term_bank::{Id, NONE, Stop};

/// What became of a hypothesis: it isn't there, waits, may be used, was opened, or was rewritten by an equation.
#[derive(Clone, Copy, Debug, PartialEq, Eq)]
pub enum State {
    Absent,
    New,
    Live,
    Opened,
    Rewritten,
}

/// The state of a formula in a branch, and what passes note of it.
#[derive(Clone, Copy)]
pub struct Note {
    pub state: State,
    pub used: bool,
    pub hard: bool,
    pub from_goal: bool,
    pub done: bool,
}

/// An equation by which the branch rewrites, and the hypothesis that it comes from.
#[derive(Clone, Copy)]
pub struct Equation {
    pub left: Id,
    pub right: Id,
    pub hyp: Id,
}

/// An instance of a universal hypothesis, and how good it is: the smaller the better.
#[derive(Drop)]
pub struct Instance {
    pub of: Id,
    pub terms: Vec<Id>,
    pub rank: (u32, u32, u32, u32),
}

/// A formula with its note.
#[derive(Clone, Copy)]
struct Entry {
    id: Id,
    note: Note,
}

/// The entries stand in the order in which they came. The table has the places of them, counted from 1, by their
/// formulas; 0 is no place. Branches of a search with the same version have the same equations.
#[derive(Drop)]
pub struct Branch {
    entries: Vec<Entry>,
    table: Vec<u32>,
    pub order: Vec<Id>,
    pub queue: Vec<Id>,
    pub next: usize,
    pub goal: Id,
    pub equations: Vec<Equation>,
    pub version: u32,
    pub bounds: Bounds,
    pub has_new_bounds: bool,
    pub at_once: Id,
    pub turns: u32,
    pub seen: usize,
    pub failed: Vec<(Id, usize)>,
    pub waiting: Vec<Instance>,
}

const NOTHING: Note = Note {
    state: State::Absent,
    used: false,
    hard: false,
    from_goal: false,
    done: false,
};

fn first_slot(id: Id, size: usize) -> usize {
    if size == 0 {
        return 0;
    }
    (id as usize).wrapping_mul(2654435761) % size
}

impl Branch {
    pub fn new(alloc: Global, goal: Id) -> Branch {
        Branch {
            entries: Vec::new(alloc),
            table: Vec::new(alloc),
            order: Vec::new(alloc),
            queue: Vec::new(alloc),
            next: 0,
            goal,
            equations: Vec::new(alloc),
            version: 0,
            bounds: Bounds::new(alloc),
            has_new_bounds: false,
            at_once: NONE,
            turns: 0,
            seen: 0,
            failed: Vec::new(alloc),
            waiting: Vec::new(alloc),
        }
    }

    /// A copy, without the instances that wait.
    pub fn copy(&self, alloc: Global) -> Result<Branch, Stop> {
        Ok(Branch {
            entries: Vec::from_slice(alloc, &self.entries)?,
            table: Vec::from_slice(alloc, &self.table)?,
            order: Vec::from_slice(alloc, &self.order)?,
            queue: Vec::from_slice(alloc, &self.queue)?,
            next: self.next,
            goal: self.goal,
            equations: Vec::from_slice(alloc, &self.equations)?,
            version: self.version,
            bounds: self.bounds.copy(alloc)?,
            has_new_bounds: self.has_new_bounds,
            at_once: self.at_once,
            turns: self.turns,
            seen: self.seen,
            failed: Vec::from_slice(alloc, &self.failed)?,
            waiting: Vec::new(alloc),
        })
    }

    pub fn note(&self, id: Id) -> Note {
        match self.entries.get(self.place(self.slot(id))) {
            Some(entry) => entry.note,
            None => NOTHING,
        }
    }

    /// The place that stands in a slot of the table, or one past all.
    fn place(&self, slot: usize) -> usize {
        match self.table.get(slot) {
            Some(place) if *place > 0 => (*place - 1) as usize,
            _ => self.entries.len(),
        }
    }

    fn has_at(&self, place: usize, id: Id) -> bool {
        match self.entries.get(place) {
            Some(entry) => entry.id == id,
            None => true,
        }
    }

    /// The slot of a formula, or the free one where it belongs.
    fn slot(&self, id: Id) -> usize {
        let mut at = first_slot(id, self.table.len());
        for _ in 0..self.table.len() {
            if self.has_at(self.place(at), id) {
                return at;
            }
            at = at.saturating_add(1);
            if at >= self.table.len() {
                at = 0;
            }
        }
        at
    }

    pub fn set(&mut self, id: Id, note: Note) -> Result<(), Stop> {
        let found = self.place(self.slot(id));
        if found < self.entries.len() {
            self.entries[found].note = note;
            return Ok(());
        }
        let place = self.entries.len();
        if place >= 16777216 {
            return Err(Stop::Spent);
        }
        self.entries.push(Entry { id, note })?;
        if self.entries.len() >= self.table.len() / 2 {
            return self.widen();
        }
        self.fill(place, id);
        Ok(())
    }

    /// Puts a place into its slot.
    fn fill(&mut self, place: usize, id: Id) {
        let slot = self.slot(id);
        if slot < self.table.len() && place < 16777216 {
            self.table[slot] = place as u32 + 1;
        }
    }

    /// A table of twice the size.
    fn widen(&mut self) -> Result<(), Stop> {
        let size = self.table.len().saturating_mul(2).max(64);
        self.table.clear();
        for _ in 0..size {
            self.table.push(0)?;
        }
        for place in 0..self.entries.len() {
            if place < self.entries.len() {
                let id = self.entries[place].id;
                self.fill(place, id);
            }
        }
        Ok(())
    }

    pub fn state(&self, id: Id) -> State {
        self.note(id).state
    }

    pub fn set_state(&mut self, id: Id, state: State) -> Result<(), Stop> {
        let mut note = self.note(id);
        note.state = state;
        self.set(id, note)
    }

    pub fn has(&self, id: Id) -> bool {
        self.state(id) != State::Absent
    }

    pub fn is_live(&self, id: Id) -> bool {
        self.state(id) == State::Live
    }

    /// Adds a hypothesis. Whether it wasn't there.
    pub fn add(&mut self, id: Id) -> Result<bool, Stop> {
        match self.state(id) {
            State::Absent => {
                self.set_state(id, State::New)?;
                self.order.push(id)?;
                self.queue.push(id)?;
                Ok(true)
            }
            State::Rewritten => {
                self.set_state(id, State::New)?;
                self.queue.push(id)?;
                Ok(false)
            }
            _ => Ok(false),
        }
    }

    /// Adds a hypothesis that isn't opened.
    pub fn add_opened(&mut self, id: Id) -> Result<(), Stop> {
        if !self.has(id) {
            self.set_state(id, State::Opened)?;
            self.order.push(id)?;
        }
        Ok(())
    }

    /// A hypothesis is looked at again.
    pub fn renew(&mut self, id: Id) -> Result<(), Stop> {
        self.set_state(id, State::New)?;
        self.queue.push(id)?;
        Ok(())
    }

    /// The next hypothesis that waits.
    pub fn take(&mut self) -> Option<Id> {
        let found = self.queue.get(self.next).copied();
        self.next = self.next.saturating_add(1).min(self.queue.len());
        found
    }

    /// The hypothesis at a place.
    pub fn at(&self, i: usize) -> Id {
        match self.order.get(i) {
            Some(id) => *id,
            None => NONE,
        }
    }

    /// Notes that a goal wasn't proved with so many hypotheses.
    pub fn note_failure(&mut self, goal: Id) -> Result<(), Stop> {
        self.failed.push((goal, self.order.len()))?;
        Ok(())
    }

    pub fn has_failed(&self, goal: Id) -> bool {
        for failure in &self.failed {
            if failure.0 == goal && failure.1 == self.order.len() {
                return true;
            }
        }
        false
    }
}
