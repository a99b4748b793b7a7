//! A small value with work in it: pieces that are left, and what was done with them.
ghost use Rattle.std.specs.Prelude.{◌≡◌, None, Some, IfOk};
ghost use Rattle.sequent_core.specs.Sequents.{IsSequent};
ghost use Rattle.pool_run.specs.Tray.{outcome_of};

use formula_core::{Env, Formula, List, NameFault, Op, PoName, Ty};
use prover_pool::{Done, Taken, Work};
use sequent_core::{Attempt, Sequent, Ticket};
use std::alloc::Global;
use turn_desk::{Act, Kept};

/// What a prover answered.
#[derive(Clone, Copy, PartialEq, Eq)]
pub enum Outcome {
    Proof,
    NoProof,
    NoMemory,
}

/// What a chair did.
#[derive(Clone, Copy, PartialEq, Eq)]
pub enum What {
    /// A take, with the number of the ticket that it gave.
    Take(Option<u64>),
    /// The finish of the ticket of this number, where the prover had answered so.
    Finish(u64, Outcome),
}

/// What a chair did, with its number.
#[derive(Clone, Copy)]
pub struct Step {
    pub chair: u32,
    pub what: What,
}

/// An entry: a step, or at the end the mark of one that met a fault. No value of it is made.
pub enum Entry {
    Step(Step),
    Mark(Step),
}

/// Pieces that are left, which number the tickets downwards, and the steps so far.
/// Where it has no room for one more step, or memory runs out, it keeps a fault from then on.
#[derive(Drop)]
pub struct Tray {
    pub left: u64,
    pub room: usize,
    pub steps: Vec<Step>,
    pub fault: Option<Step>,
}

impl Kept for Tray {
    type Entry = Entry;

    type Base = usize;

    ghost use Rattle.pool_run.specs.Tray.{log_of, chair_of_entry};

    ghost log = { λ t. log_of t };

    ghost chair_of = { chair_of_entry };

    ghost base = { λ t. t.room };
}

impl Work for Tray {
    ghost use Rattle.pool_run.specs.Tray.{tray_meaning, tray_marks_last, tray_marks_no_other};

    ghost meaning = { tray_meaning };

    ghost marks_last = { tray_marks_last };

    ghost marks_no_other = { tray_marks_no_other };

    fn take(&mut self, chair: u32) -> Taken {
        if self.fault.is_some() {
            return Taken::Stop;
        }
        if self.steps.len() >= self.room || self.steps.reserve(1).is_err() {
            return self.fail_take(chair);
        }
        let number = self.left;
        if number == 0 {
            let what = What::Take(None);
            self.steps.push_reserved(Step { chair, what });
            return Taken::Nothing;
        }
        let alloc = *self.steps.allocator();
        let Ok(ticket) = new_ticket(alloc, number) else {
            return self.fail_take(chair);
        };
        self.left = number - 1;
        let what = What::Take(Some(number));
        self.steps.push_reserved(Step { chair, what });
        Taken::Got(ticket)
    }

    fn finish(&mut self, chair: u32, ticket: u64, attempt: Attempt) -> Done {
        let what = What::Finish(ticket, outcome_of(attempt));
        if self.fault.is_some() {
            return Done::Stop;
        }
        if self.steps.len() >= self.room || self.steps.reserve(1).is_err() {
            self.fault = Some(Step { chair, what });
            return Done::Stop;
        }
        self.steps.push_reserved(Step { chair, what });
        Done::Kept
    }
}

impl Tray {
    // Keeps the fault of a take.
    fn fail_take(&mut self, chair: u32) -> Taken
        requires { self.old.fault ≡ None }
        ensures stop { result ≡ Taken.Stop }
        ensures fault { self.new ≡ record self.old { fault = Some (record { chair = chair; what = What.Take None }) } }
    {
        let what = What::Take(None);
        self.fault = Some(Step { chair, what });
        Taken::Stop
    }
}

fn outcome_of(attempt: Attempt) -> Outcome
    ensures { result ≡ outcome_of attempt }
{
    match attempt {
        Attempt::Found(_) => Outcome::Proof,
        Attempt::NoProof => Outcome::NoProof,
        Attempt::NoMemory => Outcome::NoMemory,
    }
}

// A ticket of this number, whose goal is truth without a hypothesis.
fn new_ticket(alloc: Global, number: u64) -> Result<Ticket, NameFault>
    ensures { IfOk result (λ ticket. (ticket.number ≡ number) × IsSequent ticket.sequent) }
{
    let name = PoName::read(alloc, "c/t/THM")?;
    let sequent = truth(alloc);
    Ok(Ticket {
        number,
        name,
        sequent,
    })
}

fn truth(alloc: Global) -> Sequent
    ensures { IsSequent result }
{
    let goal = Formula::Node(Op::Top, List::of(Vec::new(alloc)), Ty::Truth);
    Sequent {
        env: Env::new(alloc),
        hyps: List::of(Vec::new(alloc)),
        goal,
    }
}

/// Counts the finishes, and adds no entry.
pub struct CountFinishes;

impl Act<Tray> for CountFinishes {
    type Answer = usize;

    ghost does = { λ act k before answer after. after ≡ before };

    fn act(self, _chair: u32, tray: &mut Tray) -> usize {
        let CountFinishes = self;
        tray.finishes()
    }
}

impl Tray {
    /// How many tickets were finished.
    pub fn finishes(&self) -> usize {
        let is_finish = |step: &&Step| matches!(step.what, What::Finish(_, _));
        self.steps.iter().filter(is_finish).count()
    }

    /// Whether the chair of this number made a take.
    pub fn has_take_of(&self, chair: u32) -> bool {
        let is_take = |step: &Step| step.chair == chair && matches!(step.what, What::Take(_));
        self.steps.iter().any(is_take)
    }
}
