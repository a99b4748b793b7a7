// The open journal.
ghost use Rattle.std.specs.Prelude.{◌≡◌, ◌+◌, ◌-◌, ◌^◌, ◌<◌, ◌≤◌, ◌++◌, ◌↔◌, ◌⊎◌, [], ◌∷◌, List, ℕ, ◌≢◌, ⊤, length, true, false, OnOk, IfOk, MatchResult, IsErrOf, IsTrue};
ghost use Rattle.outside.specs.Cause.{Rose};
ghost use Rattle.outside.specs.Disk.{Sides, LeavesOnly};
ghost use Rattle.outside.specs.declared.side.Side.{Side};
ghost use Rattle.journal_core.specs.Sides.{StandsAt, HasRecords, IsBeforeOrAfterAppend, IsBeforeOrOne, open_records, other};
ghost use Rattle.journal_core.specs.Start.{JournalMeaning, meaning_of, JournalStandsFor, IsJournalAnswerFor, IsJournalCause, IsMadeFit, JournalStandsAsSome, ArePlaced, bodies_of};
ghost use Rattle.journal_core.specs.PrivateReading.{side_of, generation_number, rest_of};
ghost use Rattle.journal_core.specs.State.{IsKept, JournalState};

use crate::open::open;
use crate::piece::{JournalFault, Piece};
use crate::reading::Current;
use crate::renew::replace;
use crate::scan::LIMIT;
use crate::steps::{set_gate, stage};
use outside::{Disk, Side};
use std::alloc::Global;
use std::marker::Model;

// The current side, its generation, and whether the first gate of the other one is open.
fn place_of(current: Current) -> (Side, u64, bool)
    ensures { result ≡ (side_of current, generation_number current, rest_of current) }
{
    match current {
        Current::Empty { generation } => (Side::Left, generation, false),
        Current::Counting {
            side,
            generation,
            rest_open,
        } => (side, generation, rest_open),
    }
}

fn other_side(side: Side) -> Side
    ensures { result ≡ other side }
{
    match side {
        Side::Left => Side::Right,
        Side::Right => Side::Left,
    }
}

/// Why a record wasn't added.
#[derive(Clone, Copy, Debug, PartialEq, Eq)]
pub enum AppendFault {
    /// An earlier call on this journal answered [`AppendFault::DiskFault`].
    Failed,
    /// The side would pass 67,108,864 bytes, or the last generation is reached.
    JournalFull,
    /// The disk failed.
    DiskFault,
}

/// A journal on a disk, open for more records.
pub struct Journal<D: Disk> {
    disk: D,
    side: Side,
    gate: u64,
    generation: u64,
    rest_open: bool,
    failed: bool,
}

impl<D: Disk> Model for Journal<D> {
    ghost Value = { JournalState D };

    ghost view = { λ j. record {
      disk = j.disk;
      side = j.side;
      gate = j.gate;
      generation = j.generation;
      rest_open = j.rest_open;
      failed = j.failed;
    } };

    ghost invariant = { λ j. IsKept D.told D.bytes_of D.images j.disk j.side j.gate j.generation j.rest_open j.failed };
}

impl<D: Disk> Journal<D> {
    /// Opens the journal on a disk, and gives the records that stand. Both sides are synced first. A side of at most 17 bytes
    /// that isn't a header with a gate of 0 becomes a new side, unless the start is refused; then the disk comes back.
    pub fn start(alloc: Global, disk: D) -> Result<(Journal<D>, Vec<Piece>), (D, JournalFault)>
        // The records are those that stand, each on the current side behind its gate; a fault has its cause in the sides.
        ensures records { D.told → MatchResult result
            (λ opened. StandsAt (D.bytes_of disk) opened.0.side opened.0.generation (bodies_of opened.1.items))
            (λ refused. IsJournalCause (D.bytes_of disk) refused.1) }
        // Sides stand for one thing at most, so a start answers exactly that, if the disk doesn't fail and memory is there.
        ensures exactly { D.told → (meaning : JournalMeaning) → JournalStandsFor (D.bytes_of disk) meaning
            → MatchResult result
            (λ opened. meaning ≡ meaning_of opened.0.side opened.0.generation (bodies_of opened.1.items))
            (λ refused. IsJournalAnswerFor meaning refused.1) }
        ensures placed { D.told → IfOk result (λ opened. ArePlaced opened.0.side 16 opened.1.items) }
        ensures gate { D.told → IfOk result (λ opened.
            opened.0.gate ≡ 16 + length (open_records (bodies_of opened.1.items))) }
        ensures current { D.told → IfOk result (λ opened.
            HasRecords (D.bytes_of opened.0.disk opened.0.side) opened.0.generation (bodies_of opened.1.items)) }
        ensures ready { D.told → IfOk result (λ opened. (side : Side)
            → IsMadeFit side (D.bytes_of disk side) (D.bytes_of opened.0.disk side)) }
        ensures begun { IfOk result (λ opened. opened.0.failed ≡ false) }

        // A stop at any moment leaves what stands for what a stop before would have left; after Ok it leaves these records.
        ensures any_moment { D.told → MatchResult result
            (λ opened. LeavesOnly D.clock D.moments disk opened.0.disk (JournalStandsAsSome (D.images disk)))
            (λ refused. LeavesOnly D.clock D.moments disk refused.0 (JournalStandsAsSome (D.images disk))) }
        ensures standing { D.told → IfOk result (λ opened. (c : Sides) → D.images opened.0.disk c
            → StandsAt c opened.0.side opened.0.generation (bodies_of opened.1.items)) }
        ensures read { D.told → IfOk result (λ opened.
            StandsAt (D.bytes_of opened.0.disk) opened.0.side opened.0.generation (bodies_of opened.1.items)) }
        ensures untouched { D.told → MatchResult result (λ _. ⊤) (λ refused.
            refused.1 ≢ JournalFault.DiskFault → D.bytes_of refused.0 ≡ D.bytes_of disk) }
        ensures fault { MatchResult result (λ _. ⊤) (λ refused.
            refused.1 ≡ JournalFault.DiskFault → Rose (D.faults disk) (D.faults refused.0)) }
        ensures later { MatchResult result
            (λ opened. D.faults disk ≤ D.faults opened.0.disk)
            (λ refused. D.faults disk ≤ D.faults refused.0) }
    {
        let mut disk = disk;
        let found = match open(alloc, &mut disk) {
            Ok(found) => found,
            Err(fault) => return Err((disk, fault)),
        };
        let (side, generation, rest_open) = place_of(found.current);
        let journal = Journal {
            disk,
            side,
            gate: found.gate,
            generation,
            rest_open,
            failed: false,
        };
        Ok((journal, found.pieces))
    }

    /// Adds a record behind those that stand. After Ok every stop leaves sides that have it. It takes no memory.
    pub fn append(&mut self, bytes: &[u8]) -> Result<(), AppendFault>
        // A stop at any moment leaves the records from before, with the new one or without.
        ensures any_moment { D.told → self.old.failed ≡ false → (bodies : List (List ℕ))
            → StandsAt (D.bytes_of self.old.disk) self.old.side self.old.generation bodies
            → LeavesOnly D.clock D.moments self.old.disk self.new.disk
            (IsBeforeOrAfterAppend self.old.side self.old.generation bodies bytes.now) }
        ensures acknowledged { D.told → OnOk result ((bodies : List (List ℕ))
            → StandsAt (D.bytes_of self.old.disk) self.old.side self.old.generation bodies
            → (c : Sides) → D.images self.new.disk c
            → StandsAt c self.old.side self.old.generation (bodies ++ bytes.now ∷ [])) }
        ensures read { D.told → OnOk result ((bodies : List (List ℕ))
            → StandsAt (D.bytes_of self.old.disk) self.old.side self.old.generation bodies
            → StandsAt (D.bytes_of self.new.disk) self.old.side self.old.generation (bodies ++ bytes.now ∷ [])) }
        ensures length { OnOk result (self.new.gate ≡ self.old.gate + 5 + length bytes.now) }

        // Exactly when it is refused, and what stays.
        ensures failed { IsErrOf result AppendFault.Failed ↔ (self.old.failed ≡ true) }
        ensures full { IsErrOf result AppendFault.JournalFull
            ↔ ((self.old.failed ≡ false) × (67108864 < self.old.gate + 6 + length bytes.now)) }
        ensures fault { IsErrOf result AppendFault.DiskFault → Rose (D.faults self.old.disk) (D.faults self.new.disk) }
        ensures kept { (self.new.failed ≡ true) ↔ ((self.old.failed ≡ true) ⊎ IsErrOf result AppendFault.DiskFault) }
        ensures untouched { IsErrOf result AppendFault.Failed ⊎ IsErrOf result AppendFault.JournalFull
            → self.new ≡ self.old }
        ensures same { (self.new.side ≡ self.old.side) × (self.new.generation ≡ self.old.generation)
            × (self.new.rest_open ≡ self.old.rest_open) }
        ensures later { D.faults self.old.disk ≤ D.faults self.new.disk }
    {
        if self.failed {
            return Err(AppendFault::Failed);
        }
        if bytes.len() > 67_108_864 || bytes.len() as u64 + 6 > LIMIT - self.gate {
            return Err(AppendFault::JournalFull);
        }
        if stage(&mut self.disk, self.side, self.gate, bytes).is_err()
            || set_gate(&mut self.disk, self.side, self.gate, 1).is_err()
        {
            self.failed = true;
            return Err(AppendFault::DiskFault);
        }
        self.gate += 5 + bytes.len() as u64;
        Ok(())
    }

    /// Makes the other side the current one, with this one record in place of all that stand. After Ok every stop leaves
    /// sides that have it alone. It takes no memory.
    pub fn checkpoint(&mut self, bytes: &[u8]) -> Result<(), AppendFault>
        // A stop at any moment leaves the records from before, or the new one alone.
        ensures any_moment { D.told → self.old.failed ≡ false → (bodies : List (List ℕ))
            → StandsAt (D.bytes_of self.old.disk) self.old.side self.old.generation bodies
            → LeavesOnly D.clock D.moments self.old.disk self.new.disk
            (IsBeforeOrOne self.old.side self.old.generation bodies bytes.now) }
        ensures acknowledged { D.told → OnOk result ((c : Sides) → D.images self.new.disk c
            → StandsAt c (other self.old.side) (self.old.generation + 1) (bytes.now ∷ [])) }
        ensures read { D.told → OnOk result
            (StandsAt (D.bytes_of self.new.disk) (other self.old.side) (self.old.generation + 1) (bytes.now ∷ [])) }
        ensures length { OnOk result (self.new.gate ≡ 21 + length bytes.now) }
        ensures turned { OnOk result (self.new.side ≡ other self.old.side) }
        ensures next { OnOk result (self.new.generation ≡ self.old.generation + 1) }

        // Exactly when it is refused, and what stays.
        ensures failed { IsErrOf result AppendFault.Failed ↔ (self.old.failed ≡ true) }
        ensures full { IsErrOf result AppendFault.JournalFull
            ↔ ((self.old.failed ≡ false) × ((67108864 < 22 + length bytes.now) ⊎ (self.old.generation ≡ 2 ^ 64 - 1))) }
        ensures fault { IsErrOf result AppendFault.DiskFault → Rose (D.faults self.old.disk) (D.faults self.new.disk) }
        ensures kept { (self.new.failed ≡ true) ↔ ((self.old.failed ≡ true) ⊎ IsErrOf result AppendFault.DiskFault) }
        ensures untouched { IsErrOf result AppendFault.Failed ⊎ IsErrOf result AppendFault.JournalFull
            → self.new ≡ self.old }
        ensures later { D.faults self.old.disk ≤ D.faults self.new.disk }
    {
        if self.failed {
            return Err(AppendFault::Failed);
        }
        if bytes.len() > 67_108_842 || self.generation == u64::MAX {
            return Err(AppendFault::JournalFull);
        }
        let rest = other_side(self.side);
        let generation = self.generation + 1;
        if replace(&mut self.disk, rest, self.rest_open, generation, bytes).is_err() {
            self.failed = true;
            return Err(AppendFault::DiskFault);
        }
        self.rest_open = self.gate > 16;
        self.side = rest;
        self.gate = 21 + bytes.len() as u64;
        self.generation = generation;
        Ok(())
    }

    /// Whether a record of so many bytes fits behind those that stand.
    pub fn has_room(&self, len: usize) -> bool
        ensures room { IsTrue result ↔ (self.now.gate + 6 + «len» ≤ 67108864) }
    {
        len <= 67_108_864 && len as u64 + 6 <= LIMIT - self.gate
    }

    /// Whether there is a generation for one more checkpoint.
    pub fn can_turn(&self) -> bool
        ensures turns { IsTrue result ↔ (self.now.generation < 2 ^ 64 - 1) }
    {
        self.generation < u64::MAX
    }

    /// The disk.
    pub fn into_disk(self) -> D
        ensures disk { result ≡ self.disk }
        ensures facts { IsKept D.told D.bytes_of D.images
            self.disk self.side self.gate self.generation self.rest_open self.failed }
    {
        let Journal {
            disk,
            side: _,
            gate: _,
            generation: _,
            rest_open: _,
            failed: _,
        } = self;
        disk
    }
}
