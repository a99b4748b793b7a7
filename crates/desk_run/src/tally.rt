//! A value that counts.
ghost use Rattle.desk_run.specs.Counting.{IsCount};

use turn_desk::{Act, Kept};

/// Its entries are the numbers of the chairs that counted.
#[derive(Drop)]
pub struct Tally {
    pub entries: Vec<u32>,
}

impl Kept for Tally {
    type Entry = u32;

    type Base = ();

    ghost log = { λ t. t.entries.items };

    ghost chair_of = { λ e. e };

    ghost base = { λ t. tt };
}

/// Adds the number, and answers how many entries there are then, or none where memory ran out.
pub fn count_once(tally: &mut Tally, chair: u32) -> Option<usize>
    ensures { IsCount chair tally.old.entries.items result tally.new.entries.items }
{
    if tally.entries.reserve(1).is_err() {
        return None;
    }
    tally.entries.push_reserved(chair);
    Some(tally.entries.len())
}

/// Counts once, and answers as `count_once` does.
pub struct Count;

impl Act<Tally> for Count {
    type Answer = Option<usize>;

    ghost does = { λ act k before answer after. IsCount k before.entries.items answer after.entries.items };

    fn act(self, chair: u32, tally: &mut Tally) -> Option<usize> {
        let Count = self;
        count_once(tally, chair)
    }
}
