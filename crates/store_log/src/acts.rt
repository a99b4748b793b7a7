//! Events as acts at a desk.
ghost use Rattle.std.specs.Prelude.{◌≡◌};
ghost use Rattle.store_log.specs.Storing.{Handles};
ghost use Rattle.store_log.specs.declared.logged.Logged.{Logged as Entry};

use crate::fault::StoreFault;
use crate::logged::{Logged, StoreBase};
use core_steps::{Event, Reply};
use prover_pool::Work;
use turn_desk::Act;

/// A store behind a desk.
pub trait EventStore: Work<Entry = Logged, Base = StoreBase> {
    ghost use Rattle.turn_desk.specs.Log.{Grows};

    /// Does an event of a chair, or keeps a fault.
    fn apply_event(&mut self, chair: u32, event: Event) -> Result<Reply, StoreFault>
        ensures applied { Handles (Self.base self.old) chair event (Self.log self.old) result (Self.log self.new) }
        ensures log { Grows Self.chair_of chair (Self.log self.old) (Self.log self.new) }
        ensures base { Self.base self.new ≡ Self.base self.old };

    /// An entry names its chair.
    ghost chair_is: { (e : Entry) → Self.chair_of e ≡ e.chair };
}

/// Does an event of a chair.
pub struct Apply {
    pub event: Event,
}

impl<V: EventStore> Act<V> for Apply {
    type Answer = Result<Reply, StoreFault>;

    ghost use Rattle.store_log.specs.Storing.{Handles};

    ghost does = { λ act k before answer after.
        Handles (V.base before) k act.event (V.log before) answer (V.log after) };

    fn act(self, chair: u32, value: &mut V) -> Result<Reply, StoreFault> {
        let Apply { event } = self;
        value.apply_event(chair, event)
    }
}
