// What was prepared takes effect. Nothing here takes memory.
ghost use Rattle.std.specs.Prelude.{◌≡◌};
ghost use Rattle.prepared_events.specs.Prepared.{IsReady, changed_by};

use crate::core_state::Core;
use core_steps::Reply;
use prepared_events::{Prepared, build_over, closed_after, closed_beside, enter, move_ticket};

impl Core {
    /// Does what was prepared, and gives its reply. It takes no memory.
    pub fn commit(&mut self, prepared: Prepared) -> Reply
        requires ready { IsReady self.old prepared }
        ensures reply { result ≡ prepared.reply }
        ensures changed { self.new ≡ changed_by prepared self.old }
    {
        let (reply, entry, built, tickets) = prepared.into_parts();
        let closed = closed_beside(&self.builder, &self.out, &tickets.tickets, self.closed);
        self.closed = closed_after(&self.builder, entry.entry.as_ref(), closed);
        build_over(
            entry.entry.as_ref(),
            built,
            &mut self.durable.built,
            &mut self.builder,
        );
        enter(entry, &mut self.durable.texts, &mut self.durable.proofs);
        move_ticket(tickets, &mut self.out, &mut self.tried, &mut self.next);
        reply
    }
}
