//! Whether more is gathered.
ghost use Rattle.std.specs.Prelude.{◌≡◌, nat_lt};
ghost use Rattle.po_rules.specs.Gathering.{table_limit};

use po_machine::{Gathered, TABLE_LIMIT};

/// Whether too many nodes were counted, so that nothing more is added.
pub(crate) fn is_full(out: &Gathered) -> bool
    ensures { result ≡ nat_lt table_limit out.now.nodes }
{
    out.nodes > TABLE_LIMIT
}
