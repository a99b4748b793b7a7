// What a disk in memory keeps of one call.
use crate::Side;

#[derive(Clone, Copy, Debug)]
pub(crate) enum Entry {
    Nothing,
    Wrote {
        side: Side,
        at: u64,
        from: usize,
        count: usize,
    },
    Tore {
        side: Side,
        at: u64,
        count: usize,
    },
    Cut {
        side: Side,
        len: u64,
    },
    ToreCut {
        side: Side,
        len: u64,
    },
    Synced {
        side: Side,
    },
}
