// Bytes in memory that are given piece by piece.
ghost use Rattle.std.specs.Prelude.{◌≡◌, ◌<◌, [], take, drop, length};
ghost use Rattle.outside.specs.Memory.{count_given};

use std::marker::Model;

// The bytes from `at` on are left to give, at most `most` of them a piece.
#[derive(Debug, Drop)]
pub(crate) struct Pieces {
    bytes: Vec<u8>,
    at: usize,
    most: usize,
}

impl Model for Pieces {
    ghost use Rattle.std.specs.Prelude.{◌<◌, ◌≤◌, vec_len, drop};
    ghost use Rattle.outside.specs.Memory.{BytesInPieces};

    ghost Value = { BytesInPieces };

    ghost view = { λ p. record { left = drop p.at p.bytes.items; most = p.most } };

    ghost invariant = { λ p. (p.at ≤ vec_len p.bytes) × (0 < p.most) };
}

impl Pieces {
    ghost use Rattle.outside.specs.Memory.{BytesInPieces};

    pub(crate) fn new(bytes: Vec<u8>, most: usize) -> Pieces
        requires { 0 < most }
        ensures { result ≡ record { left = bytes.items; most = most } }
    {
        Pieces { bytes, at: 0, most }
    }

    // Moves the next piece to the front of the slice and answers its length.
    pub(crate) fn give(&mut self, into: &mut [u8]) -> usize
        ensures count { result ≡ count_given self.old.left (length into.new) self.old.most }
        ensures given { take result into.new ≡ take result self.old.left }
        ensures rest { self.new ≡ record self.old { left = drop result self.old.left } }
        ensures end { result ≡ 0 → 0 < length into.new → self.old.left ≡ [] }
    {
        let left = &self.bytes[self.at..];
        let n = left.len().min(into.len()).min(self.most);
        into[..n].copy_from_slice(&left[..n]);
        self.at += n;
        n
    }
}
