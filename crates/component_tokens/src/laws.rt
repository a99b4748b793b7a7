//! The law of cut texts. The call does nothing.

ghost use Rattle.std.specs.Prelude.{◌≡◌, List, ℕ, Option};
ghost use Rattle.math_tokens.specs.declared.cutting.Token.{Token};
ghost use Rattle.component_tokens.specs.declared.piece.CutFault.{CutFault};
ghost use Rattle.component_tokens.specs.Pieces.{CutInto};

/// A text is cut in at most one way: it has one list of tokens, and one first fault or none.
pub fn pieces_one_way()
    ensures { (text : List ℕ) (ts us : List Token) (o p : Option CutFault)
        → CutInto text 0 ts o → CutInto text 0 us p → (ts ≡ us) × (o ≡ p) }
{}
