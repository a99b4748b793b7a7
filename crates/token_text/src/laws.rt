//! The law of written tokens. The call does nothing.
ghost use Rattle.std.specs.Prelude.{List, ℕ};
ghost use Rattle.math_grammar.specs.Tokens.{Item};
ghost use Rattle.token_text.specs.Spacing.{Spaced, IsCutInto};

/// A text of tokens with blanks between them is cut into these tokens.
pub fn spaced_is_cut()
    ensures { (tokens : List Item) (text : List ℕ) → Spaced tokens text → IsCutInto text tokens }
{}
