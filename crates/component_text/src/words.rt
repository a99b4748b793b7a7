//! The words that give a component's text its structure.

ghost use Rattle.std.specs.Prelude.{◌≡◌, bytes_eq};
ghost use Rattle.std.specs.List.{list_any};
ghost use Rattle.component_text.specs.Marks.{is_structural};

/// The structural words of component texts. None of them is an identifier.
pub const STRUCTURAL: [&str; 24] = [
    "context",
    "machine",
    "extends",
    "sets",
    "constants",
    "axioms",
    "end",
    "refines",
    "sees",
    "variables",
    "invariants",
    "variant",
    "events",
    "event",
    "any",
    "where",
    "when",
    "with",
    "then",
    "begin",
    "theorem",
    "ordinary",
    "convergent",
    "anticipated",
];

pub fn is_structural(word: &[u8]) -> bool
    ensures { result ≡ is_structural word.now }
{
    is_among(&STRUCTURAL, word)
}

fn is_among(words: &[&str], word: &[u8]) -> bool
    ensures { result ≡ list_any (λ w. bytes_eq w.now word.now) words.now }
{
    words.iter().any(|w| w.as_bytes() == word)
}
