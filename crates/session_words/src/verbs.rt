//! The words of the commands.
ghost use Rattle.std.specs.Prelude.{◌≡◌};
ghost use Rattle.session_words.specs.Says.{verb_beside, verb_named};
ghost use Rattle.session_words.specs.Private.{verb_rows};

/// The commands that a line's first word names, but for `edit`.
#[derive(Clone, Copy)]
pub enum Verb {
    Delete,
    Build,
    Status,
    Faults,
    Show,
    Tree,
    Follows,
    Step,
    Prune,
    Review,
    Auto,
    Wait,
    Purge,
    Digest,
    Quit,
}

/// The word of each command.
pub const VERBS: [(&str, Verb); 15] = [
    ("delete", Verb::Delete),
    ("build", Verb::Build),
    ("status", Verb::Status),
    ("faults", Verb::Faults),
    ("show", Verb::Show),
    ("tree", Verb::Tree),
    ("follows", Verb::Follows),
    ("step", Verb::Step),
    ("prune", Verb::Prune),
    ("review", Verb::Review),
    ("auto", Verb::Auto),
    ("wait", Verb::Wait),
    ("purge", Verb::Purge),
    ("digest", Verb::Digest),
    ("quit", Verb::Quit),
];

fn verb_beside(table: &[(&str, Verb)], word: &[u8]) -> Option<Verb>
    ensures { result ≡ verb_beside (verb_rows table.now) word.now }
{
    for (text, verb) in table {
        if text.as_bytes() == word {
            return Some(*verb);
        }
    }
    None
}

/// The command that the word names.
pub fn verb_named(word: &[u8]) -> Option<Verb>
    ensures { result ≡ verb_named word.now }
{
    verb_beside(&VERBS, word)
}
