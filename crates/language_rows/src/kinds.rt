//! The kinds of rows, by their words.

/// What a text is read as.
#[derive(Clone, Copy)]
pub enum Form {
    Predicate,
    Expression,
    Action,
}

/// What is shown of what is read.
#[derive(Clone, Copy)]
pub enum Reading {
    Tree,
    TreeWithPlaces,
    /// Whether it is read at all.
    Whether,
    /// Its printed text, as it was written.
    Written,
}

/// What is shown of a typed formula.
#[derive(Clone, Copy)]
pub enum Typing {
    Printed,
    PrintedToReadBack,
    Condition,
    /// The condition of the formula below negations.
    HighCondition,
}

#[derive(Clone, Copy)]
pub enum Kind {
    TokenAt(u32),
    Tokens,
    TokensAmongBlanks,
    Blank,
    Class,
    Level,
    Place,
    Law,
    Name,
    Read(Reading, Form),
    Typed(Typing, Form),
    Unknown,
}

const KINDS: [(&str, Kind); 28] = [
    ("k", Kind::TokenAt(0)),
    ("k1", Kind::TokenAt(1)),
    ("k2", Kind::TokenAt(2)),
    ("t", Kind::Tokens),
    ("tb", Kind::TokensAmongBlanks),
    ("b", Kind::Blank),
    ("c", Kind::Class),
    ("l", Kind::Level),
    ("f", Kind::Place),
    ("law", Kind::Law),
    ("n", Kind::Name),
    ("p", Kind::Read(Reading::Tree, Form::Predicate)),
    ("e", Kind::Read(Reading::Tree, Form::Expression)),
    ("a", Kind::Read(Reading::Tree, Form::Action)),
    ("P", Kind::Read(Reading::TreeWithPlaces, Form::Predicate)),
    ("E", Kind::Read(Reading::TreeWithPlaces, Form::Expression)),
    ("A", Kind::Read(Reading::TreeWithPlaces, Form::Action)),
    ("rp", Kind::Read(Reading::Whether, Form::Predicate)),
    ("re", Kind::Read(Reading::Whether, Form::Expression)),
    ("wp", Kind::Read(Reading::Written, Form::Predicate)),
    ("we", Kind::Read(Reading::Written, Form::Expression)),
    ("wa", Kind::Read(Reading::Written, Form::Action)),
    ("tp", Kind::Typed(Typing::Printed, Form::Predicate)),
    ("te", Kind::Typed(Typing::Printed, Form::Expression)),
    (
        "bp",
        Kind::Typed(Typing::PrintedToReadBack, Form::Predicate),
    ),
    ("dp", Kind::Typed(Typing::Condition, Form::Predicate)),
    ("de", Kind::Typed(Typing::Condition, Form::Expression)),
    ("dh", Kind::Typed(Typing::HighCondition, Form::Predicate)),
];

impl Kind {
    /// Whether an answer is a text of this kind, which has itself as answer.
    pub fn is_of_itself(self) -> bool {
        matches!(
            self,
            Kind::Read(Reading::Written, _) | Kind::Typed(Typing::Printed, _)
        )
    }
}

pub fn kind_of(word: &str) -> Kind {
    for (known, kind) in &KINDS {
        if *known == word {
            return *kind;
        }
    }
    Kind::Unknown
}
