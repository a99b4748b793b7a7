//! The words of the rules.
ghost use Rattle.std.specs.Prelude.{◌≡◌};
ghost use Rattle.rule_words.specs.RuleWords.{number_beside, rule_named, word_beside, rule_word};
ghost use Rattle.rule_words.specs.Private.{rows};

/// The words that name the rules, each with the rule's number.
pub const RULE_WORDS: [(&str, u8); 35] = [
    ("hyp", 1),
    ("top", 2),
    ("bot", 3),
    ("contr", 4),
    ("andR", 5),
    ("andL", 6),
    ("orR", 7),
    ("orL", 8),
    ("impR", 9),
    ("impL", 10),
    ("mp", 11),
    ("iffR", 12),
    ("iffL", 13),
    ("notR", 14),
    ("notL", 15),
    ("contra", 16),
    ("allR", 17),
    ("allL", 18),
    ("exR", 19),
    ("exL", 20),
    ("cut", 21),
    ("cases", 22),
    ("review", 23),
    ("eqRefl", 24),
    ("eqGoal", 25),
    ("eqHyp", 26),
    ("boolCases", 27),
    ("boolDiff", 28),
    ("rwGoal", 29),
    ("rwHyp", 30),
    ("linear", 31),
    ("cardNat", 32),
    ("funIn", 33),
    ("funEq", 34),
    ("overOther", 35),
];

fn number_beside(table: &[(&str, u8)], word: &[u8]) -> Option<u8>
    ensures { result ≡ number_beside (rows table.now) word.now }
{
    for (text, number) in table {
        if text.as_bytes() == word {
            return Some(*number);
        }
    }
    None
}

/// The number of the rule that the word names.
pub fn rule_named(word: &[u8]) -> Option<u8>
    ensures { result ≡ rule_named word.now }
{
    number_beside(&RULE_WORDS, word)
}

fn word_beside(table: &[(&'static str, u8)], number: u8) -> &'static str
    ensures { result.now ≡ word_beside (rows table.now) number }
{
    for (text, beside) in table {
        if *beside == number {
            return *text;
        }
    }
    ""
}

/// The word that names the rule of this number.
pub fn rule_word(number: u8) -> &'static str
    ensures { result.now ≡ rule_word number }
{
    word_beside(&RULE_WORDS, number)
}
