//! The signs of formulas.

ghost use Rattle.std.specs.Prelude.{◌≡◌, ◌≤◌, ◌-◌, IsTrue, drop, length, take};
ghost use Rattle.math_tokens.specs.Private.{are_groups, IsGroup, table, Best, better};

/// Each form of each sign, with the sign's number, in the order of their first bytes. Where one form begins another, the longer
/// one counts.
pub const SIGNS: [(&str, u8); 139] = [
    ("!", 7),
    ("#", 8),
    ("%", 57),
    ("&", 3),
    ("(", 69),
    (")", 70),
    ("**", 38),
    ("*", 51),
    ("+->", 28),
    ("+->>", 32),
    ("+", 49),
    (",", 75),
    ("-->", 29),
    ("->>", 33),
    ("-->>", 33),
    ("-", 50),
    (".", 9),
    ("..", 48),
    ("/=", 12),
    ("/:", 14),
    ("/<<:", 16),
    ("/<:", 18),
    ("/\\", 36),
    ("/", 52),
    (":", 13),
    (":=", 66),
    (":∈", 67),
    ("::", 67),
    (":∣", 68),
    (":|", 68),
    (";", 44),
    ("<=>", 6),
    ("<<:", 15),
    ("<:", 17),
    ("<", 19),
    ("<=", 20),
    ("<->", 24),
    ("<<->", 25),
    ("<->>", 26),
    ("<<->>", 27),
    ("<|", 39),
    ("<<|", 40),
    ("<+", 43),
    ("=>", 5),
    ("=", 11),
    (">", 21),
    (">=", 22),
    (">+>", 30),
    (">->", 31),
    (">->>", 34),
    ("><", 47),
    ("INTER", 59),
    ("INT", 60),
    ("NAT", 61),
    ("NAT1", 62),
    ("POW", 63),
    ("POW1", 64),
    ("UNION", 58),
    ("[", 71),
    ("\\/", 35),
    ("\\", 37),
    ("]", 72),
    ("^", 54),
    ("circ", 45),
    ("false", 1),
    ("mod", 53),
    ("not", 2),
    ("or", 4),
    ("oftype", 56),
    ("true", 0),
    ("{}", 65),
    ("{", 73),
    ("|", 10),
    ("|->", 23),
    ("|>", 41),
    ("|>>", 42),
    ("||", 46),
    ("}", 74),
    ("~", 55),
    ("¬", 2),
    ("·", 9),
    ("×", 38),
    ("÷", 52),
    ("λ", 57),
    ("⊤", 0),
    ("⊥", 1),
    ("∧", 3),
    ("∨", 4),
    ("⇒", 5),
    ("⇔", 6),
    ("∀", 7),
    ("∃", 8),
    ("∣", 10),
    ("≠", 12),
    ("∈", 13),
    ("∉", 14),
    ("⊂", 15),
    ("⊄", 16),
    ("⊆", 17),
    ("⊈", 18),
    ("≤", 20),
    ("≥", 22),
    ("↦", 23),
    ("↔", 24),
    ("⇸", 28),
    ("→", 29),
    ("⤔", 30),
    ("↣", 31),
    ("⤀", 32),
    ("↠", 33),
    ("⤖", 34),
    ("∪", 35),
    ("∩", 36),
    ("∖", 37),
    ("◁", 39),
    ("⩤", 40),
    ("▷", 41),
    ("⩥", 42),
    ("∘", 45),
    ("∥", 46),
    ("⊗", 47),
    ("‥", 48),
    ("−", 50),
    ("∗", 51),
    ("∼", 55),
    ("⦂", 56),
    ("⋃", 58),
    ("⋂", 59),
    ("ℤ", 60),
    ("ℕ", 61),
    ("ℕ1", 62),
    ("ℙ", 63),
    ("ℙ1", 64),
    ("∅", 65),
    ("≔", 66),
    ("\u{e100}", 25),
    ("\u{e101}", 26),
    ("\u{e102}", 27),
    ("\u{e103}", 43),
];

/// How many of the forms begin with a lower byte than each.
pub const STARTS: [u8; 257] = [
    0, 0, 0, 0, 0, 0, 0, 0, 0, 0, 0, 0, 0, 0, 0, 0, 0, 0, 0, 0, 0, 0, 0, 0, 0, 0, 0, 0, 0, 0, 0, 0,
    0, 0, 1, 1, 2, 2, 3, 4, 4, 5, 6, 8, 11, 12, 16, 18, 24, 24, 24, 24, 24, 24, 24, 24, 24, 24, 24,
    30, 31, 43, 45, 51, 51, 51, 51, 51, 51, 51, 51, 51, 51, 51, 53, 53, 53, 53, 53, 55, 55, 57, 57,
    57, 57, 57, 58, 58, 58, 58, 58, 58, 59, 61, 62, 63, 63, 63, 63, 63, 64, 64, 64, 65, 65, 65, 65,
    65, 65, 65, 66, 67, 69, 69, 69, 69, 69, 70, 70, 70, 70, 70, 70, 70, 72, 77, 78, 79, 79, 79, 79,
    79, 79, 79, 79, 79, 79, 79, 79, 79, 79, 79, 79, 79, 79, 79, 79, 79, 79, 79, 79, 79, 79, 79, 79,
    79, 79, 79, 79, 79, 79, 79, 79, 79, 79, 79, 79, 79, 79, 79, 79, 79, 79, 79, 79, 79, 79, 79, 79,
    79, 79, 79, 79, 79, 79, 79, 79, 79, 79, 79, 79, 79, 79, 79, 79, 81, 83, 83, 83, 83, 83, 83, 83,
    83, 83, 83, 83, 84, 84, 84, 84, 84, 84, 84, 84, 84, 84, 84, 84, 84, 84, 84, 84, 84, 84, 84, 84,
    135, 135, 135, 135, 135, 135, 135, 135, 135, 135, 135, 135, 139, 139, 139, 139, 139, 139, 139,
    139, 139, 139, 139, 139, 139, 139, 139, 139, 139, 139,
];

/// The forms that begin with a byte.
fn group<'a>(forms: &'a [(&'a str, u8)], starts: &[u8; 257], first: u8) -> &'a [(&'a str, u8)]
    requires { IsTrue (are_groups forms.now 0 starts.now) }
    ensures { IsGroup forms.now first result.now }
{
    let from = starts[first as usize] as usize;
    let to = starts[first as usize + 1] as usize;
    part(forms, from, to)
}

fn part<'a>(forms: &'a [(&'a str, u8)], from: usize, to: usize) -> &'a [(&'a str, u8)]
    requires order { from ≤ to }
    requires within { to ≤ length forms.now }
    ensures { result.now ≡ take (to - from) (drop from forms.now) }
{
    &forms[from..to]
}

/// The longest form with which the bytes begin, by its length and its sign's number.
pub fn longest_form(forms: &[(&str, u8)], starts: &[u8; 257], bytes: &[u8]) -> Option<(usize, u8)>
    requires { IsTrue (are_groups forms.now 0 starts.now) }
    ensures { Best (table forms.now) bytes.now result }
{
    match bytes {
        [] => None,
        [first, ..] => longest_of(group(forms, starts, *first), bytes),
    }
}

fn longest_of(forms: &[(&str, u8)], bytes: &[u8]) -> Option<(usize, u8)>
    ensures { Best (table forms.now) bytes.now result }
{
    let mut best = None;
    for (form, number) in forms {
        best = better(best, form.as_bytes(), *number, bytes);
    }
    best
}

fn better(best: Option<(usize, u8)>, form: &[u8], number: u8, bytes: &[u8]) -> Option<(usize, u8)>
    ensures { result ≡ better best form.now number bytes.now }
{
    let longer = match best {
        None => 0,
        Some((len, _)) => len,
    };
    if longer < form.len() && bytes.starts_with(form) {
        Some((form.len(), number))
    } else {
        best
    }
}
