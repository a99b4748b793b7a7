//! How tightly a formula holds together, and what each place of the grammar takes.

ghost use Rattle.std.specs.Prelude.{◌≡◌, nat_le};
ghost use Rattle.math_grammar.specs.Levels.{rank, typed, is_declaration, grouped, least, most, reaches, fits, inside};

/// The tightest level of the grammar at which a formula can stand, loosest first.
#[derive(Clone, Copy)]
pub enum Grade {
    Implication,
    Conjunction,
    Disjunction,
    Literal,
    /// With a type behind it.
    Typed,
    /// A bare name with a type behind it.
    Declared,
    Pair,
    Arrow,
    Set,
    Interval,
    Sum,
    Negative,
    Product,
    Power,
    /// λ, ⋃ and ⋂.
    Reaching,
    Suffixed,
    Primary,
    /// A bare name.
    Name,
}

/// A place of the grammar, by the loosest formula that it takes.
#[derive(Clone, Copy)]
pub enum Hole {
    /// A predicate or an expression.
    Formula,
    Predicate,
    Junction,
    Literal,
    Expression,
    Pair,
    Arrow,
    Set,
    Range,
    Sum,
    Summand,
    Term,
    Factor,
    Operand,
    /// A bare name.
    Name,
}

impl Grade {
    /// Its place among the levels: 1 to 3 for predicates, 4 to 16 for expressions.
    pub fn rank(self) -> u8
        ensures { result ≡ rank self }
    {
        match self {
            Grade::Implication => 1,
            Grade::Conjunction => 2,
            Grade::Disjunction => 2,
            Grade::Literal => 3,
            Grade::Typed => 4,
            Grade::Declared => 4,
            Grade::Pair => 5,
            Grade::Arrow => 6,
            Grade::Set => 7,
            Grade::Interval => 8,
            Grade::Sum => 9,
            Grade::Negative => 10,
            Grade::Product => 11,
            Grade::Power => 12,
            Grade::Reaching => 13,
            Grade::Suffixed => 14,
            Grade::Primary => 15,
            Grade::Name => 16,
        }
    }

    /// With a type behind it.
    pub fn typed(self) -> Grade
        ensures { result ≡ typed self }
    {
        match self {
            Grade::Name => Grade::Declared,
            _ => Grade::Typed,
        }
    }

    /// Whether it may declare a name: a bare name, or one with a type.
    pub fn is_declaration(self) -> bool
        ensures { result ≡ is_declaration self }
    {
        matches!(self, Grade::Name | Grade::Declared)
    }

    /// What parentheses make of it.
    pub fn grouped(self) -> Grade
        ensures { result ≡ grouped self }
    {
        if self.rank() <= 3 {
            Grade::Literal
        } else {
            Grade::Primary
        }
    }
}

impl Hole {
    pub fn least(self) -> u8
        ensures { result ≡ least self }
    {
        match self {
            Hole::Formula => 1,
            Hole::Predicate => 1,
            Hole::Junction => 2,
            Hole::Literal => 3,
            Hole::Expression => 4,
            Hole::Pair => 5,
            Hole::Arrow => 6,
            Hole::Set => 7,
            Hole::Range => 8,
            Hole::Sum => 9,
            Hole::Summand => 10,
            Hole::Term => 11,
            Hole::Factor => 12,
            Hole::Operand => 13,
            Hole::Name => 16,
        }
    }

    pub fn most(self) -> u8
        ensures { result ≡ most self }
    {
        match self {
            Hole::Predicate | Hole::Junction | Hole::Literal => 3,
            _ => 16,
        }
    }

    /// Whether it may begin with a formula of this grade.
    pub fn reaches(self, grade: Grade) -> bool
        ensures { result ≡ reaches self grade }
    {
        self.least() <= grade.rank()
    }

    /// Whether it takes a formula of this grade.
    pub fn fits(self, grade: Grade) -> bool
        ensures { result ≡ fits self grade }
    {
        self.reaches(grade) && grade.rank() <= self.most()
    }

    /// What stands in parentheses at this place.
    pub fn inside(self) -> Hole
        ensures { result ≡ inside self }
    {
        if self.least() <= 3 {
            Hole::Formula
        } else {
            Hole::Expression
        }
    }
}
