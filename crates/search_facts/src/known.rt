//! What the hypotheses say of a formula by short looks.
use crate::facts::Facts;
use formula_core::{Binder, Op};
use rule_table::Law;
use search_steps::{Bank, Head, Id, NONE, Stop};
use search_terms::{Branch, is_of_partner, is_plain};

/// Whether both hold, of two that may be known.
fn and(a: Option<bool>, b: Option<bool>) -> Option<bool> {
    match (a, b) {
        (Some(false), _) | (_, Some(false)) => Some(false),
        (Some(true), Some(true)) => Some(true),
        _ => None,
    }
}

fn not(a: Option<bool>) -> Option<bool> {
    match a {
        Some(known) => Some(!known),
        None => None,
    }
}

/// Whether both hold or neither, of two that may be known.
fn same(a: Option<bool>, b: Option<bool>) -> Option<bool> {
    match (a, b) {
        (Some(first), Some(second)) => Some(first == second),
        _ => None,
    }
}

impl Facts {
    /// Whether a formula is known to hold, or not to.
    #[cycle(known)]
    pub fn known(&mut self, b: &Branch, f: Id, levels: u32) -> Result<Option<bool>, Stop> {
        self.search.look()?;
        if b.has(f) {
            return Ok(Some(true));
        }
        if levels == 0 {
            return Ok(None);
        }
        let seen = self.known_by_form(b, f, levels - 1)?;
        if seen.is_some() {
            return Ok(seen);
        }
        Ok(self.refuted(b, f))
    }

    fn refuted(&self, b: &Branch, f: Id) -> Option<bool> {
        let negated = self.search.bank.existing_not(f);
        if negated != NONE && b.has(negated) {
            Some(false)
        } else {
            None
        }
    }

    #[cycle(known)]
    fn known_by_form(&mut self, b: &Branch, f: Id, levels: u32) -> Result<Option<bool>, Stop> {
        if levels == 0 {
            return Ok(None);
        }
        let (left, right) = self.search.bank.two(f);
        match self.search.bank.term(f).head {
            Head::Bind(Binder::Exists) => self.known_witness(b, f, levels - 1),
            Head::Node(Op::Top) => Ok(Some(true)),
            Head::Node(Op::Bottom) => Ok(Some(false)),
            Head::Node(Op::Not) => Ok(not(self.known(b, left, levels - 1)?)),
            Head::Node(Op::And) => {
                let first = self.known(b, left, levels - 1)?;
                if first == Some(false) {
                    return Ok(first);
                }
                let second = self.known(b, right, levels - 1)?;
                Ok(and(first, second))
            }
            Head::Node(Op::Or) => {
                let first = not(self.known(b, left, levels - 1)?);
                let second = not(self.known(b, right, levels - 1)?);
                Ok(not(and(first, second)))
            }
            Head::Node(Op::Implies) => {
                let first = self.known(b, left, levels - 1)?;
                let second = not(self.known(b, right, levels - 1)?);
                Ok(not(and(first, second)))
            }
            Head::Node(Op::Equivalent) => {
                let first = self.known(b, left, levels - 1)?;
                let second = self.known(b, right, levels - 1)?;
                Ok(same(first, second))
            }
            Head::Node(Op::Equal) => self.known_equation(b, f, levels - 1),
            Head::Node(Op::Less) | Head::Node(Op::LessOrEqual) => self.known_by_bounds(b, f),
            Head::Node(Op::Subset) => {
                let is_whole = self.is_whole(right)?;
                Ok(if left == right || is_whole {
                    Some(true)
                } else {
                    None
                })
            }
            Head::Node(_) => self.known_by_law(b, f, levels - 1),
            _ => Ok(None),
        }
    }

    #[cycle(known)]
    fn known_by_law(&mut self, b: &Branch, f: Id, levels: u32) -> Result<Option<bool>, Stop> {
        let Some(law) = self.law_for(f)? else {
            return Ok(None);
        };
        if law == Law::MemberOfWhole {
            return Ok(Some(true));
        }
        if levels == 0 {
            return Ok(None);
        }
        let opened = self.search.by_law(law, f)?;
        if opened == NONE {
            return Ok(None);
        }
        if is_plain(law) {
            return self.known(b, opened, levels - 1);
        }
        if is_of_partner(law) {
            return self.known_witness(b, opened, levels - 1);
        }
        Ok(None)
    }

    #[cycle(known)]
    fn known_equation(&mut self, b: &Branch, f: Id, levels: u32) -> Result<Option<bool>, Stop> {
        let (left, right) = self.search.bank.two(f);
        if left == right {
            return Ok(Some(true));
        }
        if let Some(known) = self.known_by_values(left, right) {
            return Ok(Some(known));
        }
        let turned = self.search.bank.existing_equal(right, left);
        if turned != NONE && b.has(turned) {
            return Ok(Some(true));
        }
        if turned != NONE && self.refuted(b, turned).is_some() {
            return Ok(Some(false));
        }
        if self.is_number(left) {
            return self.known_by_bounds(b, f);
        }
        if self.search.bank.ty(left) == Bank::BOOL {
            if let Some(known) = self.known_truth(b, left, right) {
                return Ok(Some(known));
            }
        }
        if levels == 0 {
            return Ok(None);
        }
        match self.law_for(f)? {
            Some(law) if is_plain(law) => {
                let opened = self.search.by_law(law, f)?;
                self.known(b, opened, levels - 1)
            }
            _ => Ok(None),
        }
    }

    fn known_by_values(&self, left: Id, right: Id) -> Option<bool> {
        match (self.search.bank.value(left), self.search.bank.value(right)) {
            (Some(m), Some(n)) => Some(m == n),
            _ => {
                let is_left = left == self.search.yes || left == self.search.no;
                let is_right = right == self.search.yes || right == self.search.no;
                if is_left && is_right {
                    return Some(left == right);
                }
                let is_set = self.search.bank.is(left, Op::SetExtension);
                if is_set && self.search.bank.is(right, Op::EmptySet) {
                    return Some(false);
                }
                None
            }
        }
    }

    /// Whether an expression is `TRUE` or `FALSE`, by what is known of the other.
    fn known_truth(&self, b: &Branch, left: Id, right: Id) -> Option<bool> {
        let other = if right == self.search.yes {
            self.search.no
        } else if right == self.search.no {
            self.search.yes
        } else {
            return None;
        };
        let opposite = self.search.bank.existing_equal(left, other);
        if opposite == NONE {
            return None;
        }
        if b.has(opposite) {
            return Some(false);
        }
        not(self.refuted(b, opposite))
    }

    #[cycle(known)]
    fn known_witness(&mut self, b: &Branch, f: Id, levels: u32) -> Result<Option<bool>, Stop> {
        if levels == 0 {
            return Ok(None);
        }
        Ok(match self.witness(b, f, levels - 1)? {
            Some(_) => Some(true),
            None => None,
        })
    }

    /// Terms with which the body of an `∃` is known to hold.
    #[cycle(known)]
    pub fn witness(&mut self, b: &Branch, f: Id, levels: u32) -> Result<Option<Vec<Id>>, Stop> {
        let candidates = self.witnesses(b, f)?;
        if levels == 0 {
            return Ok(None);
        }
        for terms in &candidates {
            let put = self.put(f, terms)?;
            if self.known(b, put, levels - 1)? == Some(true) {
                return Ok(Some(Vec::from_slice(self.search.alloc(), terms)?));
            }
        }
        Ok(None)
    }
}
