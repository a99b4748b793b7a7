//! The bank: lists in which each formula, type and name stands once.
use crate::stop::Stop;
use crate::term::{Head, Id, NONE, Span, Term, TypeHead};
use formula_core::{Binder, Name, Op};
use std::alloc::Global;

/// How many chains the formulas stand in at first. There are never less than half as many as formulas.
const CHAINS: usize = 256;

/// The most formulas of a bank.
const MOST: usize = 2097152;

/// The greatest size of a formula, written out.
const LARGEST: u32 = 65536;

/// Formulas, types and names, each once. A formula stands after its parts.
#[derive(Drop)]
pub struct Bank {
    pub(crate) alloc: Global,
    terms: Vec<Term>,
    pool: Vec<u32>,
    chains: Vec<Id>,
    pub(crate) types: Vec<TypeHead>,
    pub(crate) names: Vec<Name>,
    pub(crate) marks: Vec<u32>,
}

impl Bank {
    pub fn new(alloc: Global) -> Result<Bank, Stop> {
        let mut chains = Vec::new(alloc);
        for _ in 0..CHAINS {
            chains.push(NONE)?;
        }
        let mut types = Vec::new(alloc);
        types.push(TypeHead::Int)?;
        types.push(TypeHead::Bool)?;
        types.push(TypeHead::Truth)?;
        Ok(Bank {
            alloc,
            terms: Vec::new(alloc),
            pool: Vec::new(alloc),
            chains,
            types,
            names: Vec::new(alloc),
            marks: Vec::new(alloc),
        })
    }

    /// The allocator of its lists.
    pub fn alloc(&self) -> Global {
        self.alloc
    }

    /// How many formulas there are.
    pub fn len(&self) -> usize {
        self.terms.len()
    }

    /// The formula of a number.
    pub fn term(&self, id: Id) -> Term {
        match self.terms.get(id as usize) {
            Some(term) => *term,
            None => Term {
                head: Head::Bound(NONE),
                parts: Span::EMPTY,
                types: Span::EMPTY,
                names: Span::EMPTY,
                ty: NONE,
                loose: NONE,
                size: 1,
                mask: 0,
                hash: 0,
                next: NONE,
            },
        }
    }

    /// A member of a part of the list, by its place there.
    pub fn at(&self, span: Span, i: u32) -> u32 {
        if i < span.count {
            match self.pool.get(span.start.saturating_add(i) as usize) {
                Some(member) => *member,
                None => NONE,
            }
        } else {
            NONE
        }
    }

    /// The formula with this head, these parts and these types of bound identifiers.
    pub fn add(&mut self, head: Head, parts: &[Id], types: &[Id], ty: Id) -> Result<Id, Stop> {
        let hash = hash_of(head, parts, ty);
        let found = self.find(hash, head, parts, types, ty);
        if found != NONE {
            return Ok(found);
        }
        if self.terms.len() >= MOST {
            return Err(Stop::Spent);
        }
        let id = self.terms.len() as u32;
        let mut term = self.summary(head, parts, count_of(types), ty)?;
        if term.size > LARGEST {
            return Err(Stop::Spent);
        }
        term.parts = self.add_span(parts)?;
        term.types = self.add_span(types)?;
        term.hash = hash;
        self.terms.push(term)?;
        self.link(id as usize);
        if self.terms.len() > self.chains.len().saturating_mul(2) {
            self.widen()?;
        }
        Ok(id)
    }

    /// Puts a formula at the head of its chain.
    fn link(&mut self, id: usize) {
        if id < self.terms.len() && id < MOST {
            let hash = self.terms[id].hash;
            let first = self.first_of(hash);
            self.terms[id].next = first;
            self.set_first(hash, id as u32);
        }
    }

    /// Four times as many chains.
    fn widen(&mut self) -> Result<(), Stop> {
        let count = self.chains.len().saturating_mul(4);
        self.chains.clear();
        for _ in 0..count {
            self.chains.push(NONE)?;
        }
        for id in 0..self.terms.len() {
            self.link(id);
        }
        Ok(())
    }

    /// The formula with this head and these parts, or `NONE` where the bank lacks it. Nothing is added.
    pub fn existing(&self, head: Head, parts: &[Id], ty: Id) -> Id {
        self.find(hash_of(head, parts, ty), head, parts, &[], ty)
    }

    /// The place of a hash among the chains, whose number is a power of 2.
    fn chain_of(&self, hash: u32) -> usize {
        hash as usize & self.chains.len().saturating_sub(1)
    }

    fn first_of(&self, hash: u32) -> Id {
        match self.chains.get(self.chain_of(hash)) {
            Some(first) => *first,
            None => NONE,
        }
    }

    fn set_first(&mut self, hash: u32, id: Id) {
        let chain = self.chain_of(hash);
        if chain < self.chains.len() {
            self.chains[chain] = id;
        }
    }

    fn add_span(&mut self, members: &[u32]) -> Result<Span, Stop> {
        if self.pool.len() >= 1073741824 || members.len() >= 1048576 {
            return Err(Stop::Spent);
        }
        let start = self.pool.len() as u32;
        for member in members {
            self.pool.push(*member)?;
        }
        Ok(Span {
            start,
            count: members.len() as u32,
        })
    }

    fn find(&self, hash: u32, head: Head, parts: &[Id], types: &[Id], ty: Id) -> Id {
        let mut at = self.first_of(hash);
        for _ in 0..self.terms.len() {
            let Some(term) = self.terms.get(at as usize) else {
                return NONE;
            };
            if term.hash == hash
                && term.head == head
                && term.ty == ty
                && self.is_span(term.parts, parts)
                && self.is_span(term.types, types)
            {
                return at;
            }
            at = term.next;
        }
        NONE
    }

    fn is_span(&self, span: Span, members: &[u32]) -> bool {
        if span.count as usize != members.len() {
            return false;
        }
        for i in 0..members.len() {
            if self.at(span, i as u32) != members[i] {
                return false;
            }
        }
        true
    }

    /// A formula but for the lists of its parts and types.
    fn summary(&mut self, head: Head, parts: &[Id], bound: u32, ty: Id) -> Result<Term, Stop> {
        let mut loose: u32 = 0;
        let mut size: u32 = 1;
        for part in parts {
            let term = self.term(*part);
            loose = loose.max(term.loose);
            size = size.saturating_add(term.size);
        }
        loose = match head {
            Head::Bound(at) => at.saturating_add(1),
            _ => loose.saturating_sub(bound),
        };
        let names = self.names_of(head, parts)?;
        Ok(Term {
            head,
            parts: Span::EMPTY,
            types: Span::EMPTY,
            names,
            ty,
            loose,
            size,
            mask: self.mask_of(names),
            hash: 0,
            next: NONE,
        })
    }

    fn names_of(&mut self, head: Head, parts: &[Id]) -> Result<Span, Stop> {
        if let Head::Free(name) = head {
            return self.add_span(&[name]);
        }
        match parts {
            [] => Ok(Span::EMPTY),
            [only] => Ok(self.term(*only).names),
            _ => self.names_of_all(parts),
        }
    }

    fn names_of_all(&mut self, parts: &[Id]) -> Result<Span, Stop> {
        let mut all: Vec<u32> = Vec::new(self.alloc);
        for part in parts {
            let names = self.term(*part).names;
            for i in 0..names.count {
                let name = self.at(names, i);
                if !is_in(&all, name) {
                    all.push(name)?;
                }
            }
        }
        self.add_span(&all)
    }

    fn mask_of(&self, names: Span) -> u64 {
        let mut mask: u64 = 0;
        for i in 0..names.count {
            mask |= bit_of(self.at(names, i));
        }
        mask
    }

    /// Whether a formula has a name.
    pub fn has_name(&self, id: Id, name: u32) -> bool {
        let term = self.term(id);
        if term.mask & bit_of(name) == 0 {
            return false;
        }
        for i in 0..term.names.count {
            if self.at(term.names, i) == name {
                return true;
            }
        }
        false
    }
}

/// How many members a list has, or 2^20 where it has more.
fn count_of(members: &[u32]) -> u32 {
    if members.len() < 1048576 {
        members.len() as u32
    } else {
        1048576
    }
}

fn is_in(members: &[u32], member: u32) -> bool {
    for other in members {
        if *other == member {
            return true;
        }
    }
    false
}

fn bit_of(name: u32) -> u64 {
    1u64 << (name % 64)
}

fn mixed(hash: u32, next: u32) -> u32 {
    (hash ^ next).wrapping_mul(16777619).rotate_left(5)
}

fn head_number(head: Head) -> u32 {
    match head {
        Head::Int(n) => (n & 0xffffff) as u32,
        Head::Free(name) => name.wrapping_add(1000),
        Head::Bound(at) => at.wrapping_add(2000),
        Head::Node(op) => operator_number(op).wrapping_add(3000),
        Head::Bind(binder) => binder_number(binder).wrapping_add(4000),
    }
}

fn operator_number(op: Op) -> u32 {
    op.number() as u32
}

fn binder_number(binder: Binder) -> u32 {
    binder.number() as u32
}

fn hash_of(head: Head, parts: &[Id], ty: Id) -> u32 {
    let mut hash = mixed(2166136261, head_number(head));
    hash = mixed(hash, ty);
    for part in parts {
        hash = mixed(hash, *part);
    }
    hash ^ hash >> 15
}
