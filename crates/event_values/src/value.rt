// Finite values.
ghost use Rattle.std.specs.Prelude.{◌≡◌, ◌↔◌, IsTrue, IfOk, min, map, sum, ◌^◌, ◌-◌};
ghost use Rattle.event_values.specs.Order.{value_nodes, value_cmp, members_cmp};

use formula_core::{Boxed, List, Name, OutOfMemory};
use std::alloc::Global;
use std::cmp::Ordering;

/// A finite value.
///
/// Of a set the members strictly ascend, in the order of values.
pub enum Value {
    Int(i128),
    Truth(bool),
    /// An element of a carrier set, by its number.
    Elem(Name, u32),
    Pair(Boxed<Value>, Boxed<Value>),
    Set(List<Value>),
}

// One call drops a value, where a derive would take each variant apart in every function that owns one.
impl Drop for Value {
    fn drop(self) {
        match self {
            Value::Int(_) | Value::Truth(_) => {}
            Value::Elem(_, _) => {}
            Value::Pair(_, _) => {}
            Value::Set(_) => {}
        }
    }
}

impl Value {
    #[cycle(copy)]
    pub fn copy(&self, alloc: Global) -> Result<Value, OutOfMemory>
        ensures { IfOk result (λ v. v ≡ self.now) }
    {
        match self {
            Value::Int(n) => Ok(Value::Int(*n)),
            Value::Truth(b) => Ok(Value::Truth(*b)),
            Value::Elem(set, k) => Ok(Value::Elem(set.copy(alloc)?, *k)),
            Value::Pair(left, right) => {
                let left = Boxed::new(alloc, left.get().copy(alloc)?)?;
                let right = Boxed::new(alloc, right.get().copy(alloc)?)?;
                Ok(Value::Pair(left, right))
            }
            Value::Set(members) => Ok(Value::Set(copy_values(alloc, members.items())?)),
        }
    }

    /// Whether it is the same value.
    #[cycle(same)]
    pub fn same(&self, other: &Value) -> bool
        ensures { IsTrue result ↔ (self.now ≡ other.now) }
    {
        match self {
            Value::Int(a) => match other {
                Value::Int(b) => *a == *b,
                _ => false,
            },
            Value::Truth(a) => match other {
                Value::Truth(b) => *a == *b,
                _ => false,
            },
            Value::Elem(s, m) => match other {
                Value::Elem(t, n) => s.same(t) && *m == *n,
                _ => false,
            },
            Value::Pair(a, b) => match other {
                Value::Pair(c, d) => a.get().same(c.get()) && b.get().same(d.get()),
                _ => false,
            },
            Value::Set(xs) => match other {
                Value::Set(ys) => same_values(xs.items(), ys.items()),
                _ => false,
            },
        }
    }

    /// Which of two values comes first.
    #[cycle(order)]
    pub fn order(&self, other: &Value) -> Ordering
        ensures { result ≡ value_cmp self.now other.now }
    {
        match self {
            Value::Int(a) => match other {
                Value::Int(b) => a.cmp(b),
                _ => Ordering::Less,
            },
            Value::Truth(a) => match other {
                Value::Int(_) => Ordering::Greater,
                Value::Truth(b) => a.cmp(b),
                _ => Ordering::Less,
            },
            Value::Elem(s, m) => match other {
                Value::Int(_) | Value::Truth(_) => Ordering::Greater,
                Value::Elem(t, n) => s.cmp(t).then(m.cmp(n)),
                _ => Ordering::Less,
            },
            Value::Pair(a, b) => match other {
                Value::Pair(c, d) => a.get().order(c.get()).then(b.get().order(d.get())),
                Value::Set(_) => Ordering::Less,
                _ => Ordering::Greater,
            },
            Value::Set(xs) => match other {
                Value::Set(ys) => order_of_members(xs.items(), ys.items()),
                _ => Ordering::Greater,
            },
        }
    }

    /// How many parts the value has, itself among them, and no more than 2^64 - 1.
    #[cycle(nodes)]
    pub fn nodes(&self) -> u64
        ensures { result ≡ min (value_nodes self.now) (2 ^ 64 - 1) }
    {
        match self {
            Value::Int(_) | Value::Truth(_) | Value::Elem(_, _) => 1,
            Value::Pair(left, right) => left
                .get()
                .nodes()
                .saturating_add(right.get().nodes())
                .saturating_add(1),
            Value::Set(members) => nodes_of_all(members.items()).saturating_add(1),
        }
    }
}

/// The members of two sets, in the order of dictionaries.
#[cycle(order)]
fn order_of_members(xs: &[Value], ys: &[Value]) -> Ordering
    ensures { result ≡ members_cmp (map value_cmp xs.now) ys.now }
{
    let mut rest = ys;
    for x in xs {
        match rest {
            [] => return Ordering::Greater,
            [y, behind @ ..] => match x.order(y) {
                Ordering::Equal => rest = behind,
                other => return other,
            },
        }
    }
    match rest {
        [] => Ordering::Equal,
        _ => Ordering::Less,
    }
}

#[cycle(same)]
fn same_values(xs: &[Value], ys: &[Value]) -> bool
    ensures { IsTrue result ↔ (xs.now ≡ ys.now) }
{
    if xs.len() != ys.len() {
        return false;
    }
    for i in 0..xs.len() {
        if !xs[i].same(&ys[i]) {
            return false;
        }
    }
    true
}

#[cycle(nodes)]
fn nodes_of_all(items: &[Value]) -> u64
    ensures { result ≡ min (sum (map value_nodes items.now)) (2 ^ 64 - 1) }
{
    let mut total: u64 = 0;
    for item in items {
        total = total.saturating_add(item.nodes());
    }
    total
}

#[cycle(copy)]
pub fn copy_values(alloc: Global, items: &[Value]) -> Result<List<Value>, OutOfMemory>
    ensures { IfOk result (λ xs. xs ≡ items.now) }
{
    let mut copies = Vec::with_capacity(alloc, items.len())?;
    for item in items {
        copies.push(item.copy(alloc)?)?;
    }
    Ok(List::of(copies))
}
