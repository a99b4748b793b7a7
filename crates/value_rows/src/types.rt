//! Types as words.
use formula_core::{Boxed, Name, Ty};
use std::alloc::Global;

// The type that a letter makes of the last ones.
fn made(alloc: Global, letter: u8, types: &mut Vec<Ty>) -> Option<Ty> {
    match letter {
        b'Z' => Some(Ty::Int),
        b'B' => Some(Ty::Bool),
        b'S' => Some(Ty::Given(Name::read(alloc, "S").ok()?)),
        b'P' => Some(Ty::Pow(Boxed::new(alloc, types.pop()?).ok()?)),
        b'X' => {
            let left = Boxed::new(alloc, types.pop()?).ok()?;
            let right = Boxed::new(alloc, types.pop()?).ok()?;
            Some(Ty::Pair(left, right))
        }
        _ => None,
    }
}

/// The type that a word stands for.
pub fn type_of(alloc: Global, word: &str) -> Option<Ty> {
    let mut types = Vec::new(alloc);
    for letter in word.as_bytes().iter().rev() {
        let ty = made(alloc, *letter, &mut types)?;
        types.push(ty).ok()?;
    }
    let ty = types.pop()?;
    if types.is_empty() { Some(ty) } else { None }
}
