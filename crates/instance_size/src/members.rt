//! How large the law of listed members makes a formula, without building it.
ghost use Rattle.std.specs.Prelude.{◌≡◌, IsTrue, fold};
ghost use Rattle.std.specs.Option.{option_map};
ghost use Rattle.rule_table.specs.SetLaws.{member_of_extension};
ghost use Rattle.instance_size.specs.Extents.{extent_of};
ghost use Rattle.instance_size.specs.Private.{GrowsAt, MembersGrowAt, members_extent, one_of_extent, or_equal_extent};

use crate::extent::{Extent, exceeds, extent_of, joined};
use formula_core::{Formula, Op};
use rule_table::{Law, operands, two_operands};
use rules_arith::at_place;

/// How large `E = F1 ∨ .. ∨ E = Fn` is, if a formula is `E ∈ {F1, .., Fn}`: E stands there n times.
#[tactic(auto, using(crate::proofs::ListedMembers::members_are))]
pub fn extension_extent(f: &Formula) -> Option<Extent>
    ensures extent { result ≡ option_map extent_of (member_of_extension f.now) }
{
    members_extent(f)
}

fn members_extent(f: &Formula) -> Option<Extent>
    ensures { result ≡ members_extent f.now }
{
    let Some((e, set)) = two_operands(Op::Member, f) else {
        return None;
    };
    let Some(members) = operands(Op::SetExtension, set) else {
        return None;
    };
    one_of_extent(extent_of(e), members)
}

fn one_of_extent(e: Extent, members: &[Formula]) -> Option<Extent>
    ensures { result ≡ one_of_extent e members.now }
{
    match members {
        [] => None,
        [first, rest @ ..] => Some(or_equal_to(e, joined(e, extent_of(first)), rest)),
    }
}

fn or_equal_to(e: Extent, first: Extent, rest: &[Formula]) -> Extent
    ensures { result ≡ fold (or_equal_extent e) first rest.now }
{
    let mut any = first;
    for member in rest {
        any = joined(any, joined(e, extent_of(member)));
    }
    any
}

/// Whether a law makes a formula, at a place of it, larger than there is room for.
pub(crate) fn grows_at(number: u8, place: &[u32], f: &Formula, room: Extent) -> bool
    ensures { IsTrue result → GrowsAt room number place.now f.now }
{
    let Some(law) = Law::of_number(number) else {
        return false;
    };
    match law {
        Law::MemberOfExtension => members_grow_at(place, f, room),
        _ => false,
    }
}

fn members_grow_at(place: &[u32], f: &Formula, room: Extent) -> bool
    ensures { IsTrue result → MembersGrowAt room place.now f.now }
{
    let Some(part) = at_place(place, f) else {
        return false;
    };
    let Some(extent) = extension_extent(part) else {
        return false;
    };
    exceeds(room, extent)
}
