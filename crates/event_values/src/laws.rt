//! Laws of the order of values and of their texts.
ghost use Rattle.std.specs.Prelude.{◌≡◌, ◌↔◌, ◌≤◌, ◌^◌, ℕ, List, Some, true};
ghost use Rattle.std.specs.List.{AllByRecursion, Contains};
ghost use Rattle.std.specs.Cmp.{IsTotalOrder};
ghost use Rattle.std.specs.declared.cmp.Ordering.TheVariants.{Equal};
ghost use Rattle.formula_core.specs.declared.ty.Ty.{Ty};
ghost use Rattle.event_values.specs.declared.value.Value.{Value};
ghost use Rattle.event_values.specs.Order.{value_nodes, value_cmp, ascends, ascending};
ghost use Rattle.event_values.specs.Text.{value_text};
ghost use Rattle.event_values.specs.Typed.{has_identifiers, is_value_of};
ghost use Rattle.event_values.specs.Reading.{most_nodes, read_as};

/// The order of values is total, and no two values are equal in it.
pub fn order_is_total()
    ensures total { IsTotalOrder value_cmp }
    ensures exact { (v w : Value) → value_cmp v w ≡ Equal → v ≡ w }
{}

/// The ascending list of values has each of them, and no other.
pub fn ascending_is_the_set()
    ensures ascends { (vs : List Value) → ascends (ascending vs) ≡ true }
    ensures members { (vs : List Value) (x : Value) → Contains (ascending vs) x ↔ Contains vs x }
{}

/// What is printed of a value of a type is read as that value.
pub fn printed_is_read()
    ensures { (sizes : List (List ℕ × ℕ)) (ty : Ty) (v : Value) → has_identifiers ty ≡ true → is_value_of sizes ty v ≡ true
        → value_nodes v ≤ most_nodes → read_as sizes ty (value_text v) ≡ Some v }
{}

/// What is read at a type is a value of it.
pub fn read_is_of_the_type()
    ensures { (sizes : List (List ℕ × ℕ)) (ty : Ty) (text : List ℕ) (v : Value) → AllByRecursion (λ s. s.1 ≤ 2 ^ 32) sizes
        → read_as sizes ty text ≡ Some v → is_value_of sizes ty v ≡ true }
{}
