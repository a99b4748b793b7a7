//! The laws of reading back what is printed. The calls do nothing.
ghost use Rattle.std.specs.Prelude.{◌≡◌, ℕ, List, Option, None, IsTrue};
ghost use Rattle.formula_core.specs.declared.ty.Ty.{Ty};
ghost use Rattle.formula_core.specs.declared.formula.Formula.{Formula};
ghost use Rattle.formula_core.specs.declared.raw.Raw.{Raw};
ghost use Rattle.formula_core.specs.Wellness.{is_well};
ghost use Rattle.type_formula.specs.CoreForms.{core_form};
ghost use Rattle.type_formula.specs.Answers.{IsTypedAs, IsTheFormula};
ghost use Rattle.math_grammar.specs.Grammar.{Spells};
ghost use Rattle.formula_print.specs.Printing.{formula_text};
ghost use Rattle.formula_print.specs.Written.{raw_of};
ghost use Rattle.math_places.specs.Places.{unplaced};
ghost use Rattle.token_text.specs.Spacing.{IsCutInto};
ghost use Rattle.math_print.specs.Grades.{items_of_formula, IsSpelled, place_for};
ghost use Rattle.formula_print.specs.Held.{HasNames, HasFewNames};
ghost use Rattle.math_print.specs.Back.{ReadsBack};
ghost use Rattle.formula_print.specs.Held.{HasNarrowNumbers};

/// The tokens of a well formula's printed text are a sentence, and its tree is the formula as it is written.
pub fn written_is_spelled()
    ensures { (f : Formula) → IsTrue (is_well f) → HasNames f → HasFewNames f → IsSpelled f }
{}

/// They are no other sentence.
pub fn spelled_one_way()
    ensures { (f : Formula) (t : Raw) → IsTrue (is_well f) → HasNames f → HasFewNames f
        → Spells None (place_for f) (items_of_formula f) t → t ≡ raw_of f }
{}

/// The printed text is cut into these tokens, but for their places.
pub fn text_is_cut()
    ensures { (f : Formula) → IsTrue (is_well f) → HasNames f → HasFewNames f
        → HasNarrowNumbers f → IsCutInto (formula_text f) (items_of_formula f) }
{}

/// The printed text reads back: its tokens spell one tree, which is typed as the formula again, and the parser finds it, unless
/// they pass a limit.
pub fn read_back()
    ensures { (f : Formula) → IsTrue (is_well f) → HasNames f → HasFewNames f
        → HasNarrowNumbers f → ReadsBack f (formula_text f) }
{}

/// Two written formulas that are the same but for their places have the same typings, and if one has a single typing, it is
/// the only one of the other too.
pub fn typed_at_other_places()
    ensures typings { (r s : Raw) → unplaced r ≡ unplaced s
        → (env : List (List ℕ × Ty)) (wanted : List (List ℕ)) (expected : Option Ty) (f : Formula)
        → IsTypedAs env wanted (core_form r) expected f → IsTypedAs env wanted (core_form s) expected f }
    ensures the_formula { (r s : Raw) → unplaced r ≡ unplaced s
        → (env : List (List ℕ × Ty)) (wanted : List (List ℕ)) (expected : Option Ty) (f : Formula)
        → IsTheFormula env wanted (core_form r) expected f → IsTheFormula env wanted (core_form s) expected f }
{}
