//! The law of tokens. The call does nothing.
ghost use Rattle.std.specs.Prelude.{◌≡◌, List, ℕ, Result};
ghost use Rattle.math_tokens.specs.SignForms.{sign_forms};
ghost use Rattle.math_tokens.specs.Texts.{Cut};
ghost use Rattle.math_tokens.specs.declared.cutting.Token.{Token};
ghost use Rattle.math_tokens.specs.declared.cutting.TokenFault.{TokenFault};

/// A text is cut in at most one way: it has one list of tokens, or one first fault.
pub fn cut_one_way()
    ensures { (text : List ℕ) (first second : Result (List Token) TokenFault)
        → Cut sign_forms text 0 first → Cut sign_forms text 0 second → first ≡ second }
{}
