//! That no two names have one code.
ghost use Rattle.std.specs.Prelude.{◌≡◌, ℕ, List, false};
ghost use Rattle.export_text.specs.ConfigText.Code.{code, name_from};

/// A name is read back from its code, so no two names have one code.
pub fn code_law()
    ensures read { (name : List ℕ) → name_from false (code name) ≡ name }
    ensures injective { (a b : List ℕ) → code a ≡ code b → a ≡ b }
{}
