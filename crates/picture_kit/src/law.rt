//! That no text can leave its quotes.
ghost use Rattle.std.specs.Prelude.{◌≡◌, ◌∷◌, ◌++◌, ℕ, List, Some, false};
ghost use Rattle.picture_kit.specs.Quotes.{quoted, read_quoted};

/// A reader of a quoted text gets that text, whatever it is and whatever stands behind it, and
/// stops right behind its last quote.
pub fn quote_law()
    ensures { (text rest : List ℕ) → (inside : List ℕ) → quoted text ++ rest ≡ 34 ∷ inside
        → read_quoted false inside ≡ Some (record { text = text; rest = rest }) }
{}
