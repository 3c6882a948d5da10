//! Laws on the text of rules. Each function has an empty body, and its contract is the law.
ghost use Rattle.std.specs.Prelude.{◌≡◌, ℕ, List};
ghost use Rattle.ts_model.specs.Texts.{IsBadLine, IsRulesText};
ghost use Rattle.ts_model.specs.declared.hold.Rule.{Rule};

/// A text with a bad line is that of no rules.
pub fn no_bad_line()
    ensures { (bytes : List ℕ) (number : ℕ) (rules : List Rule) → IsBadLine bytes number → ¬ IsRulesText bytes rules }
{}

/// A text has at most one bad line that is reported: the first.
pub fn one_bad_line()
    ensures { (bytes : List ℕ) (m n : ℕ) → IsBadLine bytes m → IsBadLine bytes n → m ≡ n }
{}
