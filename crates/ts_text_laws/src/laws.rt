//! The laws. Each function has an empty body, and its contract is the law.

ghost use Rattle.std.specs.Prelude.{◌≡◌, ◌⊎◌, ℕ, List, []};
ghost use Rattle.ts_text_laws.specs.Laws.{AreDecided, HasAnswer, IsAnswered, IsResultText, OneToOne};
ghost use Rattle.ts_model.specs.Headline.{Meets};
ghost use Rattle.ts_model.specs.Texts.{Bundle, IsArchiveText, IsBundle, IsBundleText, IsPlanText, IsPrintText, IsRulesText, IsTreeText};
ghost use Rattle.ts_model.specs.Trees.{AreApart, at};
ghost use Rattle.ts_model.specs.Trial.{HasContentsApart, IsRefused, IsResult, Trial};
ghost use Rattle.ts_name.specs.Paths.{IsPathText};

// ---- Texts.

/// A text is of one path, and a path has one text.
pub fn one_path_text()
    ensures { OneToOne IsPathText }
{}

/// A text is of one tree, and a tree has one text.
pub fn one_tree_text()
    ensures { OneToOne IsTreeText }
{}

/// A text is of one print, and a print has one text.
pub fn one_print_text()
    ensures { OneToOne IsPrintText }
{}

/// An archive file's text is of one print, and a print has one such text.
pub fn one_archive_text()
    ensures { OneToOne IsArchiveText }
{}

/// A text is of one list of hold rules, and these have one text.
pub fn one_rules_text()
    ensures { OneToOne IsRulesText }
{}

/// A text is of one plan, and a plan has one text.
pub fn one_plan_text()
    ensures { OneToOne IsPlanText }
{}

/// A text is of one bundle, and a bundle has one text.
pub fn one_bundle_text()
    ensures { OneToOne IsBundleText }
{}

/// A text is of one result of `trial`, and a result has one text.
pub fn one_result_text()
    ensures { OneToOne IsResultText }
{}

/// Whether bytes are the text of a tree, print, archive, rules, plan or bundle is decided.
pub fn decided_texts()
    ensures { (bytes : List ℕ) → AreDecided bytes }
{}

// ---- Trials.

/// `trial` answers something for a bundle whose contents are apart.
pub fn some_answer()
    ensures { (b : Bundle) → IsBundle b → AreApart (Meets (at b.first) (at b.second) []) → HasAnswer b }
{}

/// What `trial` answers for a bundle is one text and one status.
pub fn one_answer()
    ensures { (b : Bundle) (v w : List ℕ) (m n : ℕ) → IsBundle b → IsRefused b v m ⊎ IsResult b v m → IsRefused b w n ⊎ IsResult b w n
        → (v ≡ w) × (m ≡ n) }
{}

/// `trial` answers something, whatever the bytes, where the contents of a bundle's files are apart.
pub fn some_trial()
    ensures { (bytes : List ℕ) → HasContentsApart bytes → IsAnswered bytes }
{}

/// `trial` answers one text and one status, whatever the bytes.
pub fn one_trial()
    ensures { (bytes v w : List ℕ) (m n : ℕ) → Trial bytes v m → Trial bytes w n → (v ≡ w) × (m ≡ n) }
{}
