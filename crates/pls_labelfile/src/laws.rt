//! Laws of the text of labels. Their functions do nothing: each says what holds of the definitions.

ghost use Rattle.std.specs.Prelude.{◌≡◌, ℕ, Bool, List, ◌++◌, All};
ghost use Rattle.pls_lines.specs.Fault.{IsFirstFault};
ghost use Rattle.pls_lines.specs.Lines.{IsFault, Left};
ghost use Rattle.pls_labelfile.specs.LabelsText.{AreLabels, FitsLabel, IsLabelsPart, Labelling, labels_text};

/// A text fixes the labels at its front with their code, and what follows them.
pub fn text_fixes_labels()
    ensures { (a b : Labelling) (x y : List ℕ) → All FitsLabel a.labels → All FitsLabel b.labels
        → labels_text a ++ x ≡ labels_text b ++ y → (a ≡ b) × (x ≡ y) }
{}

/// Where the text of labels stands, no line of it is faulty, so a scan passes it.
pub fn no_fault()
    ensures { (delta : Bool) (said : Labelling) (rest : List ℕ) (old : Left) (k : ℕ)
        → AreLabels delta said → old.rest ≡ labels_text said ++ rest
        → IsFault (IsLabelsPart delta) old k → ⊥ }
{}

/// A text that is no labels part has one first faulty line at most.
pub fn one_first_fault()
    ensures { (delta : Bool) (text : List ℕ) (j k : ℕ) → IsFirstFault (IsLabelsPart delta) text j
        → IsFirstFault (IsLabelsPart delta) text k → j ≡ k }
{}
