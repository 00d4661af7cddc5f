// What holds of all words.
ghost use Rattle.std.specs.Prelude.{◌≡◌, ◌↔◌, List, ℕ};
ghost use Rattle.skopeo_words.specs.Line.{IsLine};
ghost use Rattle.skopeo_words.specs.Parts.{Part};
ghost use Rattle.skopeo_words.specs.Scan.{parts_of};

/// Words have one row of parts.
pub fn one_line()
    ensures line { (words : List (List ℕ)) (parts : List Part) →
        IsLine parts 1 words ↔ (parts_of words ≡ parts) }
{}
