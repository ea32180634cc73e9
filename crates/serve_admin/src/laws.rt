//! Laws of Prometheus' text format.

ghost use Rattle.std.specs.Prelude.{◌≡◌, ◌++◌, ℕ, List, ◌∷◌, Some, false};
ghost use Rattle.serve_admin.specs.Labels.{escaped, read_value};

/// A reader of the text finds the value that was written, whatever its bytes are, and then what follows the quote that
/// ends it. So no name adds a label, a sample or a line.
pub fn a_label_reads_back()
    ensures { (value rest : List ℕ) → read_value false (escaped value ++ 34 ∷ rest) ≡ Some (value, rest) }
{}
