//! What holds of all edits. A law is a function that does nothing: its contract is the law.
ghost use Rattle.std.specs.Prelude.{◌≡◌, ℕ};
ghost use Rattle.aig_bench.specs.Edit.{Edit};
ghost use Rattle.aig_bench.specs.BenchState.{CircuitAndRows};
ghost use Rattle.aig_bench.specs.Touched.{Touches, Changes, AreCells};

/// There is one number of cells that an edit touches, and one of cells that it changes (our own choice).
pub fn law_of_counts()
    ensures touched { (p : CircuitAndRows) (e : Edit) (m n : ℕ) → AreCells (Touches p e) m → AreCells (Touches p e) n
        → m ≡ n }
    ensures changed { (p : CircuitAndRows) (e : Edit) (m n : ℕ) → AreCells (Changes p e) m → AreCells (Changes p e) n
        → m ≡ n }
{}
