//! What holds of the texts of all formulas. The law is a function that does nothing: its contract is the law.
ghost use Rattle.std.specs.Prelude.{◌≡◌, ℕ, Bool, List, length, Some, slice_get};
ghost use Rattle.aig_parts.specs.declared.raw.Raw.{Raw};
ghost use Rattle.aig_base.specs.Circuit.{IsCircuit};
ghost use Rattle.aig_base.specs.Order.{IsCanonicalOrder};
ghost use Rattle.aig_base.specs.Part.{TestsRead, part};
ghost use Rattle.aig_cnf.specs.CnfText.{read_text};
ghost use Rattle.aig_cnf.specs.DimacsRead.{read_formula};
ghost use Rattle.aig_cnf.specs.Query.{subject};
ghost use Rattle.aig_cnf.specs.ReadFormula.{HasReadAliveFormula, HasReadFormula, IsReadAliveOf, IsReadOf, ReadCnf};
ghost use Rattle.aig_cnf.specs.ReadMap.{ReportsReadInputs};
ghost use Rattle.aig_cnf.specs.declared.heading.Heading.{Heading};
ghost use Rattle.aig_cnf.specs.declared.query.Goal.{Goal};
ghost use Rattle.aig_cnf.specs.declared.query.Query.{Query};
ghost use Rattle.aig_unroll.specs.Unrolled.{unrolled};

/// A reader of DIMACS finds in the text of a formula, as `ReadFormula::write` writes it, exactly its number of
/// variables, its number of clauses and its clauses: variable v of DIMACS is variable v - 1 here. The reader goes line
/// by line and word by word, and knows nothing of the writer. So it does for the formula of `ReadFormula::alive`, in the
/// text for the circuit itself. What the first comment line says does not matter.
pub fn law_of_dimacs()
    ensures found { (raw : Raw) (query : Query) (asked : Heading) (read : ReadCnf) →
        IsCircuit raw → HasReadFormula raw query → IsReadOf raw query read →
        read_formula (read_text (subject query.goal raw) asked read)
        ≡ Some (read.cnf.variables, length read.cnf.clauses, read.cnf.clauses) }
    ensures alive { (raw : Raw) (frames : ℕ) (asked : Heading) (read : ReadCnf) →
        IsCircuit raw → HasReadAliveFormula raw frames → IsReadAliveOf raw frames read →
        read_formula (read_text raw asked read)
        ≡ Some (read.cnf.variables, length read.cnf.clauses, read.cnf.clauses) }
{}

/// The comment lines of a formula over a part name the inputs of the unrolled part, in order: each input that is read, at
/// each frame, and each uninitialised latch that is read, by its place in the whole circuit. So the first line names
/// variable 1 of the unrolled part, which is variable 2 of DIMACS, and each further line the next one.
pub fn law_of_read_map()
    ensures { (raw : Raw) (p bad : ℕ) (test : ℕ → Bool) (goal : Goal) (order : List ℕ) (frames : ℕ) →
        IsCircuit raw → slice_get raw.bad p ≡ Some bad → TestsRead raw bad test →
        IsCanonicalOrder (subject goal (part raw bad test)) order →
        ReportsReadInputs raw bad test goal order frames
        (unrolled (subject goal (part raw bad test)) order frames).inputs }
{}
