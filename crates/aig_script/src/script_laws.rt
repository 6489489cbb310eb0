//! What holds of all scripts. A law is a function that does nothing: its contract is the law.
ghost use Rattle.std.specs.Prelude.{◌≡◌, ◌↔◌, ◌++◌, ℕ, List, []};
ghost use Rattle.aig_base.specs.Circuit.{IsCircuit};
ghost use Rattle.aig_bench.specs.BenchState.{CircuitAndRows};
ghost use Rattle.aig_script.specs.Lines.{Line, lines_from, rest_from, lines_of, IsSplit};
ghost use Rattle.aig_script.specs.Meaning.{HasOneMeaning, RepliesInTurn};
ghost use Rattle.aig_script.specs.Replies.{Replies};

/// The lines of a script are the pieces that LF ends, and what follows the last LF; no script can be split so in
/// two ways (our own choice).
pub fn law_of_lines()
    ensures split { (script : List ℕ) → IsSplit script (lines_from [] script) (rest_from [] script) }
    ensures one { (script : List ℕ) (lines : List (List ℕ)) (rest : List ℕ) → IsSplit script lines rest
        → (lines ≡ lines_from [] script) × (rest ≡ rest_from [] script) }
{}

/// A script has one meaning: from one circuit and its rows, the replies of two runs are the same and leave the same
/// circuit and rows, unless one of the replies is `no 11`. The replies to some lines and then more lines are those to
/// the former, and then those to the latter from the pair that the former leave. Two scripts, the first of which ends
/// with an LF, are together the lines of both. So a script goes on where another one ended (our own choice).
pub fn law_of_one_meaning()
    ensures one { (old : CircuitAndRows) (lines : List Line) → IsCircuit old.circuit → HasOneMeaning old lines }
    ensures turns { (old new : CircuitAndRows) (first second : List Line) (replies : List ℕ) →
        Replies old (first ++ second) replies new ↔ RepliesInTurn old first second replies new }
    ensures lines { (first second : List ℕ) → rest_from [] first ≡ [] →
        lines_of (first ++ second) ≡ lines_of first ++ lines_of second }
{}
