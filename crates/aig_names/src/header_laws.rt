//! What holds of all headers. The law is a function that does nothing: its contract is the law.
ghost use Rattle.std.specs.Prelude.{◌≡◌, ◌≢◌, ◌↔◌, ℕ, ◌<◌, ◌≤◌, List, length, slice_get, Some, All, Contains};
ghost use Rattle.aig_parts.specs.declared.symbols.Kind.{Kind};
ghost use Rattle.aig_parts.specs.SymbolPlaces.{Key};
ghost use Rattle.aig_names.specs.declared.header.SignalCounts.{SignalCounts};
ghost use Rattle.aig_names.specs.Header.{header};
ghost use Rattle.aig_names.specs.HeaderRead.{read_names, NamesSignal};
ghost use Rattle.aig_names.specs.Names.{names_of};
ghost use Rattle.aig_names.specs.Paths.{path_of};

/// A reader of a header finds exactly the names of each entry, in the scope of its section and in its own scopes, each
/// with the code of that entry. The pieces of a name have visible bytes alone. None is empty, and none begins with `$`,
/// so that none is taken for a keyword (IEEE 1364, value change dump).
pub fn law_of_dump_header()
    ensures names { (symbols : List (Key × List ℕ)) (counts : SignalCounts) (path : List (List ℕ)) (code : List ℕ) →
        Contains (read_names (header symbols counts)) (path, code) ↔ NamesSignal symbols counts path code }
    ensures visible { (symbols : List (Key × List ℕ)) (kind : Kind) (p : ℕ) (name piece : List ℕ) →
        Contains (names_of symbols kind p) name → Contains (path_of name) piece →
        All (λ b. (33 ≤ b) × (b ≤ 126)) piece }
    ensures some_piece { (symbols : List (Key × List ℕ)) (kind : Kind) (p : ℕ) (name piece : List ℕ) →
        Contains (names_of symbols kind p) name → Contains (path_of name) piece → 0 < length piece }
    ensures no_keyword { (symbols : List (Key × List ℕ)) (kind : Kind) (p : ℕ) (name piece : List ℕ) →
        Contains (names_of symbols kind p) name → Contains (path_of name) piece → slice_get piece 0 ≢ Some 36 }
{}
