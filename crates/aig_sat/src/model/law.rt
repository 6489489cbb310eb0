//! What the text of a model cannot say twice.
ghost use Rattle.std.specs.Prelude.{◌≡◌, ◌≤◌, ℕ, List};
ghost use Rattle.aig_parts.specs.declared.ternary.Tern.{Tern};
ghost use Rattle.aig_sat.specs.model.ModelText.{HasStatus, IsModelOf, SaysUnknown, SaysUnsatisfiable, SpellsModel};

/// A text names the literals of at most one model, so it gives each variable at most one value. A text that is a model
/// does not also say, where the status line stands, that there is none or that the solver does not know.
pub fn law_of_model_text()
    ensures literals { (variables : ℕ) (text literals literals' : List ℕ) → variables ≤ 2147483648 →
        SpellsModel variables text literals → SpellsModel variables text literals' → literals ≡ literals' }
    ensures values { (variables : ℕ) (text : List ℕ) (values values' : List Tern) → variables ≤ 2147483648 →
        IsModelOf variables text values → IsModelOf variables text values' → values ≡ values' }
    ensures unsatisfiable { (variables : ℕ) (text literals : List ℕ) → variables ≤ 2147483648 →
        SpellsModel variables text literals → HasStatus SaysUnsatisfiable variables text → ⊥ }
    ensures unknown { (variables : ℕ) (text literals : List ℕ) → variables ≤ 2147483648 →
        SpellsModel variables text literals → HasStatus SaysUnknown variables text → ⊥ }
{}
