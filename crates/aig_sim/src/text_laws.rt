//! What holds of all texts of stimuli, witnesses and dumps. Each law is a function that does nothing: its contract is
//! the law.
ghost use Rattle.std.specs.Prelude.{◌≡◌, ◌↔◌, ℕ, ◌<◌, ◌≤◌, ◌^◌, List, ◌++◌, length, slice_get, Some, All, Contains};
ghost use Rattle.aig_parts.specs.declared.ternary.Tern.{Tern};
ghost use Rattle.aig_sim.specs.declared.stimulus.fault.StimFault.{StimFault};
ghost use Rattle.aig_parts.specs.declared.raw.Raw.{Raw};
ghost use Rattle.aig_parts.specs.Limits.{frame_limit};
ghost use Rattle.aig_base.specs.Sound.{IsSound};
ghost use Rattle.aig_sim.specs.Dump.{AreFrames, IsDump};
ghost use Rattle.aig_names.specs.HeaderRead.{read_names, NamesSignal};
ghost use Rattle.aig_sim.specs.DumpHeader.{signal_counts, header};
ghost use Rattle.aig_names.specs.Names.{identifier_code};
ghost use Rattle.aig_sim.specs.DumpRead.{lines, ShowsFrames};
ghost use Rattle.aig_sim.specs.StimulusText.{SpellsRows, HasFaultyLine};
ghost use Rattle.aig_sim.specs.WitnessText.{Witness, SpellsWitness};

/// A text spells at most one list of rows of a width. A text that spells rows within the limit has no faulty line, and
/// after at most 65,536 rows a text has at most one first faulty line, with one fault.
pub fn law_of_stimulus_text()
    ensures rows { (width : ℕ) (text : List ℕ) (rows rows' : List (List Tern)) →
        SpellsRows width text rows → SpellsRows width text rows' → rows ≡ rows' }
    ensures no_fault { (width : ℕ) (text : List ℕ) (rows rows' : List (List Tern)) (fault : StimFault) →
        length rows ≤ frame_limit → SpellsRows width text rows → HasFaultyLine width text rows' fault → ⊥ }
    ensures fault { (width : ℕ) (text : List ℕ) (rows rows' : List (List Tern)) (fault fault' : StimFault) →
        length rows ≤ frame_limit → length rows' ≤ frame_limit →
        HasFaultyLine width text rows fault → HasFaultyLine width text rows' fault' →
        (rows ≡ rows') × (fault ≡ fault') }
{}

/// A text spells at most one witness of a circuit.
pub fn law_of_witness_text()
    ensures one { (raw : Raw) (text : List ℕ) (w v : Witness) →
        SpellsWitness raw text w → SpellsWitness raw text v → w ≡ v }
{}

/// A viewer of a dump sees the run: in sound parts, the last value of a signal's code at a time at most t is the
/// signal's value at frame t. That also holds where the dump breaks off after one of its frames. Two signals have two
/// codes, which have visible bytes alone. A reader of the header finds exactly the names of each entry, in the scope of
/// its section and in its own scopes, each with the code of that entry. Each line of the header begins with `$`, so
/// that none is taken for a time or a value (IEEE 1364, value change dump). `law_of_dump_header` says more of names.
pub fn law_of_dump()
    ensures shows { (raw : Raw) (start : List Tern) (rows : List (List Tern)) (text : List ℕ) →
        IsSound raw → length rows < 2 ^ 64 → IsDump raw start rows text →
        ShowsFrames raw start rows (length rows) text }
    ensures begins { (raw : Raw) (start : List Tern) (rows : List (List Tern)) (k : ℕ) (frames : List ℕ) →
        IsSound raw → k ≤ 2 ^ 64 → AreFrames raw start rows k frames →
        ShowsFrames raw start rows k (header raw ++ frames) }
    ensures one_code { (m n : ℕ) → identifier_code m ≡ identifier_code n → m ≡ n }
    ensures code { (n : ℕ) → All (λ b. (33 ≤ b) × (b ≤ 126)) (identifier_code n) }
    ensures names { (raw : Raw) (path : List (List ℕ)) (code : List ℕ) →
        Contains (read_names (header raw)) (path, code) ↔ NamesSignal raw.symbols (signal_counts raw) path code }
    ensures directives { (raw : Raw) → All (λ line. slice_get line 0 ≡ Some 36) (lines (header raw)) }
{}
