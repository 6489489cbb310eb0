//! Laws of the two formats, each as the contract of a function that does nothing.
ghost use Rattle.std.specs.Prelude.{◌≡◌, ℕ, ◌+◌, ◌/◌, ◌%◌, ◌^◌, ◌<◌, ◌≤◌, List, [], ◌∷◌, ◌++◌, length};
ghost use Rattle.aig_parts.specs.declared.raw.Raw.{Raw};
ghost use Rattle.aig_base.specs.Circuit.{IsCircuit};
ghost use Rattle.aig_base.specs.Renumbered.{IsBinaryReady};
ghost use Rattle.aig_format.specs.Delta.{delta};
ghost use Rattle.aig_format.specs.Spelling.{short_ascii, short_binary};
ghost use Rattle.aig_format.specs.declared.reader.header.Format.TheVariants.{Ascii, Binary};
ghost use Rattle.aig_format.specs.Formats.{IsInFormat};
ghost use Rattle.aig_format.specs.Spells.{IsTextOf, Spells};

/// No bytes spell two different parts, in one format or in both.
pub fn law_of_one_reading()
    ensures { (bytes : List ℕ) (p q : Raw) → Spells bytes p → Spells bytes q → p ≡ q }
{}

/// The spelling of a number in groups of seven bits (AIGER 1.0, binary format): a number below 128 is one byte, any
/// greater number a byte with the high bit set and then the spelling of a 128th of it. No shorter spelling has room for
/// it, and where it ends can be seen.
pub fn law_of_deltas()
    ensures small { (n : ℕ) → n < 128 → delta n ≡ n ∷ [] }
    ensures large { (n : ℕ) → 128 ≤ n → n < 2 ^ 28 → delta n ≡ (128 + n % 128) ∷ delta (n / 128) }
    ensures shortest { (n k : ℕ) → n < 128 ^ (k + 1) → length (delta n) ≤ k + 1 }
    ensures ends { (m n : ℕ) (more others : List ℕ) → m < 2 ^ 28 → n < 2 ^ 28 → delta m ++ more ≡ delta n ++ others
        → (m ≡ n) × (more ≡ others) }
{}

/// What the writers write spells the circuit, so that it reads back as the same circuit. A text of a circuit spells it:
/// its numbers are small enough, and there are enough variables.
pub fn law_of_round_trip()
    ensures ascii { (raw : Raw) → IsCircuit raw → IsInFormat Ascii (short_ascii raw) raw }
    ensures binary { (raw : Raw) → IsCircuit raw → IsBinaryReady raw → IsInFormat Binary (short_binary raw) raw }
    ensures text { (bytes : List ℕ) (raw : Raw) → IsCircuit raw → IsTextOf bytes raw → Spells bytes raw }
{}
