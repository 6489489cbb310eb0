//! Places in the text of a model.
ghost use Rattle.std.specs.Prelude.{◌≡◌, ◌≢◌, ◌↔◌, ◌+◌, ◌-◌, ◌<◌, ◌≤◌, ◌∷◌, ◌++◌, ℕ, [], length, take, drop, All, Some};
ghost use Rattle.std.specs.Prelude.{IsTrue, slice_get};
ghost use Rattle.aig_sat.specs.model.ModelText.{BeginsLine, IsSpace};

/// A place in a text, which may be its end.
#[derive(Clone, Copy)]
pub(crate) struct TextPlace<'a> {
    pub(crate) text: &'a [u8],
    pub(crate) at: usize,
    ghost inside: { at ≤ length text.now },
}

fn is_space(byte: u8) -> bool
    ensures { IsTrue result ↔ IsSpace byte }
{
    byte == b' ' || byte == b'\t' || byte == b'\n'
}

impl TextPlace<'_> {
    /// The byte there, or the LF that ends the last line.
    pub(crate) fn byte(self) -> u8
        ensures is { slice_get (self.entry.text.now ++ 10 ∷ []) self.entry.at ≡ Some result }
        ensures inside { result ≢ 10 → self.entry.at < length self.entry.text.now }
    {
        if self.at < self.text.len() {
            self.text[self.at]
        } else {
            b'\n'
        }
    }

    /// Whether a line begins there.
    pub(crate) fn begins_line(self) -> bool
        ensures { IsTrue result ↔ BeginsLine (take self.entry.at (self.entry.text.now ++ 10 ∷ [])) }
    {
        self.at == 0 || self.text[self.at - 1] == b'\n'
    }

    /// Where the first LF from there on is, or the length.
    pub(crate) fn line_end(self) -> usize
        ensures bounds { (self.entry.at ≤ result) × (result ≤ length self.entry.text.now) }
        ensures ended { slice_get (self.entry.text.now ++ 10 ∷ []) result ≡ Some 10 }
        ensures no_end { All (λ b. b ≢ 10) (take (result - self.entry.at) (drop self.entry.at self.entry.text.now)) }
    {
        let mut end = self.at;
        while end < self.text.len() && self.text[end] != b'\n' {
            end += 1;
        }
        end
    }

    /// Where the first space from there on is, or the length.
    pub(crate) fn word_end(self) -> usize
        ensures bounds { (self.entry.at ≤ result) × (result ≤ length self.entry.text.now) }
        ensures ended { (b : ℕ) → slice_get (self.entry.text.now ++ 10 ∷ []) result ≡ Some b → IsSpace b }
        ensures no_space { All (λ b. IsSpace b → ⊥)
            (take (result - self.entry.at) (drop self.entry.at self.entry.text.now)) }
    {
        let mut end = self.at;
        while end < self.text.len() && !is_space(self.text[end]) {
            end += 1;
        }
        end
    }
}
