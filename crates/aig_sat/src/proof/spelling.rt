//! How a proof is spelled.

/// How the steps of a proof are spelled.
#[derive(Clone, Copy, PartialEq, Eq)]
pub enum Spelling {
    Text,
    Binary,
}

/// How the proof that begins with these bytes is spelled, where the first one is `d`. In a text a blank follows, and
/// there is no zero byte, with which each step of the binary form ends.
pub(crate) fn spelling_of(bytes: &[u8]) -> Spelling {
    match bytes {
        [_, b' ' | b'\t', ..] => {
            if bytes.contains(&0) {
                Spelling::Binary
            } else {
                Spelling::Text
            }
        }
        [_, _, ..] => Spelling::Binary,
        _ => Spelling::Text,
    }
}
