//! Why a token is refused.
ghost use Rattle.std.specs.Prelude.{◌≡◌};

use aig_base::Fault;

/// Why a token is refused, or why there is none. What reads tokens takes no memory, so no fault is for the want of it.
#[derive(Clone, Copy)]
pub enum TokenFault {
    /// The format does not want it here; `at` counts bytes from 0.
    Text { at: u64 },
    /// A number over its limit.
    Limit,
    /// A read failed.
    Io,
}

impl From<TokenFault> for Fault {
    ghost use Rattle.aig_format.specs.state.ReaderAnswers.{file_fault_of};

    ghost from_gives = { λ token fault. fault ≡ file_fault_of token };

    fn from(token: TokenFault) -> Fault {
        match token {
            TokenFault::Text { at } => Fault::Text { at },
            TokenFault::Limit => Fault::Limit,
            TokenFault::Io => Fault::Io,
        }
    }
}
