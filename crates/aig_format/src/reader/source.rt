//! Where bytes come from.
ghost use Rattle.std.specs.Prelude.{◌≡◌, ℕ, ◌+◌, ◌<◌, ◌≤◌, List, ◌++◌, length, drop, IfOk, IfSome, IfNone};
ghost use Rattle.aig_format.specs.state.Reading.{peek_at, next_at};
ghost use Rattle.aig_format.specs.state.ReaderAnswers.{Gives, KeepsReader, of_token};

use crate::reader::token_fault::TokenFault;

/// Bytes, one after the other.
pub(crate) trait Source {
    /// The value reports its bytes.
    ghost reports: { Self → Type 0 };

    /// The bytes left, where the value reports them.
    ghost left: { Self → List ℕ };

    /// Which reader it reads from: the name of the borrow.
    ghost reader: { Self → ℕ };

    /// How many reads have failed.
    ghost failures: { Self → ℕ };

    /// A number that each call which takes a byte lowers.
    ghost more: { Self → ℕ };

    /// The buffered bytes, which come next.
    ghost buffered: { Self → List ℕ };

    /// The bytes after these, where the value reports them.
    ghost unread: { Self → List ℕ };

    /// The end was met and is remembered: nothing is read on.
    ghost ended: { Self → Type 0 };

    /// How many bytes were taken; `u64`'s greatest value where there were more.
    fn at(&self) -> u64;

    /// The buffered bytes. There may be none though bytes are left; after a `peek` at a byte there are some.
    fn front(&self) -> &[u8]
        ensures buffered { result.now ≡ buffered self.now }
        ensures left { left self.now ≡ buffered self.now ++ unread self.now };

    /// Takes so many of the buffered bytes.
    fn skip(&mut self, count: usize)
        requires { count ≤ length (buffered self.old) }
        ensures left { left self.new ≡ drop count (left self.old) }
        ensures reported { reports self.old → reports self.new }
        ensures reader { reader self.new ≡ reader self.old }
        ensures failures { failures self.new ≡ failures self.old }
        ensures more { more self.new + count ≤ more self.old }
        ensures ended { ended self.old → ended self.new };

    /// The next byte, which stays.
    fn peek(&mut self) -> Result<Option<u8>, TokenFault>
        ensures ended { ended self.old → self.new ≡ self.old }
        ensures remembered { IfOk result (λ front. IfNone front (ended self.new)) }
        ensures bytes { reports self.old → Gives (λ x. x) (of_token result) (left self.new) (peek_at (left self.old)) }
        ensures keeps { KeepsReader reports reader failures more self.old self.new (of_token result) }
        ensures buffered { IfOk result (λ front. IfSome front (λ _. 0 < length (buffered self.new))) };

    /// The next byte, which is taken.
    fn next(&mut self) -> Result<Option<u8>, TokenFault>
        ensures ended { ended self.old → self.new ≡ self.old }
        ensures remembered { IfOk result (λ taken. IfNone taken (ended self.new)) }
        ensures bytes { reports self.old → Gives (λ x. x) (of_token result) (left self.new) (next_at (left self.old)) }
        ensures keeps { KeepsReader reports reader failures more self.old self.new (of_token result) }
        ensures lowers { IfOk result (λ taken. IfSome taken (λ _. more self.new < more self.old)) };
}
