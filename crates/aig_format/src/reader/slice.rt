//! The bytes of a slice.
ghost use Rattle.std.specs.Prelude.{◌≡◌, ◌≤◌, [], length};

use crate::reader::source::Source;
use crate::reader::token_fault::TokenFault;

/// The bytes of a slice, which never fails.
#[derive(Drop)]
pub(crate) struct Slice<'a> {
    rest: &'a [u8],
    size: usize,
    ghost within: { length rest.now ≤ size },
}

impl<'a> Slice<'a> {
    pub(crate) fn new(bytes: &'a [u8]) -> Slice<'a>
        ensures { result.rest.now ≡ bytes.now }
    {
        Slice {
            rest: bytes,
            size: bytes.len(),
        }
    }
}

impl<'a> Source for Slice<'a> {
    ghost reports = { λ _. Unit {0} };

    ghost left = { λ s. s.rest.now };

    ghost reader = { λ _. 0 };

    ghost failures = { λ _. 0 };

    ghost more = { λ s. length s.rest.now };

    ghost buffered = { λ s. s.rest.now };

    ghost unread = { λ _. [] };

    ghost ended = { λ s. s.rest.now ≡ [] };

    #[inline]
    fn at(&self) -> u64 {
        (self.size - self.rest.len()) as u64
    }

    #[inline]
    fn front(&self) -> &[u8] {
        self.rest
    }

    #[inline]
    fn skip(&mut self, count: usize) {
        self.rest = &self.rest[count..];
    }

    #[inline]
    fn peek(&mut self) -> Result<Option<u8>, TokenFault> {
        Ok(self.rest.first().copied())
    }

    #[inline]
    fn next(&mut self) -> Result<Option<u8>, TokenFault> {
        match self.rest {
            [] => Ok(None),
            [first, rest @ ..] => {
                let first = *first;
                self.rest = rest;
                Ok(Some(first))
            }
        }
    }
}
