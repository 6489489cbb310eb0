//! Bytes in and out: when a block has room, and writers that take few bytes, hold them or fail.
use crate::calls::fakes::{Late, Marked, OneByte, Plain, Short, Stuck};
use crate::calls::parts::writes;
use aig_bytes::{Block, Buffered, Failed, Io, MemWriter, Std, Write, write_all, write_number};
use std::alloc::Global;

// A block in which so many bytes wait.
fn filled(count: usize) -> Block {
    let mut block = Block::new();
    block.append(&[b'x'; 40_000][..count.min(40_000)]);
    block
}

// How many of so many bytes a block takes after those that wait.
fn taken(waiting: usize, count: usize) -> usize {
    filled(waiting).append(&[b'y'; 40_000][..count.min(40_000)])
}

fn takes_line(waiting: usize) -> bool {
    filled(waiting).push_line(10_000_000, 12_345_678, 99_999_999)
}

fn takes_symbol(waiting: usize, number: u32, name: &[u8]) -> bool {
    filled(waiting).push_symbol(b'l', number, name)
}

fn takes_firsts(waiting: usize) -> bool {
    filled(waiting).push_firsts((*b"abcd", 1), (*b"yyyy", 0))
}

/// A block holds 32,768 bytes, and takes a number, a line or a symbol where there is room for the longest one. A symbol
/// whose number has more than eight digits it never takes.
pub fn has_room() -> bool {
    taken(0, 40_000) == 32_768
        && taken(15, 40_000) == 32_753
        && taken(32_768, 1) == 0
        && filled(32_767).push(b'y')
        && !filled(32_768).push(b'y')
        && filled(32_757).push_field(7, b'y')
        && !filled(32_758).push_field(7, b'y')
        && takes_line(32_741)
        && !takes_line(32_742)
        && takes_firsts(32_760)
        && !takes_firsts(32_761)
        && takes_symbol(32_746, 1, b"12345678901")
        && !takes_symbol(32_746, 1, b"123456789012")
        && takes_symbol(0, 99_999_999, b"")
        && !takes_symbol(0, 100_000_000, b"b")
        && takes_symbol(0, 7, &[b'x'; 32_742])
        && !takes_symbol(16, 7, &[b'x'; 32_742])
}

static TEXTS: [(u32, &[u8]); 4] = [
    (0, b"text 0"),
    (9, b"text 9"),
    (10, b"text 10"),
    (4_294_967_295, b"text 4294967295"),
];

// Whether a prefix is written at once, and the call fails where something is missing.
fn begins(alloc: Global, room: usize, number: u32, text: &[u8]) -> bool {
    writes(alloc, room, text.get(..room).unwrap_or(text), |out| {
        let done = write_all(out, b"text ").is_ok() && write_number(out, number).is_ok();
        done == (room >= text.len())
    })
}

// And so byte by byte.
fn begins_slowly(alloc: Global, room: usize, text: &[u8]) -> bool {
    match MemWriter::new(alloc, room) {
        Ok(inner) => {
            let mut slow = OneByte { inner };
            let done = write_all(&mut slow, text).is_ok();
            (done == (room >= text.len()))
                & (slow.inner.bytes() == text.get(..room).unwrap_or(text))
        }
        Err(_) => false,
    }
}

/// With each room what is written is a prefix, and the call fails where something is missing.
pub fn writes_a_prefix(alloc: Global) -> bool {
    let mut right = true;
    for &(number, text) in &TEXTS {
        for room in 0..17usize {
            right &= begins(alloc, room, number, text) & begins_slowly(alloc, room, text);
        }
    }
    right
}

fn is_stuck() -> bool {
    let mut out = Std::new(Stuck);
    out.write(b"") == Ok(0)
        && out.write(b"a") == Err(Failed)
        && write_all(&mut out, b"a") == Err(Io)
}

fn takes_two(short: &mut Short) -> bool {
    let mut out = Std::new(short);
    out.write(b"abc") == Ok(2)
        && write_all(&mut out, b"cde") == Ok(())
        && out.flush() == Err(Failed)
}

/// A writer of std that takes no byte fails. One that takes few gets them all in turn, and its flush that fails is seen.
pub fn writes_to_std(alloc: Global) -> bool {
    let mut short = Short {
        bytes: Vec::new(alloc),
    };
    is_stuck() & takes_two(&mut short) & (short.bytes.as_slice() == b"abcde".as_slice())
}

// Writes and flushes twice, and writes once more.
fn flushes_twice<W: Write>(out: &mut W) -> bool {
    write_all(out, b"ab").is_ok()
        && write_all(out, b"c").is_ok()
        && out.flush().is_ok()
        && write_all(out, b"d").is_ok()
        && out.flush().is_ok()
        && write_all(out, b"e").is_ok()
}

/// A flush of a buffer forwards what is held, and then flushes the writer below.
pub fn flushes_through(alloc: Global) -> bool {
    let mut below = Marked {
        bytes: Vec::new(alloc),
    };
    flushes_twice(&mut Buffered::new(Std::new(&mut below)))
        & (below.bytes.as_slice() == b"abc|d|".as_slice())
}

// Whether a writer takes three bytes, in two pieces, and is flushed after them.
fn flushes_three<W: Write>(out: &mut W) -> bool {
    write_all(out, b"ab").is_ok() && write_all(out, b"c").is_ok() && out.flush().is_ok()
}

fn has_three(below: &Late) -> bool {
    below.held.is_empty() & (below.bytes.as_slice() == b"abc".as_slice())
}

// A writer that holds all until it is flushed itself.
fn late(alloc: Global) -> Late {
    Late {
        held: Vec::new(alloc),
        bytes: Vec::new(alloc),
    }
}

/// A buffer flushes the writer below after it passed on all bytes, so that none is held anywhere. So do two buffers.
pub fn leaves_no_byte(alloc: Global) -> bool {
    let mut below = late(alloc);
    let mut below_two = late(alloc);
    flushes_three(&mut Buffered::new(Std::new(&mut below)))
        & has_three(&below)
        & flushes_three(&mut Buffered::new(Buffered::new(Std::new(&mut below_two))))
        & has_three(&below_two)
}

// Whether a buffer over a writer with room for three bytes takes so many, and refuses each call once that one failed.
fn breaks<W: Write>(out: &mut W) -> bool {
    write_all(out, b"abc") == Ok(())
        && out.flush() == Ok(())
        && write_all(out, b"d") == Ok(())
        && out.flush() == Err(Failed)
        && out.write(b"") == Err(Failed)
        && out.flush() == Err(Failed)
}

/// Once the writer below failed, a buffer refuses each call.
pub fn stays_broken(alloc: Global) -> bool {
    match MemWriter::new(alloc, 3) {
        Ok(inner) => breaks(&mut Buffered::new(inner)),
        Err(_) => false,
    }
}

// A writer that holds nothing back, with room for three bytes.
fn plain(alloc: Global) -> Option<Plain> {
    match MemWriter::new(alloc, 3) {
        Ok(inner) => Some(Plain { inner }),
        Err(_) => None,
    }
}

fn takes_a_prefix(plain: &mut Plain) -> bool {
    write_all(plain, b"ab") == Ok(())
        && plain.flush() == Ok(())
        && write_all(plain, b"cd") == Err(Io)
        && plain.inner.bytes() == b"abc".as_slice()
}

/// A writer that holds nothing back, and whose flush does nothing, serves `write_all` and a buffer.
pub fn holds_nothing(alloc: Global) -> bool {
    match (plain(alloc), plain(alloc)) {
        (Some(mut first), Some(second)) => {
            takes_a_prefix(&mut first) & breaks(&mut Buffered::new(second))
        }
        _ => false,
    }
}
