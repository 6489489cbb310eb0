//! Cases of standard input: a line of three numbers, and then bytes. Some of the numbers say how many.
use std::io::{self, Read};
use std::str;

/// All bytes of standard input.
pub(crate) fn all(rt: HostRuntime) -> io::Result<Vec<u8>> {
    let mut bytes = Vec::new(rt.alloc());
    rt.stdin().read_to_end(&mut bytes)?;
    Ok(bytes)
}

/// The numbers of the first line, and the bytes after it.
pub(crate) fn three_numbers(bytes: &[u8]) -> Option<([u32; 3], &[u8])> {
    let end = bytes.iter().position(|byte| *byte == b'\n')?;
    let mut words = str::from_utf8(bytes.get(..end)?).ok()?.split(' ');
    let first = words.next()?.parse::<u32>().ok()?;
    let second = words.next()?.parse::<u32>().ok()?;
    let third = words.next()?.parse::<u32>().ok()?;
    Some(([first, second, third], bytes.get(end..)?.get(1..)?))
}

/// The first bytes, so many, and those after them.
pub(crate) fn split(bytes: &[u8], size: u32) -> Option<(&[u8], &[u8])> {
    Some((bytes.get(..size as usize)?, bytes.get(size as usize..)?))
}
