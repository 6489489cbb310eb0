//! Scripts: lines that drive a bench, answered one by one.
ghost use Rattle.std.specs.Prelude.{◌≡◌, ◌≢◌, ◌<◌, ◌≤◌, ◌↔◌, ◌++◌, ℕ, List, [], map, length, take, All, Some};
ghost use Rattle.std.specs.Prelude.{slice_get, OnOk, OnErr, IfOk, IfErr, IfSome};
ghost use Rattle.aig_bytes.specs.Bytes.{IsAtEnd, Writes};
ghost use Rattle.aig_bytes.specs.Flow.{flow};
ghost use Rattle.aig_script.specs.Lines.{whole, lines_from, rest_from};
ghost use Rattle.aig_script.specs.Ran.{Answered, StoppedAt, Reading, Ran, Failing};
ghost use Rattle.aig_script.specs.Replies.{WholeReply};
ghost use Rattle.aig_script.specs.ScriptLine.{KeepsScriptLine};

use crate::reply::{answer, answer_command};
use crate::script_line::{ScriptLine, begins_row};
use aig_base::{Io, Read, Write, line_length, write_all};
use aig_bench::Bench;
use aig_command::ScriptFault;
use aig_sim::Grid;
use std::alloc::Global;

/// How many bytes are searched for the end of a line at first, one by one and together.
const FIRST: usize = 6;

const NEAR: usize = 32;

/// Answers the line that ends with these bytes, and begins the next. A whole command is answered where it stands.
fn end_line<G: Grid, W: Write>(
    alloc: Global,
    bench: &mut Bench<G>,
    line: &mut ScriptLine,
    piece: &[u8],
    out: &mut W,
) -> Result<(), Io>
    requires width { line.old.row.width ≡ length bench.old.pair.circuit.inputs }
    requires kept { (text : List ℕ) × KeepsScriptLine text line.old }
    ensures width { line.new.row.width ≡ line.old.row.width }
    ensures empty { OnOk result (KeepsScriptLine [] line.new) }
    ensures reply { (reply : List ℕ) × ((text : List ℕ) → KeepsScriptLine text line.old →
        WholeReply bench.old.pair (text ++ piece.now) reply bench.new.pair)
        × Writes W.written W.failures out.old out.new reply result }
{
    if line.is_empty() && !begins_row(piece) {
        return answer_command(alloc, bench, piece, out);
    }
    line.extend(piece);
    answer(alloc, bench, line, out)?;
    line.clear();
    Ok(())
}

/// How many bytes come before the first LF, if that is among the first bytes. The shortest lines end there.
#[inline(always)]
fn short_length(bytes: &[u8]) -> Option<usize>
    ensures bound { IfSome result (λ size. size < length bytes.now) }
    ensures no_end { IfSome result (λ size. All (λ b. b ≢ 10) (take size bytes.now)) }
    ensures ended { IfSome result (λ size. slice_get bytes.now size ≡ Some 10) }
{
    // A line with fields is longer, unless it appends a frame.
    if bytes.len() < FIRST || (bytes[1] == b' ' && bytes[0] != b'+') {
        return None;
    }
    for size in 0..FIRST {
        let byte = bytes[size];
        if byte == b'\n' {
            return Some(size);
        }
    }
    None
}

/// How many bytes come before the first LF, or how many there are. Most lines are short, so few bytes are searched at
/// first.
fn piece_length(bytes: &[u8]) -> usize
    ensures bound { result ≤ length bytes.now }
    ensures no_end { All (λ b. b ≢ 10) (take result bytes.now) }
    ensures ended { result < length bytes.now → slice_get bytes.now result ≡ Some 10 }
{
    if let Some(size) = short_length(bytes) {
        return size;
    }
    if bytes.len() > NEAR {
        let near = line_length(&bytes[..NEAR]);
        if near < NEAR {
            return near;
        }
    }
    line_length(bytes)
}

/// Takes bytes up to the end of a line, which is then answered, or keeps all of them. Answers how many it took.
fn feed_line<G: Grid, W: Write>(
    alloc: Global,
    bench: &mut Bench<G>,
    line: &mut ScriptLine,
    bytes: &[u8],
    out: &mut W,
) -> Result<usize, Io>
    requires width { line.old.row.width ≡ length bench.old.pair.circuit.inputs }
    requires kept { (text : List ℕ) × KeepsScriptLine text line.old }
    ensures width { line.new.row.width ≡ length bench.new.pair.circuit.inputs }
    ensures bound { IfOk result (λ count. count ≤ length bytes.now) }
    ensures some { IfOk result (λ count. 0 < length bytes.now → 0 < count) }
    ensures rest { IfOk result (λ count. (text : List ℕ) → KeepsScriptLine text line.old →
        KeepsScriptLine (rest_from text (take count bytes.now)) line.new) }
    ensures ok { IfOk result (λ count. (text : List ℕ) → KeepsScriptLine text line.old →
        Answered (flow W.written W.failures out.old out.new) (map whole (lines_from text (take count bytes.now)))
        bench.old.pair bench.new.pair) }
    ensures err { OnErr result ((text : List ℕ) → KeepsScriptLine text line.old →
        StoppedAt (flow W.written W.failures out.old out.new) (map whole (lines_from text bytes.now))
        bench.old.pair bench.new.pair) }
{
    let length = piece_length(bytes);
    if length == bytes.len() {
        line.extend(bytes);
        return Ok(length);
    }
    end_line(alloc, bench, line, &bytes[..length], out)?;
    Ok(length + 1)
}

/// Answers each line that the chunk ends, and keeps what is after the last.
fn feed<G: Grid, W: Write>(
    alloc: Global,
    bench: &mut Bench<G>,
    line: &mut ScriptLine,
    chunk: &[u8],
    out: &mut W,
) -> Result<(), Io>
    requires width { line.old.row.width ≡ length bench.old.pair.circuit.inputs }
    requires kept { (text : List ℕ) × KeepsScriptLine text line.old }
    ensures width { line.new.row.width ≡ length bench.new.pair.circuit.inputs }
    ensures rest { OnOk result ((text : List ℕ) → KeepsScriptLine text line.old →
        KeepsScriptLine (rest_from text chunk.now) line.new) }
    ensures ok { OnOk result ((text : List ℕ) → KeepsScriptLine text line.old →
        Answered (flow W.written W.failures out.old out.new) (map whole (lines_from text chunk.now)) bench.old.pair
        bench.new.pair) }
    ensures err { OnErr result ((text : List ℕ) → KeepsScriptLine text line.old →
        StoppedAt (flow W.written W.failures out.old out.new) (map whole (lines_from text chunk.now)) bench.old.pair
        bench.new.pair) }
{
    let mut at = 0;
    while at < chunk.len() {
        at += feed_line(alloc, bench, line, &chunk[at..], out)?;
    }
    Ok(())
}

/// Reads to the end. Before it reads on, it answers each line that an LF ends, and hands the replies on.
fn answer_lines<G: Grid, R: Read, W: Write>(
    alloc: Global,
    bench: &mut Bench<G>,
    line: &mut ScriptLine,
    reader: &mut R,
    out: &mut W,
) -> Result<(), Io>
    requires empty { KeepsScriptLine [] line.old }
    requires width { line.old.row.width ≡ length bench.old.pair.circuit.inputs }
    ensures ok { OnOk result (Reading (flow R.left R.failures reader.old reader.new)
        (flow W.written W.failures out.old out.new)
        line.new bench.old.pair bench.new.pair) }
    ensures end { OnOk result (IsAtEnd (R.left reader.new)) }
    ensures err { OnErr result (Failing (flow R.left R.failures reader.old reader.new)
        (flow W.written W.failures out.old out.new)
        bench.old.pair bench.new.pair) }
{
    let mut buffer = [0u8; 4096];
    loop {
        out.flush()?;
        let size = reader.read(&mut buffer)?;
        if size == 0 {
            return Ok(());
        }
        feed(alloc, bench, line, &buffer[..size], out)?;
    }
}

/// Answers all lines; a last piece with bytes and no LF is bad.
fn answer_all<G: Grid, R: Read, W: Write>(
    alloc: Global,
    bench: &mut Bench<G>,
    line: &mut ScriptLine,
    reader: &mut R,
    out: &mut W,
) -> Result<(), Io>
    requires empty { KeepsScriptLine [] line.old }
    requires width { line.old.row.width ≡ length bench.old.pair.circuit.inputs }
    ensures ok { OnOk result (Ran (flow R.left R.failures reader.old reader.new)
        (flow W.written W.failures out.old out.new)
        bench.old.pair bench.new.pair) }
    ensures err { OnErr result (Failing (flow R.left R.failures reader.old reader.new)
        (flow W.written W.failures out.old out.new)
        bench.old.pair bench.new.pair) }
{
    answer_lines(alloc, bench, line, reader, out)?;
    if line.is_empty() {
        return Ok(());
    }
    write_all(out, b"bad\n")?;
    Ok(out.flush()?)
}

/// Reads a script to its end and answers its lines one by one, each before it reads on. It flushes before each read and
/// after the last reply: a program that waits for the replies to its lines has them. A line of any length is handled
/// without keeping it; a last piece with bytes and no LF is bad. It takes memory for a row before the first read, and
/// after that none but what `w`, `+`, `g` and `u` take for the bench.
pub fn run_script<G: Grid, R: Read, W: Write>(
    alloc: Global,
    bench: &mut Bench<G>,
    reader: &mut R,
    out: &mut W,
) -> Result<(), ScriptFault>
    ensures replies { OnOk result (Ran (flow R.left R.failures reader.old reader.new)
        (flow W.written W.failures out.old out.new)
        bench.old.pair bench.new.pair) }
    ensures io { IfErr result (λ fault. fault ≡ ScriptFault.Io →
        Failing (flow R.left R.failures reader.old reader.new)
        (flow W.written W.failures out.old out.new) bench.old.pair
        bench.new.pair) }
    ensures memory { IfErr result (λ fault. fault ≡ ScriptFault.Memory →
        (reader.new ≡ reader.old) × (out.new ≡ out.old) × (bench.new ≡ bench.old)) }
{
    let Ok(mut line) = ScriptLine::new(alloc, bench.width() as usize) else {
        return Err(ScriptFault::Memory);
    };
    match answer_all(alloc, bench, &mut line, reader, out) {
        Ok(()) => Ok(()),
        Err(Io) => Err(ScriptFault::Io),
    }
}
