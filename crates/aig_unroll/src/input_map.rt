//! The text that says what the inputs of an unrolled circuit are. Where the standard is silent, it is our own choice.
ghost use Rattle.std.specs.Prelude.{◌≡◌, ◌+◌, ◌*◌, ◌≤◌, ◌<◌, ◌^◌, ◌++◌, decimal, false, slice_index_or};
ghost use Rattle.std.specs.Prelude.{IfOk, option_copied};
ghost use Rattle.aig_bytes.specs.Bytes.{Writes};
ghost use Rattle.aig_parts.specs.Formed.{limit};
ghost use Rattle.aig_parts.specs.Literal.{variable};
ghost use Rattle.aig_unroll.specs.InputMap as inputs;
ghost use Rattle.aig_unroll.specs.InputMap.{frame_origins, has_mark, is_input, is_latch, map_field, map_text};
ghost use Rattle.aig_unroll.specs.InputMap.{origin_line, origin_lines, read_origins, start_origins, symbol_name_at};
ghost use Rattle.aig_unroll.specs.Unrolled as parts;
ghost use Rattle.aig_unroll.specs.state.MapLines.{after_kept, is_kept_start, kept_lines, line_if, number_after};

use crate::unrolling::plan::is_uninitialised;
use aig_base::{Circuit, Io, Kind, Latch, Lit, Write, write_all};
use itoa::Buffer;

// Writes a number's decimal digits.
fn write_digits<W: Write>(out: &mut W, number: u64) -> Result<(), Io>
    ensures { Writes W.written W.failures out.old out.new (decimal number) result }
{
    let mut buffer = Buffer::new();
    write_all(out, buffer.format(number).as_bytes())
}

// Writes a number and a space.
fn write_field<W: Write>(out: &mut W, number: u64) -> Result<(), Io>
    ensures { Writes W.written W.failures out.old out.new (map_field number) result }
{
    write_digits(out, number)?;
    write_all(out, b" ")
}

// Writes the symbol of an input, if it has one.
fn write_input_symbol<W: Write>(out: &mut W, circuit: &Circuit, input: u32) -> Result<(), Io>
    ensures { Writes W.written W.failures out.old out.new (symbol_name_at is_input circuit.now.symbols input) result }
{
    circuit.facts();
    match circuit.symbols().get(Kind::Input, input) {
        Some(symbol) => write_all(out, symbol),
        None => Ok(()),
    }
}

// Writes the symbol of a latch, if it has one.
fn write_latch_symbol<W: Write>(out: &mut W, circuit: &Circuit, latch: u32) -> Result<(), Io>
    ensures { Writes W.written W.failures out.old out.new (symbol_name_at is_latch circuit.now.symbols latch) result }
{
    circuit.facts();
    match circuit.symbols().get(Kind::Latch, latch) {
        Some(symbol) => write_all(out, symbol),
        None => Ok(()),
    }
}

// Writes the line of an input at a frame.
fn write_input<W: Write>(
    out: &mut W,
    circuit: &Circuit,
    position: u64,
    frame: u32,
    input: u32,
) -> Result<(), Io>
    ensures { Writes W.written W.failures out.old out.new
        (origin_line circuit.now position (inputs.input frame input)) result }
{
    write_all(out, b"i ")?;
    write_field(out, position)?;
    write_field(out, frame as u64)?;
    write_field(out, input as u64)?;
    write_input_symbol(out, circuit, input)?;
    write_all(out, b"\n")
}

// Writes the line of the start of a latch.
fn write_start<W: Write>(
    out: &mut W,
    circuit: &Circuit,
    position: u64,
    latch: u32,
) -> Result<(), Io>
    ensures { Writes W.written W.failures out.old out.new
        (origin_line circuit.now position (inputs.start latch)) result }
{
    write_all(out, b"l ")?;
    write_field(out, position)?;
    write_field(out, latch as u64)?;
    write_latch_symbol(out, circuit, latch)?;
    write_all(out, b"\n")
}

// Whether a variable has a mark.
fn is_marked(marks: &[bool], variable: u32) -> bool
    ensures { result ≡ slice_index_or marks.now variable false }
{
    match marks.get(variable as usize) {
        Some(mark) => *mark,
        None => false,
    }
}

// What all lines of a map share: the circuit, the text that each line begins with, and which variables have a line.
#[derive(Clone, Copy, Drop)]
struct MapWriter<'a> {
    prefix: &'a [u8],
    circuit: &'a Circuit,
    marks: Option<&'a [bool]>,
}

impl<'a> MapWriter<'a> {
    // Whether the variable of a literal has a mark.
    fn has_mark(&self, literal: Lit) -> bool
        ensures { result ≡ has_mark (option_copied self.now.marks) (variable literal) }
    {
        match self.marks {
            Some(marks) => is_marked(marks, literal.var()),
            None => true,
        }
    }

    // Writes the line of an input at a frame after the prefix.
    fn write_input_line<W: Write>(
        &self,
        out: &mut W,
        position: u64,
        frame: u32,
        input: u32,
    ) -> Result<(), Io>
        ensures { Writes W.written W.failures out.old out.new
            (self.now.prefix.now ++ origin_line self.now.circuit.now position (inputs.input frame input)) result }
    {
        write_all(out, self.prefix)?;
        write_input(out, self.circuit, position, frame, input)
    }

    // Writes the line of the start of a latch after the prefix.
    fn write_start_line<W: Write>(&self, out: &mut W, position: u64, latch: u32) -> Result<(), Io>
        ensures { Writes W.written W.failures out.old out.new
            (self.now.prefix.now ++ origin_line self.now.circuit.now position (inputs.start latch)) result }
    {
        write_all(out, self.prefix)?;
        write_start(out, self.circuit, position, latch)
    }

    // Writes the line of an input at a frame with this number if its variable has a mark, and returns the number after
    // it.
    fn write_input_of<W: Write>(
        &self,
        out: &mut W,
        position: u64,
        frame: u32,
        place: u32,
        literal: Lit,
    ) -> Result<u64, Io>
        requires { position < 2 ^ 63 }
        ensures written { Writes W.written W.failures out.old out.new
            (line_if (has_mark (option_copied self.now.marks) (variable literal))
            self.now.prefix.now self.now.circuit.now position (inputs.input frame place)) result }
        ensures next { IfOk result (λ next.
            next ≡ number_after (has_mark (option_copied self.now.marks) (variable literal)) position) }
    {
        if self.has_mark(literal) {
            self.write_input_line(out, position, frame, place)?;
            Ok(position + 1)
        } else {
            Ok(position)
        }
    }

    // Writes the lines of the inputs at a frame, the first of which has this number, and returns the number after them.
    fn write_frame<W: Write>(&self, out: &mut W, first: u64, frame: u32) -> Result<u64, Io>
        requires { first ≤ 2 ^ 33 * limit }
        ensures written { Writes W.written W.failures out.old out.new
            (kept_lines (option_copied self.now.marks) self.now.prefix.now self.now.circuit.now
            first (frame_origins self.now.circuit.now frame)) result }
        ensures next { IfOk result (λ next. next ≡ after_kept (option_copied self.now.marks) self.now.circuit.now
            first (frame_origins self.now.circuit.now frame)) }
        ensures few { IfOk result (λ next. next ≤ first + limit) }
    {
        self.circuit.facts();
        let mut position = first;
        for (place, literal) in self.circuit.inputs().iter().enumerate() {
            position = self.write_input_of(out, position, frame, place as u32, *literal)?;
        }
        Ok(position)
    }

    // Writes the lines of the inputs at all frames, the first of which has this number, and returns the number after
    // them.
    fn write_frames<W: Write>(&self, out: &mut W, first: u32, frames: u32) -> Result<u64, Io>
        ensures written { Writes W.written W.failures out.old out.new
            (kept_lines (option_copied self.now.marks) self.now.prefix.now self.now.circuit.now
            first (parts.frames (frame_origins self.now.circuit.now) frames)) result }
        ensures next { IfOk result (λ next. next ≡ after_kept (option_copied self.now.marks) self.now.circuit.now
            first (parts.frames (frame_origins self.now.circuit.now) frames)) }
        ensures few { IfOk result (λ next. next ≤ 2 ^ 33 * limit) }
    {
        let mut position = first as u64;
        for frame in 0..frames {
            position = self.write_frame(out, position, frame)?;
        }
        Ok(position)
    }

    // Writes the line of a latch that has this number if it is uninitialised and its variable has a mark, and returns
    // the number after it.
    fn write_start_of<W: Write>(
        &self,
        out: &mut W,
        position: u64,
        place: u32,
        latch: &Latch,
    ) -> Result<u64, Io>
        requires { position < 2 ^ 63 }
        ensures written { Writes W.written W.failures out.old out.new
            (line_if (is_kept_start (option_copied self.now.marks) latch.now)
            self.now.prefix.now self.now.circuit.now position (inputs.start place)) result }
        ensures next { IfOk result (λ next.
            next ≡ number_after (is_kept_start (option_copied self.now.marks) latch.now) position) }
    {
        if is_uninitialised(latch) && self.has_mark(latch.lit) {
            self.write_start_line(out, position, place)?;
            Ok(position + 1)
        } else {
            Ok(position)
        }
    }

    // Writes the lines of the latches that are uninitialised and have a mark, the first of which has this number.
    fn write_starts<W: Write>(&self, out: &mut W, first: u64) -> Result<(), Io>
        requires { first ≤ 2 ^ 33 * limit }
        ensures { Writes W.written W.failures out.old out.new
            (kept_lines (option_copied self.now.marks) self.now.prefix.now self.now.circuit.now
            first (start_origins 0 self.now.circuit.now.latches)) result }
    {
        self.circuit.facts();
        let mut position = first;
        for (place, latch) in self.circuit.latches().iter().enumerate() {
            position = self.write_start_of(out, position, place as u32, latch)?;
        }
        Ok(())
    }
}

/// Writes what the inputs of the circuit unrolled for this many frames are, one line each, in order, as
/// `write_input_map` does. Each line begins with the prefix, and POSITION counts from `first`. With marks, an input or a
/// latch has a line only if its variable has a mark. It takes no memory, and writes in small pieces: pass a writer that
/// buffers them.
pub fn write_input_lines<W: Write>(
    prefix: &[u8],
    circuit: &Circuit,
    marks: Option<&[bool]>,
    first: u32,
    frames: u32,
    out: &mut W,
) -> Result<(), Io>
    ensures { Writes W.written W.failures out.old out.new (origin_lines prefix.now circuit.now first
        (read_origins (has_mark (option_copied marks.entry)) circuit.now frames)) result }
{
    let map = MapWriter {
        prefix,
        circuit,
        marks,
    };
    let starts = map.write_frames(out, first, frames)?;
    map.write_starts(out, starts)
}

/// Writes what the inputs of the circuit unrolled for this many frames are, one line each, in order. An input of the
/// circuit at a frame is `i POSITION FRAME INPUT NAME`, the initial value of an uninitialised latch is `l POSITION
/// LATCH NAME`. NAME is the symbol, if there is one. All numbers count from 0. It takes no memory, and writes in small
/// pieces: pass a writer that buffers them.
pub fn write_input_map<W: Write>(circuit: &Circuit, frames: u32, out: &mut W) -> Result<(), Io>
    ensures { Writes W.written W.failures out.old out.new (map_text circuit.now frames) result }
{
    write_input_lines(b"", circuit, None, 0, frames, out)
}
