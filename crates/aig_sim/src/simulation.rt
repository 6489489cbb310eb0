//! Simulation of a stimulus that is read row by row.
ghost use Rattle.std.specs.Prelude.{◌≡◌, ◌≢◌, ℕ, List, [], ◌∷◌, ◌++◌, ◌<◌, ◌≤◌, length, take, All, Some, slice_get};
ghost use Rattle.std.specs.Prelude.{IfOk, IfErr, OnOk, OnErr};
ghost use Rattle.aig_base.specs.Value.{start_of};
ghost use Rattle.aig_sim.specs.declared.stimulus.row_parser.Shape.TheVariants as shapes;
ghost use Rattle.aig_sim.specs.RowParser.{KeepsLine};
ghost use Rattle.aig_sim.specs.state.Running.{HasRowRoom, SimulationStarts, SimulationGoesOn, SimulationStops};
ghost use Rattle.aig_sim.specs.state.Running.{Streamed};
ghost use Rattle.aig_sim.specs.Simulated.{Simulates};

mod frame_cells;
pub(crate) mod machine;
pub(crate) mod recorder;

use crate::simulation::machine::{Machine, first_states};
use crate::simulation::recorder::{Recorder, TraceRecorder};
use crate::stimulus::fault::StimFault;
use crate::stimulus::row_parser::RowParser;
use aig_base::{Circuit, Memory, Read, Write};
use std::alloc::Global;

/// How many bytes of a stimulus a read asks for; it may give fewer.
const CHUNK: usize = 16384;

/// A simulation between two pieces of the text: the circuit with its values, the current line, what writes the frames,
/// and how many frames there were (`u64::MAX` for more).
#[derive(Drop)]
pub struct Simulation<'a, T> {
    pub machine: Machine<'a>,
    pub line: RowParser,
    pub recorder: T,
    pub frames: u64,
}

impl<'a, T: Recorder + Drop> Simulation<'a, T> {
    /// The simulation before the first byte. All memory that it takes is reserved here.
    pub fn new(
        alloc: Global,
        circuit: &'a Circuit,
        recorder: T,
    ) -> Result<Simulation<'a, T>, Memory>
        requires fits { T.fits recorder circuit.now }
        ensures room { IfOk result (HasRowRoom T.fits) }
        ensures recorder { IfOk result (λ s. s.recorder ≡ recorder) }
        ensures circuit { IfOk result (λ s. s.machine.circuit ≡ circuit.now) }
        ensures states { IfOk result (λ s. s.machine.states ≡ start_of circuit.now) }
        ensures line { IfOk result (λ s. (s.line.shape ≡ shapes.Row) × (s.line.values ≡ [])) }
        ensures frames { IfOk result (λ s. s.frames ≡ 0) }
    {
        let width = circuit.inputs().len();
        Ok(Simulation {
            machine: Machine::new(alloc, circuit, first_states(alloc, circuit)?)?,
            line: RowParser::new(alloc, width, width)?,
            recorder,
            frames: 0,
        })
    }

    // Simulates the row that the current line is, and writes the text of its frame.
    fn end_line<W: Write>(&mut self, out: &mut W) -> Result<(), StimFault>
        requires room { HasRowRoom T.fits self.old }
        ensures room { HasRowRoom T.fits self.new }
        ensures ok { OnOk result (SimulationGoesOn T.is_text T.has_recorded (10 ∷ []) self.old self.new
            (W.written out.old) (W.written out.new) (W.failures out.old) (W.failures out.new)) }
        ensures err { IfErr result (λ fault. (more : List ℕ)
            → SimulationStops T.is_text T.has_recorded (10 ∷ more) self.old
            (W.written out.old) (W.written out.new) (W.failures out.old) (W.failures out.new) fault) }
    {
        let number = self.frames.saturating_add(1);
        let row = self.line.row(number)?;
        self.machine.step(row);
        self.recorder.record(out, &self.machine, self.frames)?;
        self.frames = number;
        self.line.clear();
        Ok(())
    }

    // Takes bytes up to the LF of a line, or all of them, and returns how many. There is room for the width, so that it
    // takes no memory.
    fn take_line(&mut self, bytes: &[u8]) -> usize
        requires room { HasRowRoom T.fits self.old }
        ensures room { HasRowRoom T.fits self.new }
        ensures frames { self.new.frames ≡ self.old.frames }
        ensures machine { self.new.machine ≡ self.old.machine }
        ensures recorder { self.new.recorder ≡ self.old.recorder }
        ensures bound { result ≤ length bytes.now }
        ensures no_end { All (λ b. b ≢ 10) (take result bytes.now) }
        ensures ended { result < length bytes.now → slice_get bytes.now result ≡ Some 10 }
        ensures keeps { (line : List ℕ) →
            KeepsLine self.old.line.width line self.old.line.shape self.old.line.values →
            KeepsLine self.old.line.width (line ++ take result bytes.now) self.new.line.shape self.new.line.values }
    {
        self.line.take_line(bytes).unwrap()
    }

    // Takes bytes up to the end of a line, which is then simulated, or all of them. Answers how many it took.
    fn feed_line<W: Write>(&mut self, bytes: &[u8], out: &mut W) -> Result<usize, StimFault>
        requires room { HasRowRoom T.fits self.old }
        ensures room { HasRowRoom T.fits self.new }
        ensures bound { IfOk result (λ count. count ≤ length bytes.now) }
        ensures some { IfOk result (λ count. 0 < length bytes.now → 0 < count) }
        ensures ok { IfOk result (λ count. SimulationGoesOn T.is_text T.has_recorded (take count bytes.now) self.old
            self.new
            (W.written out.old) (W.written out.new) (W.failures out.old) (W.failures out.new)) }
        ensures err { IfErr result (SimulationStops T.is_text T.has_recorded bytes.now self.old
            (W.written out.old) (W.written out.new) (W.failures out.old) (W.failures out.new)) }
    {
        let length = self.take_line(bytes);
        if length == bytes.len() {
            return Ok(length);
        }
        self.end_line(out)?;
        Ok(length + 1)
    }

    // Takes the bytes of a chunk, and simulates each row that ends in it.
    fn feed<W: Write>(&mut self, chunk: &[u8], out: &mut W) -> Result<(), StimFault>
        requires room { HasRowRoom T.fits self.old }
        ensures room { HasRowRoom T.fits self.new }
        ensures ok { OnOk result (SimulationGoesOn T.is_text T.has_recorded chunk.now self.old self.new
            (W.written out.old) (W.written out.new) (W.failures out.old) (W.failures out.new)) }
        ensures err { IfErr result (SimulationStops T.is_text T.has_recorded chunk.now self.old
            (W.written out.old) (W.written out.new) (W.failures out.old) (W.failures out.new)) }
    {
        let mut at = 0;
        while at < chunk.len() {
            at += self.feed_line(&chunk[at..], out)?;
        }
        Ok(())
    }

    // The number of frames, where the text ends after an LF.
    fn finish(&self) -> Result<u64, StimFault>
        ensures frames { IfOk result (λ frames. frames ≡ self.now.frames) }
        ensures ended { OnOk result ((line : List ℕ) →
            KeepsLine self.now.line.width line self.now.line.shape self.now.line.values → line ≡ []) }
        ensures fault { IfErr result (λ fault. fault ≡ StimFault.Unfinished) }
        ensures unfinished { OnErr result ((line : List ℕ) →
            KeepsLine self.now.line.width line self.now.line.shape self.now.line.values → line ≢ []) }
    {
        if self.line.is_empty() {
            Ok(self.frames)
        } else {
            Err(StimFault::Unfinished)
        }
    }

    /// Reads rows to the end, writes the text of each frame, and returns how many there were (`u64::MAX` for
    /// more). It takes no memory. It flushes before each read.
    pub fn run<R: Read, W: Write>(&mut self, reader: &mut R, out: &mut W) -> Result<u64, StimFault>
        requires room { HasRowRoom T.fits self.old }
        requires starts { SimulationStarts T.is_text T.has_recorded self.old }
        ensures streams { Streamed T.is_text self.old.machine.circuit
            (record { left = R.left reader.old; reads = R.failures reader.old; writes = W.failures out.old })
            (record { left = R.left reader.new; reads = R.failures reader.new; writes = W.failures out.new })
            (W.written out.old) (W.written out.new) result }
        ensures memory { IfErr result (λ fault. fault ≢ StimFault.Memory) }
    {
        let mut chunk = [0u8; CHUNK];
        loop {
            out.flush()?;
            let size = reader.read(&mut chunk)?;
            if size == 0 {
                return self.finish();
            }
            self.feed(&chunk[..size], out)?;
        }
    }
}

/// Reads rows to the end, writes their trace, and returns how many there were (`u64::MAX` for more). It keeps one row,
/// a value for each variable and each latch, and the gates once more where they are not in the order of their
/// evaluation. It has room for 16,384 bytes of the text and 4,096 of a trace line. It reserves all this before the
/// first read. There is no limit on frames. It flushes before each read, so that the lines of all rows that were read
/// are written before it waits. At a fault in line n the lines of the n - 1 rows before it are written; where memory
/// runs out, nothing was read. A row's line goes out before the next row is looked at; the contract says what was
/// written at each end, not when.
pub fn simulate<R: Read, W: Write>(
    alloc: Global,
    circuit: &Circuit,
    reader: &mut R,
    out: &mut W,
) -> Result<u64, StimFault>
    ensures simulated { Simulates circuit.now
        (record { left = R.left reader.old; reads = R.failures reader.old; writes = W.failures out.old })
        (record { left = R.left reader.new; reads = R.failures reader.new; writes = W.failures out.new })
        (W.written out.old) (W.written out.new) result }
    ensures memory { IfErr result (λ fault. fault ≡ StimFault.Memory → (reader.new ≡ reader.old)
        × (out.new ≡ out.old)) }
{
    let mut simulation = Simulation::new(alloc, circuit, TraceRecorder::new())?;
    simulation.run(reader, out)
}
