//! What is written of the frames of a simulation, one after the other.
ghost use Rattle.std.specs.Prelude.{◌≡◌, ℕ, ◌-◌, ◌^◌, min, List, [], ◌∷◌, ◌++◌, length, OnOk};
ghost use Rattle.aig_parts.specs.declared.ternary.Tern.{Tern};
ghost use Rattle.aig_parts.specs.declared.raw.Raw.{Raw};
ghost use Rattle.aig_bytes.specs.Bytes.{Writes};
ghost use Rattle.aig_values.specs.state.Frame.{HoldsAll};

use crate::simulation::machine::Machine;
use aig_base::{Io, Write};
use aig_values::trace_line::{TraceBlock, write_line, write_property_line};

/// Writes the text of each frame.
pub trait Recorder {
    // The circuit's run from this start with these rows has this text.
    ghost is_text: { Raw → List Tern → List (List Tern) → List ℕ → Type 0 };

    // It can record frames of the circuit.
    ghost fits: { Self → Raw → Type 0 };

    // The frames of these rows, and no others, were recorded.
    ghost has_recorded: { Self → Raw → List Tern → List (List Tern) → Type 0 };

    // What it writes for the frame of this number with these cells.
    ghost frame_text: { Self → Raw → ℕ → List Tern → List ℕ };

    /// Writes the text of the machine's last frame, which has this number (`u64::MAX` stands for any greater). It takes
    /// no memory.
    fn record<W: Write>(&mut self, out: &mut W, machine: &Machine<'_>, frame: u64) -> Result<(), Io>
        requires can { fits self.old machine.now.circuit }
        ensures can { fits self.new machine.now.circuit }
        ensures written { Writes W.written W.failures out.old out.new
            (frame_text self.old machine.now.circuit frame machine.now.cells) result }
        ensures text { (start : List Tern) (rows : List (List Tern)) (row : List Tern) (text : List ℕ) →
            is_text machine.now.circuit start rows text → has_recorded self.old machine.now.circuit start rows →
            HoldsAll machine.now.circuit start (rows ++ row ∷ []) (length rows) machine.now.cells →
            frame ≡ min (length rows) (2 ^ 64 - 1) →
            is_text machine.now.circuit start (rows ++ row ∷ [])
            (text ++ frame_text self.old machine.now.circuit frame machine.now.cells) }
        ensures recorded { OnOk result ((start : List Tern) (rows : List (List Tern)) (row : List Tern) →
            has_recorded self.old machine.now.circuit start rows →
            HoldsAll machine.now.circuit start (rows ++ row ∷ []) (length rows) machine.now.cells →
            frame ≡ min (length rows) (2 ^ 64 - 1) →
            has_recorded self.new machine.now.circuit start (rows ++ row ∷ [])) };
}

/// Writes the lines of a trace.
#[derive(Drop)]
pub struct TraceRecorder {
    block: TraceBlock,
}

impl TraceRecorder {
    /// Room for 4,096 bytes of a line.
    pub fn new() -> TraceRecorder {
        TraceRecorder {
            block: TraceBlock::new(),
        }
    }
}

impl Recorder for TraceRecorder {
    ghost use Rattle.aig_values.specs.Trace.{IsTrace};
    ghost use Rattle.aig_values.specs.TraceText.{line_text};

    ghost is_text = { λ raw start rows text. IsTrace raw start rows text };

    ghost fits = { λ r raw. Unit {0} };

    ghost has_recorded = { λ r raw start rows. Unit {0} };

    ghost frame_text = { λ r raw t cells. line_text raw cells };

    fn record<W: Write>(
        &mut self,
        out: &mut W,
        machine: &Machine<'_>,
        _frame: u64,
    ) -> Result<(), Io> {
        write_line(out, &mut self.block, machine.circuit(), machine)
    }
}

/// Writes the lines of a trace with properties.
#[derive(Drop)]
pub struct PropertyRecorder {
    block: TraceBlock,
}

impl PropertyRecorder {
    /// Room for 4,096 bytes of a line.
    pub fn new() -> PropertyRecorder {
        PropertyRecorder {
            block: TraceBlock::new(),
        }
    }
}

impl Recorder for PropertyRecorder {
    ghost use Rattle.aig_values.specs.PropertyTrace.{IsPropertyTrace};
    ghost use Rattle.aig_values.specs.TraceText.{property_line_text};

    ghost is_text = { λ raw start rows text. IsPropertyTrace raw start rows text };

    ghost fits = { λ r raw. Unit {0} };

    ghost has_recorded = { λ r raw start rows. Unit {0} };

    ghost frame_text = { λ r raw t cells. property_line_text raw cells };

    fn record<W: Write>(
        &mut self,
        out: &mut W,
        machine: &Machine<'_>,
        _frame: u64,
    ) -> Result<(), Io> {
        write_property_line(out, &mut self.block, machine.circuit(), machine)
    }
}
