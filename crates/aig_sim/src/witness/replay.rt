//! Runs of witnesses, as traces and as value change dumps.
ghost use Rattle.std.specs.Prelude.{◌≡◌, ℕ, List, [], length, IfErr, IfOk};
ghost use Rattle.aig_parts.specs.declared.raw.Raw.{Raw};
ghost use Rattle.aig_parts.specs.declared.ternary.Tern.{Tern};
ghost use Rattle.aig_sim.specs.Dump.{IsDump};
ghost use Rattle.aig_bytes.specs.Flow.{flow};
ghost use Rattle.aig_sim.specs.Replayed.{Replays};
ghost use Rattle.aig_values.specs.PropertyTrace.{IsPropertyTrace};
ghost use Rattle.aig_values.specs.Trace.{IsTrace};
ghost use Rattle.aig_sim.specs.Verdict.{ShowsVerdict};
ghost use Rattle.aig_sim.specs.WitnessText.{HasWitnessFault, SpellsWitness, Witness};
ghost use Rattle.aig_sim.specs.state.Judging.{HasJudged};
ghost use Rattle.aig_sim.specs.state.Replaying.{BeginsRun, GoesOnAlong, IsReady, NoneReported, ReplaysAndShows, ReplaysFrames};

use crate::dumps::dumping::write_end;
use crate::dumps::header::circuit_header;
use crate::dumps::recorder::DumpRecorder;
use crate::simulation::recorder::{PropertyRecorder, Recorder, TraceRecorder};
use crate::witness::fault::WitnessFault;
use crate::witness::judging::Judging;
use crate::witness::replay_fault::ReplayFault;
use crate::witness::text::WitnessParts;
use crate::witness::verdict::Verdict;
use crate::witness::{WitnessRun, admitted_parts, read_values, wrong_start};
use aig_base::{Circuit, Io, Write, write_all};
use std::alloc::Global;

impl WitnessRun<'_> {
    // Simulates so many frames, and writes the text of each.
    fn write_frames<T: Recorder, W: Write>(
        &mut self,
        rows: &[u8],
        frames: u32,
        recorder: &mut T,
        out: &mut W,
    ) -> Result<(), Io>
        requires ready { (w : Witness) × BeginsRun self.old.machine.circuit w self.old.machine.states rows.now frames }
        requires row { length self.old.row.items ≡ length self.old.machine.circuit.inputs }
        requires fits { T.fits recorder.old self.old.machine.circuit }
        ensures { (w : Witness) → BeginsRun self.old.machine.circuit w self.old.machine.states rows.now frames →
            NoneReported T.is_text T.has_recorded self.old.machine.circuit w recorder.old →
            ReplaysFrames T.is_text T.has_recorded self.old.machine.circuit w W.written W.failures out.old out.new
            recorder.new self.new.machine result }
    {
        let mut rest = rows;
        for frame in 0..frames {
            rest = read_values(&mut self.row, rest);
            self.machine.step(&self.row);
            recorder.record(out, &self.machine, frame as u64)?;
        }
        Ok(())
    }

    // Simulates all frames of the witness with these parts, writes the text of each, and judges it.
    fn judge<T: Recorder, W: Write>(
        &mut self,
        parts: &WitnessParts<'_>,
        judging: &mut Judging<T>,
        out: &mut W,
    ) -> Result<Verdict, ReplayFault>
        requires ready { (w : Witness) × IsReady self.old.machine.circuit w parts.now self.old.machine.states }
        requires row { length self.old.row.items ≡ length self.old.machine.circuit.inputs }
        requires fits { T.fits judging.old.recorder self.old.machine.circuit }
        requires begins { (w : Witness) → NoneReported T.is_text T.has_recorded self.old.machine.circuit w
            judging.old.recorder }
        requires unjudged { (raw : Raw) (start : List Tern) → HasJudged raw start [] judging.old.judgement }
        requires goes_on { (w : Witness) → GoesOnAlong T.is_text self.old.machine.circuit w }
        ensures { (w : Witness) (text : List ℕ) → IsReady self.old.machine.circuit w parts.now self.old.machine.states →
            SpellsWitness self.old.machine.circuit text w → ReplaysAndShows T.is_text self.old.machine.circuit text
            (flow W.written W.failures out.old out.new) result }
    {
        let wrong = wrong_start(&self.machine);
        self.write_frames(parts.rows, parts.frames as u32, judging, out)?;
        Ok(
            judging
                .judgement
                .verdict(&self.machine, wrong, parts.property),
        )
    }
}

// The run of a witness that the circuit admits before its first frame, and the parts of its text.
fn begun<'a>(
    alloc: Global,
    circuit: &'a Circuit,
    text: &'a [u8],
) -> Result<(WitnessRun<'a>, WitnessParts<'a>), WitnessFault>
    ensures circuit { IfOk result (λ both. both.0.machine.circuit ≡ circuit.now) }
    ensures ready { IfOk result (λ both. (w : Witness) × SpellsWitness circuit.now text.now w
        × IsReady circuit.now w both.1 both.0.machine.states) }
    ensures row { IfOk result (λ both. length both.0.row.items ≡ length circuit.now.inputs) }
    ensures fault { IfErr result (HasWitnessFault circuit.now text.now) }
{
    let parts = admitted_parts(circuit, text)?;
    let run = WitnessRun::new(alloc, circuit, &parts)?;
    Ok((run, parts))
}

// Judges a witness and writes the text of its run, in one run.
fn replay<T: Recorder, W: Write>(
    alloc: Global,
    circuit: &Circuit,
    text: &[u8],
    judging: &mut Judging<T>,
    out: &mut W,
) -> Result<Verdict, ReplayFault>
    requires fits { T.fits judging.old.recorder circuit.now }
    requires begins { (w : Witness) → NoneReported T.is_text T.has_recorded circuit.now w judging.old.recorder }
    requires unjudged { (raw : Raw) (start : List Tern) → HasJudged raw start [] judging.old.judgement }
    requires goes_on { (w : Witness) → GoesOnAlong T.is_text circuit.now w }
    ensures { ReplaysAndShows T.is_text circuit.now text.now (flow W.written W.failures out.old out.new) result }
{
    let (mut run, parts) = begun(alloc, circuit, text)?;
    run.judge(&parts, judging, out)
}

/// Writes the trace of the run that a witness describes, as `simulate` writes traces, and returns its verdict. The trace
/// is from the witness's own start, over all its rows, whatever the verdict, and the run is made once for both. What is
/// refused is what `check_witness` refuses, and then nothing is written. It keeps what `check_witness` keeps, and 4,096
/// bytes of a trace line, all reserved before the first byte is written.
pub fn trace_witness<W: Write>(
    alloc: Global,
    circuit: &Circuit,
    text: &[u8],
    out: &mut W,
) -> Result<Verdict, ReplayFault>
    ensures text { Replays (λ raw start rows text. IsTrace raw start rows text) circuit.now text.now
        (flow W.written W.failures out.old out.new) result }
    ensures verdict { IfOk result (ShowsVerdict circuit.now text.now) }
{
    let mut judging = Judging::new(TraceRecorder::new());
    replay(alloc, circuit, text, &mut judging, out)
}

/// Writes the trace with properties of the run that a witness describes, and returns its verdict: each line that
/// `trace_witness` writes has two more fields, with the values of the bad state properties and of the constraints. What
/// is refused is what `check_witness` refuses, and then nothing is written. It keeps what `trace_witness` keeps, all
/// reserved before the first byte is written.
pub fn trace_properties<W: Write>(
    alloc: Global,
    circuit: &Circuit,
    text: &[u8],
    out: &mut W,
) -> Result<Verdict, ReplayFault>
    ensures text { Replays (λ raw start rows text. IsPropertyTrace raw start rows text) circuit.now text.now
        (flow W.written W.failures out.old out.new) result }
    ensures verdict { IfOk result (ShowsVerdict circuit.now text.now) }
{
    let mut judging = Judging::new(PropertyRecorder::new());
    replay(alloc, circuit, text, &mut judging, out)
}

/// Writes a value change dump (IEEE 1364) of the run that a witness describes, as `dump` writes dumps: from the
/// witness's own start, over all its rows, whatever its verdict. What is refused is what `check_witness` refuses, and
/// then nothing is written. It keeps what `check_witness` keeps, the header, and for each signal its literal and two
/// characters, all reserved before the first byte is written.
pub fn dump_witness<W: Write>(
    alloc: Global,
    circuit: &Circuit,
    text: &[u8],
    out: &mut W,
) -> Result<(), ReplayFault>
    ensures { Replays (λ raw start rows text. IsDump raw start rows text) circuit.now text.now
        (flow W.written W.failures out.old out.new) result }
{
    let parts = admitted_parts(circuit, text)?;
    let header = circuit_header(alloc, circuit)?;
    let mut recorder = DumpRecorder::new(alloc, circuit)?;
    let mut run = WitnessRun::new(alloc, circuit, &parts)?;
    let frames = parts.frames as u32;
    write_all(out, header.as_slice())?;
    run.write_frames(parts.rows, frames, &mut recorder, out)?;
    write_end(out, frames as u64)?;
    Ok(())
}
