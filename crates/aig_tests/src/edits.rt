//! For tests of benches: what each line of a script answers and costs, and the cells after it, in three grids.

mod bare;
mod script;

use crate::input::{all, split, three_numbers};
use aig_base::{Lit, Memory, Tern};
use aig_bench::Bench;
use aig_command::{RunFault, read_circuit, read_rows};
use aig_sim::{ByteGrid, Grid, PlaneGrid};
use bare::Bare;
use script::{Step, answer_of, character};
use std::alloc::Global;
use std::io::{self, ErrorKind};
use std::str;

/// A circuit, its rows, and the lines of a script.
#[derive(Clone, Copy)]
struct EditCase<'a> {
    circuit: &'a [u8],
    rows: &'a [u8],
    script: &'a str,
}

impl<'a> EditCase<'a> {
    /// The first case of these bytes, and the bytes after it. The numbers of its first line are how many bytes the
    /// circuit, the rows and the script have.
    fn first(bytes: &'a [u8]) -> Option<(EditCase<'a>, &'a [u8])> {
        let ([circuit_size, rows_size, script_size], rest) = three_numbers(bytes)?;
        let (circuit, rest) = split(rest, circuit_size)?;
        let (rows, rest) = split(rest, rows_size)?;
        let (script, rest) = split(rest, script_size)?;
        let case = EditCase {
            circuit,
            rows,
            script: str::from_utf8(script).ok()?,
        };
        Some((case, rest))
    }

    /// A bench of the circuit and its rows.
    fn bench<G: Grid>(&self, alloc: Global) -> Result<Bench<G>, RunFault> {
        let circuit = read_circuit(alloc, self.circuit)?;
        let rows = read_rows(alloc, &circuit, self.rows)?;
        Ok(Bench::new(alloc, circuit, rows)?)
    }

    /// Prints a line for each line of the script.
    fn print<G: Grid>(&self, rt: HostRuntime) -> io::Result<()> {
        let Ok(mut bench) = self.bench::<G>(rt.alloc()) else {
            return Err(ErrorKind::InvalidData.into());
        };
        for line in self.script.lines() {
            let Some(step) = Step::of_line(rt.alloc(), line) else {
                return Err(ErrorKind::InvalidData.into());
            };
            match answer(rt.alloc(), &mut bench, &step) {
                Ok(text) => println!(rt; "{text}")?,
                Err(Memory) => return Err(ErrorKind::OutOfMemory.into()),
            }
        }
        Ok(())
    }
}

/// What a step answers, and after it the cells, a word for each frame; `?` is one without a definition.
fn answer<G: Grid>(alloc: Global, bench: &mut Bench<G>, step: &Step) -> Result<String, Memory> {
    let mut text = answer_of(alloc, bench, step)?;
    for frame in 0..bench.frames() {
        text.push_str(" | ")?;
        let mut literal = 0u32;
        for _ in 0..=bench.circuit().max_var() {
            match cell(bench, frame, Lit::new(literal)) {
                Some(value) => text.push(character(value))?,
                None => text.push('?')?,
            }
            literal = literal.wrapping_add(2);
        }
    }
    Ok(text)
}

/// The cell of a literal's variable in the grid that the bench lends, where the literal has a value.
fn cell<G: Grid>(bench: &Bench<G>, frame: u32, literal: Lit) -> Option<Tern> {
    match bench.value(frame, literal) {
        Ok(_) => Some(bench.grid().get(frame, literal.var())),
        Err(_) => None,
    }
}

/// Prints the lines of each case of standard input, for one grid after the other.
pub(crate) fn run(rt: HostRuntime) -> io::Result<()> {
    let bytes = all(rt)?;
    let mut rest = bytes.as_slice();
    for _ in 0..bytes.len() {
        if rest.is_empty() {
            break;
        }
        let Some((case, after)) = EditCase::first(rest) else {
            return Err(ErrorKind::InvalidData.into());
        };
        case.print::<ByteGrid>(rt)?;
        case.print::<PlaneGrid>(rt)?;
        case.print::<Bare>(rt)?;
        rest = after;
    }
    Ok(())
}
