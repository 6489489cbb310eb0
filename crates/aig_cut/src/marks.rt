//! Which parts of a circuit a text cuts.
ghost use Rattle.std.specs.Prelude.{◌≡◌, ◌<◌, ◌++◌, ◌∷◌, [], List, length, IfOk, IfErr};
ghost use Rattle.aig_cut.specs.Cuts.{IsCutIn};
ghost use Rattle.aig_cut.specs.Lines.{AreCuts};
ghost use Rattle.aig_cut.specs.declared.line.Cut.{Cut as ACut};
ghost use Rattle.aig_cut.specs.state.Marks.{AreMarks, FitMarks, HasMarks, RefusesLines, marked};

use crate::fault::CutFault;
use crate::line::{Cut, next_cut};
use aig_base::{Circuit, Lit, Memory};
use std::alloc::Global;

/// Whether each part of a circuit is cut.
pub(crate) struct Marks {
    // Of each variable, whether its latch or gate is free.
    free: Vec<bool>,
    // Of each variable, whether its latch may start at any value.
    starts: Vec<bool>,
    // Of each constraint, whether it is not demanded.
    constraints: Vec<bool>,
}

// By hand: a value then ends in one call, which is one step of a proof (docs/PROOFS.md, Habits).
impl Drop for Marks {
    fn drop(self) {
        let Marks {
            free: _,
            starts: _,
            constraints: _,
        } = self;
    }
}

impl Marks {
    // Nothing is cut.
    fn none(alloc: Global, circuit: &Circuit) -> Result<Marks, Memory>
        ensures { IfOk result (AreMarks circuit.now []) }
    {
        let variables = circuit.max_var() as usize + 1;
        Ok(Marks {
            free: vec![in alloc; false; variables]?,
            starts: vec![in alloc; false; variables]?,
            constraints: vec![in alloc; false; circuit.constraints().len()]?,
        })
    }

    // Cuts one more part.
    fn add(&mut self, circuit: &Circuit, cut: Cut)
        requires fit { FitMarks circuit.now self.old }
        requires there { IsCutIn circuit.now cut }
        ensures { (cuts : List ACut) → AreMarks circuit.now cuts self.old
            → AreMarks circuit.now (cuts ++ cut ∷ []) self.new }
    {
        circuit.facts();
        match cut {
            Cut::Free(literal) => self.free[literal.var() as usize] = true,
            Cut::Start(literal) => self.starts[literal.var() as usize] = true,
            Cut::Constraint(position) => self.constraints[position as usize] = true,
        }
    }

    /// What a text cuts.
    pub fn of(alloc: Global, circuit: &Circuit, text: &[u8]) -> Result<Marks, CutFault>
        ensures marks { IfOk result (λ marks. (cuts : List ACut) × AreCuts circuit.now text.now cuts
            × AreMarks circuit.now cuts marks) }
        ensures refused { IfErr result (RefusesLines circuit.now text.now) }
    {
        let mut marks = Marks::none(alloc, circuit)?;
        let mut rest = text;
        // There are no more lines than bytes.
        for line in 0..text.len() {
            if rest.is_empty() {
                return Ok(marks);
            }
            let Some((cut, after)) = next_cut(circuit, rest) else {
                return Err(CutFault::Line(line as u64 + 1));
            };
            marks.add(circuit, cut);
            rest = after;
        }
        Ok(marks)
    }

    /// Whether the latch or gate of a literal is free.
    pub fn is_free(&self, literal: Lit) -> bool
        requires { HasMarks self.now literal }
        ensures { result ≡ (marked self.now).free literal }
    {
        self.free[literal.var() as usize]
    }

    /// Whether the latch of a literal may start at any value.
    pub fn starts(&self, literal: Lit) -> bool
        requires { HasMarks self.now literal }
        ensures { result ≡ (marked self.now).starts literal }
    {
        self.starts[literal.var() as usize]
    }

    /// Whether the constraint at a position is not demanded.
    pub fn drops(&self, position: usize) -> bool
        requires { position < length self.now.constraints.items }
        ensures { result ≡ (marked self.now).constraints position }
    {
        self.constraints[position]
    }
}
