//! Which variables a walk visited. Marks are numbers of walks, so no mark is ever taken back.
ghost use Rattle.std.specs.Prelude.{◌≡◌, ℕ, ◌<◌, ◌↔◌, length, slice_get, slice_set, IfOk, IsTrue};
ghost use Rattle.aig_causes.specs.state.Walk.{AreEarlier, IsVisited};

use aig_base::Memory;
use std::alloc::Global;

/// For each variable the number of the last walk that visited it, 0 for none. Numbers rise from walk to walk.
#[derive(Drop)]
pub struct Visited {
    pub marks: Vec<u32>,
    /// The number of the current walk.
    pub number: u32,
    /// The number of the last walk at another frame.
    pub before: u32,
}

// Takes all marks away.
fn forget(marks: &mut [u32])
    ensures size { length marks.new ≡ length marks.old }
    ensures none { (v n : ℕ) → slice_get marks.new v ≡ Some n → n ≡ 0 }
{
    for place in 0..marks.len() {
        marks[place] = 0;
    }
}

impl Visited {
    /// No walk has visited any of so many variables.
    pub fn new(alloc: Global, size: usize) -> Result<Visited, Memory>
        ensures size { IfOk result (λ visited. length visited.marks.items ≡ size) }
        ensures earlier { IfOk result (λ visited. AreEarlier visited.number visited.marks.items) }
    {
        Ok(Visited {
            marks: vec![in alloc; 0; size]?,
            number: 0,
            before: 0,
        })
    }

    /// A walk begins: it has visited no variable.
    pub fn begin(&mut self)
        requires { AreEarlier self.old.number self.old.marks.items }
        ensures size { length self.new.marks.items ≡ length self.old.marks.items }
        ensures earlier { AreEarlier self.new.number self.new.marks.items }
        ensures none { (v : ℕ) → IsVisited self.new.marks.items self.new.number v → ⊥ }
    {
        if self.number == u32::MAX {
            forget(&mut self.marks);
            self.number = 0;
            self.before = 0;
        }
        self.number += 1;
    }

    /// Whether this walk visited a variable.
    pub fn has(&self, variable: u32) -> bool
        requires { variable < length self.now.marks.items }
        ensures { IsTrue result ↔ IsVisited self.now.marks.items self.now.number variable }
    {
        self.marks[variable as usize] == self.number
    }

    /// Whether this walk or an earlier one at the frame visited a variable.
    pub fn has_at_frame(&self, variable: u32) -> bool {
        match self.marks.get(variable as usize) {
            Some(number) => *number > self.before,
            None => false,
        }
    }

    /// This walk visits a variable.
    pub fn add(&mut self, variable: u32)
        requires { variable < length self.old.marks.items }
        ensures marks { self.new.marks.items ≡ slice_set self.old.marks.items variable self.old.number }
        ensures earlier { AreEarlier self.old.number self.old.marks.items →
            AreEarlier self.new.number self.new.marks.items }
        ensures number { self.new.number ≡ self.old.number }
    {
        self.marks[variable as usize] = self.number;
    }
}
