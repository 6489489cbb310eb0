//! Rows of a byte a cell.
use crate::code::{Code, spell_in};
use crate::row::cell_row::CellRow;
use aig_parts::{List, Lit, Tern};
use std::alloc::{AllocError, Global};

/// A row that keeps a byte for each cell.
#[derive(Drop)]
pub struct ByteRow {
    codes: List<Code>,
}

impl CellRow for ByteRow {
    ghost cells = { λ row. row.codes };

    fn new(alloc: Global, size: usize) -> Result<ByteRow, AllocError> {
        let mut codes = Vec::with_capacity(alloc, size)?;
        codes.push(Code::of(Tern::Zero))?;
        codes.resize(size, Code::of(Tern::X))?;
        Ok(ByteRow {
            codes: List::from_vec(codes),
        })
    }

    fn make_room(&mut self, size: usize) -> Result<(), AllocError> {
        if self.codes.len() < size {
            self.codes.push(Code::of(Tern::X))?;
        }
        Ok(())
    }

    fn get(&self, variable: usize) -> Code {
        self.codes[variable]
    }

    fn set(&mut self, variable: usize, code: Code) {
        self.codes.set(variable, code);
    }

    fn spell(&self, text: &mut [u8], literals: &[Lit]) {
        spell_in(text, self.codes.as_slice(), literals);
    }
}
