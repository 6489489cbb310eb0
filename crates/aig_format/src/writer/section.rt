//! Writing the sections that both formats have.
ghost use Rattle.std.specs.Prelude.{◌≡◌, ◌<◌, ◌^◌, ◌++◌, false, length, All, option_copied};
ghost use Rattle.std.specs.Fmt.{decimal};
ghost use Rattle.std.specs.List.{flat_map};
ghost use Rattle.aig_parts.specs.Formed.{IsFormed};
ghost use Rattle.aig_bytes.specs.Gathered.{Gathers};
ghost use Rattle.aig_format.specs.Spelling.{literal_line, reset_text, size_line, properties_of, property_lines};
ghost use Rattle.aig_format.specs.Spelling.{symbol_line, comment_text, names_text};

use aig_base::{Block, Circuit, Io, Kind, List, Lit, Symbols, Write};

/// A line for each literal.
pub(crate) fn put_literals<W: Write>(
    out: &mut W,
    block: &mut Block,
    literals: &[Lit],
) -> Result<(), Io>
    ensures { Gathers W.written W.failures out.old out.new block.old block.new (flat_map literal_line literals.now)
        result }
{
    for literal in literals {
        block.put_field(out, literal.value(), b'\n')?;
    }
    Ok(())
}

/// The two last numbers of a latch line, the reset where it is not 0.
pub(crate) fn put_next<W: Write>(
    out: &mut W,
    block: &mut Block,
    next: Lit,
    reset: Lit,
) -> Result<(), Io>
    ensures { Gathers W.written W.failures out.old out.new block.old block.new (decimal next ++ reset_text false reset)
        result }
{
    if reset.value() == 0 {
        return block.put_field(out, next.value(), b'\n');
    }
    block.put_field(out, next.value(), b' ')?;
    block.put_field(out, reset.value(), b'\n')
}

/// The sizes of the justice properties, which fit their numbers.
fn put_sizes<W: Write>(out: &mut W, block: &mut Block, properties: &[List<Lit>]) -> Result<(), Io>
    requires { All (λ p. length p < 2 ^ 32) properties.now }
    ensures { Gathers W.written W.failures out.old out.new block.old block.new (flat_map size_line properties.now)
        result }
{
    for property in properties {
        block.put_field(out, property.len() as u32, b'\n')?;
    }
    Ok(())
}

/// The literals of the justice properties, property after property.
fn put_justice<W: Write>(out: &mut W, block: &mut Block, properties: &[List<Lit>]) -> Result<(), Io>
    ensures { Gathers W.written W.failures out.old out.new block.old block.new
        (flat_map (λ p. flat_map literal_line p) properties.now) result }
{
    for property in properties {
        put_literals(out, block, property.as_slice())?;
    }
    Ok(())
}

/// Outputs, bad state properties, constraints, justice and fairness.
#[tactic(auto, unfolding(crate::specs::Spelling::property_lines))]
pub(crate) fn put_properties<W: Write>(
    out: &mut W,
    block: &mut Block,
    circuit: &Circuit,
) -> Result<(), Io>
    requires { IsFormed circuit.now }
    ensures { Gathers W.written W.failures out.old out.new block.old block.new (properties_of circuit.now) result }
{
    put_literals(out, block, circuit.outputs())?;
    put_literals(out, block, circuit.bad())?;
    put_literals(out, block, circuit.constraints())?;
    put_sizes(out, block, circuit.justice())?;
    put_justice(out, block, circuit.justice())?;
    put_literals(out, block, circuit.fairness())
}

fn put_symbol<W: Write>(
    out: &mut W,
    block: &mut Block,
    kind: Kind,
    position: u32,
    name: &[u8],
) -> Result<(), Io>
    ensures { Gathers W.written W.failures out.old out.new block.old block.new (symbol_line (
      (kind, position),
      name.now,
    )) result }
{
    let letter = kind.letter();
    if block.push_symbol(letter, position, name) {
        return Ok(());
    }
    block.put_all(out, &[letter])?;
    block.put_field(out, position, b' ')?;
    block.put_all(out, name)?;
    block.put_all(out, b"\n")
}

fn put_symbols<W: Write>(out: &mut W, block: &mut Block, symbols: &Symbols) -> Result<(), Io>
    ensures { Gathers W.written W.failures out.old out.new block.old block.new (flat_map symbol_line symbols.now)
        result }
{
    for (key, name) in symbols.iter() {
        put_symbol(out, block, key.0, key.1, name)?;
    }
    Ok(())
}

fn put_comment<W: Write>(out: &mut W, block: &mut Block, comment: Option<&[u8]>) -> Result<(), Io>
    ensures { Gathers W.written W.failures out.old out.new block.old block.new (comment_text (option_copied
        comment.entry)) result }
{
    match comment {
        None => Ok(()),
        Some(bytes) => {
            block.put_all(out, b"c\n")?;
            block.put_all(out, bytes)
        }
    }
}

/// Symbols in their order, and the comment.
#[tactic(auto, unfolding(crate::specs::Spelling::names_text))]
pub(crate) fn put_names<W: Write>(
    out: &mut W,
    block: &mut Block,
    circuit: &Circuit,
) -> Result<(), Io>
    ensures { Gathers W.written W.failures out.old out.new block.old block.new (names_text circuit.now.symbols
        circuit.now.comment) result }
{
    put_symbols(out, block, circuit.symbols())?;
    put_comment(out, block, circuit.comment())
}
