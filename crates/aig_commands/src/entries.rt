//! The entries of a circuit, a line each, with their names.
ghost use Rattle.std.specs.Prelude.{◌≡◌, ◌≤◌, length};
ghost use Rattle.std.specs.Fmt.{decimal};
ghost use Rattle.aig_bytes.specs.Bytes.{Writes};
ghost use Rattle.aig_parts.specs.Formed.{limit};
ghost use Rattle.aig_parts.specs.declared.symbols.Kind.TheVariants as kinds;
ghost use Rattle.aig_unroll.specs.InputMap.{is_same, symbol_name_at};
ghost use Rattle.aig_commands.specs.Names.{entries_text, entry_end, entry_line, entry_lines, entry_start, no_literal};

use aig_base::{Circuit, Io, Kind, Latch, List, Lit, Write, write_all, write_number};
use aig_signals::{Form, write_name};
use aig_unroll::write_symbol;

// Writes the letter of a section, a space, the position and another space.
fn write_text_place<W: Write>(out: &mut W, kind: Kind, position: u32) -> Result<(), Io>
    ensures { Writes W.written W.failures out.old out.new (entry_start Form.Text kind position) result }
{
    write_all(out, &[kind.letter(), b' '])?;
    write_number(out, position)?;
    write_all(out, b" ")
}

// Writes the start of an object: the letter of a section, the position, and the member of the literal.
fn write_json_place<W: Write>(out: &mut W, kind: Kind, position: u32) -> Result<(), Io>
    ensures { Writes W.written W.failures out.old out.new (entry_start Form.Json kind position) result }
{
    write_all(out, b"{\"letter\":\"")?;
    write_all(out, &[kind.letter()])?;
    write_all(out, b"\",\"position\":")?;
    write_number(out, position)?;
    write_all(out, b",\"literal\":")
}

// Writes the section and the position of an entry, up to its literal.
fn write_place<W: Write>(out: &mut W, form: Form, kind: Kind, position: u32) -> Result<(), Io>
    ensures { Writes W.written W.failures out.old out.new (entry_start form kind position) result }
{
    match form {
        Form::Text => write_text_place(out, kind, position),
        Form::Json => write_json_place(out, kind, position),
    }
}

// Writes what is there in place of a literal.
fn write_no_literal<W: Write>(out: &mut W, form: Form) -> Result<(), Io>
    ensures { Writes W.written W.failures out.old out.new (no_literal form) result }
{
    match form {
        Form::Text => write_all(out, b"-"),
        Form::Json => write_all(out, b"null"),
    }
}

// Writes what ends the line of an entry: a space and its name.
fn write_text_end<W: Write>(
    out: &mut W,
    circuit: &Circuit,
    kind: Kind,
    position: u32,
) -> Result<(), Io>
    ensures { Writes W.written W.failures out.old out.new
        (entry_end Form.Text circuit.now.symbols kind position) result }
{
    write_all(out, b" ")?;
    write_symbol(out, circuit, kind, position)?;
    write_all(out, b"\n")
}

// The symbol of an entry, empty where it has none.
fn symbol_of(circuit: &Circuit, kind: Kind, position: u32) -> &[u8]
    ensures { result.now ≡ symbol_name_at (is_same kind) circuit.now.symbols position }
{
    circuit.facts();
    match circuit.symbols().get(kind, position) {
        Some(name) => name,
        None => b"",
    }
}

// Writes what ends the object of an entry: its name.
fn write_json_end<W: Write>(
    out: &mut W,
    circuit: &Circuit,
    kind: Kind,
    position: u32,
) -> Result<(), Io>
    ensures { Writes W.written W.failures out.old out.new
        (entry_end Form.Json circuit.now.symbols kind position) result }
{
    write_all(out, b",\"name\":")?;
    write_name(out, symbol_of(circuit, kind, position))?;
    write_all(out, b"}\n")
}

// Writes what ends the line of an entry.
fn write_end<W: Write>(
    out: &mut W,
    form: Form,
    circuit: &Circuit,
    kind: Kind,
    position: u32,
) -> Result<(), Io>
    ensures { Writes W.written W.failures out.old out.new (entry_end form circuit.now.symbols kind position) result }
{
    match form {
        Form::Text => write_text_end(out, circuit, kind, position),
        Form::Json => write_json_end(out, circuit, kind, position),
    }
}

// Writes the line of an entry that is a literal.
fn write_literal<W: Write>(
    out: &mut W,
    circuit: &Circuit,
    form: Form,
    kind: Kind,
    position: u32,
    literal: Lit,
) -> Result<(), Io>
    ensures { Writes W.written W.failures out.old out.new
        (entry_line form circuit.now.symbols kind position (decimal literal)) result }
{
    write_place(out, form, kind, position)?;
    write_number(out, literal.value())?;
    write_end(out, form, circuit, kind, position)
}

// Writes the line of an entry that has no literal of its own.
fn write_property<W: Write>(
    out: &mut W,
    circuit: &Circuit,
    form: Form,
    kind: Kind,
    position: u32,
) -> Result<(), Io>
    ensures { Writes W.written W.failures out.old out.new
        (entry_line form circuit.now.symbols kind position (no_literal form)) result }
{
    write_place(out, form, kind, position)?;
    write_no_literal(out, form)?;
    write_end(out, form, circuit, kind, position)
}

// Writes the lines of a section of literals.
fn write_literals<W: Write>(
    out: &mut W,
    circuit: &Circuit,
    form: Form,
    kind: Kind,
    literals: &[Lit],
) -> Result<(), Io>
    requires { length literals.now ≤ limit }
    ensures { Writes W.written W.failures out.old out.new
        (entry_lines form decimal circuit.now.symbols kind 0 literals.now) result }
{
    for (position, literal) in literals.iter().enumerate() {
        write_literal(out, circuit, form, kind, position as u32, *literal)?;
    }
    Ok(())
}

// Writes the lines of the latches.
fn write_latches<W: Write>(
    out: &mut W,
    circuit: &Circuit,
    form: Form,
    latches: &[Latch],
) -> Result<(), Io>
    requires { length latches.now ≤ limit }
    ensures { Writes W.written W.failures out.old out.new
        (entry_lines form (λ x. decimal x.lit) circuit.now.symbols kinds.Latch 0 latches.now) result }
{
    for (position, latch) in latches.iter().enumerate() {
        write_literal(out, circuit, form, Kind::Latch, position as u32, latch.lit)?;
    }
    Ok(())
}

// Writes the lines of the justice properties.
fn write_justice<W: Write>(
    out: &mut W,
    circuit: &Circuit,
    form: Form,
    properties: &[List<Lit>],
) -> Result<(), Io>
    requires { length properties.now ≤ limit }
    ensures { Writes W.written W.failures out.old out.new
        (entry_lines form (λ literals. no_literal form) circuit.now.symbols kinds.Justice 0 properties.now) result }
{
    for (position, _) in properties.iter().enumerate() {
        write_property(out, circuit, form, Kind::Justice, position as u32)?;
    }
    Ok(())
}

/// Writes a line for each entry, section by section.
pub(crate) fn write_entries<W: Write>(circuit: &Circuit, form: Form, out: &mut W) -> Result<(), Io>
    ensures { Writes W.written W.failures out.old out.new (entries_text form circuit.now) result }
{
    circuit.facts();
    write_literals(out, circuit, form, Kind::Input, circuit.inputs())?;
    write_latches(out, circuit, form, circuit.latches())?;
    write_literals(out, circuit, form, Kind::Output, circuit.outputs())?;
    write_literals(out, circuit, form, Kind::Bad, circuit.bad())?;
    write_literals(out, circuit, form, Kind::Constraint, circuit.constraints())?;
    write_justice(out, circuit, form, circuit.justice())?;
    write_literals(out, circuit, form, Kind::Fairness, circuit.fairness())
}
