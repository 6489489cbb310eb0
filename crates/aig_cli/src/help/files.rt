//! The help of the commands on files of circuits, after their options.

pub const TOAIG: &str =
    "The aig format numbers its variables in a fixed order. If the circuit does not
have this order, toaig renumbers the variables; names and comment stay.

Example: aig toaig --to aig examples/two_gates.aag > two_gates.aig
See also: man aig, man 5 aig-formats";

pub const INFO: &str = "A line has a name, one space and a value. The names, in this order:
  format         format of the file, aag or aig
  variables      maximum variable index (M)
  inputs, latches, outputs, gates, bad
                 number of entries of each kind
  constant       number of bad state properties that are the literal 0 (never
                 true) or 1 (always true)
  constraints    number of constraints
  impossible     number of constraints that are the literal 0: no run keeps one
  justice, fairness
                 number of entries of each kind
  uninitialised  number of latches that start at any value
  resets         number of latches that start at 1
  levels         greatest level: inputs and latches have level 0, and a gate is
                 one level above the higher of its right sides
  fanout         largest fan-out of any variable
  symbols        number of entries with a name
  comment        length of the comment in bytes
  ready          yes if the aig format can hold the circuit as it is, else no

With --names, info prints one line per entry instead, in the order of the file:
inputs, latches, outputs, bad state properties, constraints, justice properties
and fairness constraints. A line is LETTER POSITION LITERAL NAME:
  LETTER    i, l, o, b, c, j or f, as in the symbols of a circuit
  POSITION  position in its section, counted from 0
  LITERAL   the literal; - for a justice property, which has several
  NAME      the symbol; nothing if there is none, after the space

With --json, each line is an object of JSON instead, with the members letter,
position, literal and name. The name is null if there is none, and the array of
its bytes if it is not UTF-8. The literal of a justice property is null.

Example: aig info examples/counter.aag
Example: aig info --names examples/fifo.aag
See also: man aig, man 5 aig-formats";

pub const SELECT: &str =
    "select keeps the properties that --property names, in this order, and drops all
others. A SECTION is bad (the bad state properties) or outputs: the properties
are those of --from, and become those of --as. The other of the two sections,
the justice properties and the fairness constraints are empty then.

Inputs, latches, constraints and gates stay, and so do the comment and the names
of what is kept. A property that is named twice is written twice. With --to aig,
select renumbers as toaig does.

With --names, the properties get the names in FILE instead: one line for each
property that is written. An empty line gives a property no name.

Model checkers for AIGER 1.0 check outputs, newer ones check bad state
properties: --from outputs makes properties of outputs, and --as outputs makes
outputs of properties.

Example: aig select --to aag --property 0 examples/wraps.aag
Example: aig select --to aag --from outputs --property 4 examples/counter.aag
See also: man aig, man 5 aig-formats";

pub const CUT: &str =
    "cut writes CIRCUIT, but the parts that FILE names may be anything. FILE has one
line per part, in any order:
  f L  the latch or gate of literal L has any value. A new input is the next
       literal of the latch; the gate is the AND of a new input and 1
  r L  the latch of literal L starts at any value: its reset is L
  c P  constraint P, counted from 0, is 1

Everything keeps its place, literal and name, and so does the comment. The new
inputs have no names and come after the others: first one for each latch, then
one for each gate, in their order. With --to aig, cut renumbers as toaig does.

If no run of the circuit that is written reaches a property, none of CIRCUIT
does. So a proof about it shows what the property does not depend on, and a run
of it shows what the property needs.

Example: aig cut --to aag --cuts examples/wraps.cuts examples/wraps.aag
See also: man aig, man 5 aig-formats";

pub const UNROLL: &str =
    "The unrolled circuit has no latches. Its inputs are the inputs of frame 0, frame
1 and so on, then one input for each uninitialised latch. Its outputs, bad state
properties and constraints are those of frame 0, frame 1 and so on. If a circuit
has both bad state properties and constraints, the unrolled circuit has no
constraints: each of its bad state properties is 1 only if all constraints are 1
at all frames up to its own.

With --map, FILE has one line per input of the unrolled circuit. N is the
position of the input, and all numbers count from 0:
  i N T P NAME  the input is input P at frame T
  l N P NAME    the input is the initial value of latch P
NAME is the symbol, if there is one. unroll writes FILE after the circuit, in
the same way as bench writes its files.

Example: aig unroll --frames 3 --to aag examples/counter.aag
See also: man aig, man 5 aig-formats";
