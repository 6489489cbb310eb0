//! The help of the commands on verdicts, after their options.

pub const CHECK: &str =
    "The verdict is the first of these that applies. Latches, frames and constraints
count from 0:
  initial P       the reset of latch P does not allow its value in the witness
  constraint T P  constraint P is not 1 at frame T
  not bad         the bad state property is not 1 at the last frame
  confirmed       the run reaches the bad state, whatever value each x takes
The exit status is 0 for confirmed, and 1 for any other verdict.

With --trace, check prints the run before the verdict, one line per frame as sim
does, whatever the verdict is. With --properties, each line has two more fields:
the bad state properties and the constraints.

With --property, check accepts only a witness of this property, and rejects any
other with status 1: confirmed then says that property P is reached.

With --alive, check answers whether the run keeps all constraints at the frames
0 to K - 1, whatever the properties are. The verdict is the first of these:
  initial P       as above
  constraint T P  as above, at a frame T before K
  frames N        the witness has only N frames, fewer than K
  alive           the run keeps them, whatever value each x takes
The exit status is 0 for alive, and 1 for any other verdict. The circuit needs
no bad state property, and the witness may name any. See witness --alive.

A witness has the line 1, a line b with a position (such as b0), a line with the
latch values, a line with the input values for each frame, and a last line with
a dot.

Example: aig check examples/wraps.aag examples/wraps.wit
See also: man aig, man 5 aig-formats";

pub const WITNESS: &str =
    "witness runs the circuit over the stimulus, from its resets, up to the first
frame at which a bad state property is 1 and all constraints were 1 so far. It
writes the witness of this run: the latch values at the start, x for those
without a reset, and the input values up to this frame. If the frame reaches
several properties, the witness is that of the first. check confirms it.

If no frame reaches a property, witness writes nothing and fails: no run.

With --model, the run is the one that a SAT solver's model of the formula of
aig cnf (with the same K, P and CIRCUIT) names, with x where it names no value.
MODEL is what the solver printed: s and v lines, or the literals alone. With
--step, the model is one of the formula of aig cnf --step. Then the run starts
in any state, and shows why the induction step fails: see wave --witness.

With --certificate, the model is one of the formula of aig cnf --certificate,
and shows why the certificate is wrong. The witness is one of the circuit that
aig strengthen writes: of one frame if a start breaks a claim, of two if a step
does. aig check --trace of it shows which claim is broken.

With --alive, the model is one of the formula of aig cnf --alive. The witness
has all K frames and the property 0, which CIRCUIT need not have. aig check
--alive accepts it. If its run does not keep all constraints, witness fails: no
run.

Example: aig witness examples/wraps.aag examples/wraps.stim > wraps.wit
Example: aig witness --model examples/wraps.model --frames 4 examples/wraps.aag
See also: man aig, man 5 aig-formats";

pub const REDUCE: &str =
    "reduce tries x (unknown) at each value of a confirmed witness: first at the
starts of the uninitialised latches, then at the inputs, frame by frame. An x
stays if the verdict is still confirmed. The values that are left are those that
the failure needs: none of them can be x as well. The run reaches the bad state
whatever value each x takes.

If the verdict is not confirmed, reduce prints it, as check does, and nothing
else. The exit status is then 1. (M + 1) times the number of frames is at most
67,108,864, as for bench.

Example: aig reduce examples/wraps.aag examples/wraps.wit
See also: man aig, man 5 aig-formats";

pub const WHY: &str = "Each line says why signals have their values at a frame:
  NAME=VALUE at T: CAUSES          what was asked for
  NAME=VALUE at S, by S-1: CAUSES  latches that a line above names
CAUSES are inputs and latches with their values at T, or at S-1. They suffice:
wherever they have these values, NAME has VALUE, whatever all other values are.
If VALUE is x (unknown), it is 0 or 1 once all CAUSES are, if the known values
stay. The last lines name the latches at the frame where the explanation ends:
not explained, by reset, or by start. All named values together suffice for what
was asked for.

Latches that only keep their values have no line. NAME is the first word of a
symbol, a vector such as q for q[0] and q[1], another word of a symbol, an entry
such as l3, or a literal; ! before it negates it. VALUE is as in Verilog, with ?
for a bit that is not named.

With --json, each line is an object of JSON instead, with those of these members
that apply:
  line         which line it is: asked, latches, not explained, reset or start
  frame        the frame of its left side
  name, value  NAME and VALUE of what was asked for
  signal       the latches on its left side
  by           the frame of the causes
  causes       the CAUSES, as an array
  latches      what a last line names, as an array
A signal and an element of an array have the members letter, position, name and
value. A value has one letter per bit, the last bit first: 0, 1, x or ?. Its
last letter is that of the entry at the position in its section.

Use aig reduce first: a run with fewer values has a shorter explanation.

Example: aig why --witness --depth 3 examples/queue.aig examples/queue.wit
Example: aig why --of wrap examples/counter.aag examples/counter.stim
See also: man aig, man 5 aig-formats";

pub const CNF: &str = "An assignment that satisfies the formula is a run in which property P is 1 at
one of the frames 0 to K - 1, and all constraints are 1 at the frames up to it.
If there is no such run, no assignment satisfies it. cnf ignores justice
properties and fairness constraints.

The first line is a comment with this command. More comment lines say what the
variables are. Positions and frames count from 0:
  c i V T P NAME  variable V is input P at frame T
  c l V P NAME    variable V is the initial value of latch P (uninitialised)
  c b L T         literal L says that frame T is such a frame
NAME is the symbol, if there is one. Variable 1 is false.

With --step, the formula is that of the induction step: a run of K + 1 frames
from any state in which property P is 1 at frame K, at no frame before it, and
all constraints are 1. If neither formula can be satisfied, no run of any length
reaches the property.

With --certificate, the formula says that the certificate is wrong: at a start
that the resets allow, or after a step from a state without one, the property is
1 or a claim of the certificate is broken (see aig strengthen). If it cannot be
satisfied, no run of any length reaches the property.

With --alive, the formula is that some run keeps all constraints at the frames 0
to K - 1, whatever the properties say. If it cannot be satisfied, a bad state is
unreachable from frame K - 1 on only because no run gets there. Literal L of a
line b then says that the constraints are kept up to frame T.

Example: aig cnf --frames 20 examples/wraps.aag > wraps.cnf
Example: aig cnf --step --frames 20 examples/wraps.aag > step.cnf
See also: man aig, man 5 aig-formats";

pub const REFUTE: &str =
    "The proof is one about the formula that cnf prints for the same K and P. Each
clause that it adds must follow from those that stand by unit propagation, or be
a resolution asymmetric tautology on its first literal; in LRAT, by its hints.
If the proof refutes the formula, the answer is unreachable within K: no run has
a frame before frame K at which property P is 1 and all constraints were 1 so
far, whatever values are unknown.

A number over the formula's variables names one of the proof's own. Deletions
are optional. An empty file serves if unit propagation alone refutes the
formula. The solver need not be trusted.

With --step, FILE is a proof about the formula of cnf --step. If both proofs are
right, the answer is unreachable: no run of any length reaches the property.
Many properties hold and have no such proof, whatever K is.

With --certificate, PROOF is about the formula of cnf --certificate, and the
answer is unreachable: no run of any length reaches the property. Nothing of the
certificate is believed.

With --alive, PROOF is about the formula of cnf --alive, and the answer is no
run of K frames: no run from a start that the resets allow keeps all constraints
at its first K frames. The answer unreachable says little of such a circuit.

Example: aig refute --frames 3 examples/wraps.aag examples/wraps.drat
See also: man aig, man 5 aig-formats";

pub const STRENGTHEN: &str =
    "A certificate is a circuit that says why property P of CIRCUIT is never 1. It
claims that none of its bad state properties is ever 1, and that each of its
constraints always is. If it has no bad state properties, its outputs take their
place. Model checkers write such files as witness circuits.

Each of its inputs and latches is a literal of CIRCUIT, or its own. If the
symbol of one begins with '= ', all that are shared have a symbol '= LIT', for
the literal LIT of CIRCUIT. Otherwise its first inputs and latches are those of
CIRCUIT at the same positions. Resets and next states of shared latches are not
read.

The circuit that is written has the inputs, latches, gates and constraints of
CIRCUIT, and further ones of the certificate. Its outputs are property P, each
property of the certificate, and the negation of each constraint of the
certificate. Its bad state property is 1 if one of these is. If no run reaches
it, no run of CIRCUIT reaches property P.

Example: aig strengthen --to aag --certificate examples/ring.cert.aag \\
             examples/ring.aag
See also: man aig, man 5 aig-formats";
