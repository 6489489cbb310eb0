//! The help of the commands on runs, after their options.

pub const SIM: &str =
    "A line has four fields, with one space between them: the state, the inputs, the
outputs and the next state.

Example: aig sim examples/counter.aag examples/counter.stim
See also: man aig, man 5 aig-formats";

pub const WAVE: &str =
    "Waveform viewers such as GTKWave and Surfer read the dump (IEEE 1364). It shows
inputs, latches, outputs, bad state properties and constraints by name. An entry
without a name appears as a letter and a position, such as i0 or l3. Frame T is
time T.

With --witness, STIM is the file of a witness. The dump then shows the run from
the latch values of the witness, and prints no verdict.

Example: aig wave examples/counter.aag examples/counter.stim > counter.vcd
Example: aig wave --witness examples/wraps.aag examples/wraps.wit > wraps.vcd
See also: man aig, man 5 aig-formats";

pub const BENCH: &str =
    "Each line of the script is one command. Frames, inputs and outputs count from 0,
values are 0, 1 or x:
  w G R0 R1  set the right sides of the gate of literal G to R0 and R1
  r L V      set the initial value of the latch of literal L to V (x: any value)
  s T P V    set input P of frame T to V
  + BITS     append a frame, with one value per input
  -          remove the last frame
  g R0 R1    append a gate with the right sides R0 and R1, variable M + 1
  o P L      set output P to literal L
  v T L      print the value of literal L at frame T
  t          print the trace of all frames, then a line with a dot
  u          print the circuit, unrolled for all frames, then a line with a dot
A literal is twice its variable, plus one if it is negated.

The reply to an edit is ok. If a command is not possible, the reply is no and a
number:
  1   not the literal of a gate
  2   not the literal of a latch
  3   literal out of range
  4   undefined variable
  5   the gates would form a cycle
  6   no such frame
  7   no such input
  8   not one value per input
  9   no frame to remove or to unroll
  10  over a limit
  11  out of memory
  12  justice properties or fairness constraints, which unroll does not support
  13  no such output
The reply to any other line is bad.

bench writes each FILE after the end of the script, whatever the replies were.
FILE may be CIRCUIT, STIM or SCRIPT. bench writes the text to FILE.new, which
must not exist, and then renames it to FILE. It writes to a device or a pipe
directly.

Example: aig bench examples/fifo.aag examples/fifo.stim examples/fifo.script
See also: man aig, man 5 aig-formats";

pub const SHELL: &str =
    "Each line of standard input is one command; the command help lists them. Its
answer is one or more lines, or none if all is well. After an answer that begins
with \"no: \" nothing has changed. The prompt appears if standard input is a
terminal.

A name is a word of a symbol, a vector without its [..], a letter and a position
(i0, l3, o1, b0, c2), or a literal; a ! before it negates. Values are digits of
base 16, or binary digits if a bit is x.

save, witness and wave write a file at once, as bench does at its end. ^C leaves
without saving.

Example: aig shell --witness examples/queue.aig examples/queue.wit
See also: man aig, man 5 aig-formats";
