//! The texts of the subcommand that searches for all endings.

/// What `all --help` says after the options.
pub static ALL_AFTER_HELP: &str = "\
Only where the table says 'no others' are its endings all.

Examples:
  dethart all guest.elf --harts 2
  dethart all guest.elf --harts 2 --fences
  dethart all guest.elf --harts 2 --see-object counter --keep found
  dethart all guest.elf --harts 2 --nodes 1000000 --seconds 600 --progress

It goes through the executions of the program that the memory model RVWMO
allows, with no plan and no number drawn: through the lists of stores to bytes
that harts share, in the order of global memory, and against each list through
all that each hart can do. What is printed is

  all harts N nodes N steps K
  endings E
  ending 1, or ending 1 bad
  hart H exit VALUE, hart H stop CODE, or hart H waits PC
  see ADDRESS LENGTH BYTES NAME
  output H LENGTH \"BYTES\"
  no others, or others are possible: WHY
  unneeded PC, needed PC, or unknown PC: WHY
  end

'nodes' counts the lists that were gone through, and K is --steps. The lines
from 'ending' to 'output' are there for each ending, those of harts and 'see' as
in dethart hunt; 'output' has what hart H put out by itself, and isn't there
where that is nothing. An ending is bad where a hart does other than exit with
0. RVWMO allows an execution that ends so for each ending: the checker of
dethart check accepted one. 'waits' is of a hart that waits for ever, while all
others have stopped or wait too, in a loop whose least address is PC: of it the
checker says no more than that the execution comes there.

'no others' says that no execution that RVWMO allows, in which all harts stop
and none does more than K instructions, ends otherwise. Else WHY is one of
  time           --seconds were over
  nodes          there are more than --nodes
  steps          a hart may do more than K instructions
  input that several harts read, the call for the round, a call whose number
  comes late, more output than a console takes, states of a hart
                 the program does what the search doesn't go through
  not checked    the search found no others, and nothing has proved it
Fewer rounds of a loop, smaller arrays and fewer harts make a program small
enough, and --see less.

--fences says of each fence that a hart comes to, where there are no others,
what becomes of the program if that instruction, at PC, does nothing:
  unneeded  it has no ending that it hasn't with the fence, as 'no others' counts
  needed    it has one, in which all harts stop
  unknown   WHY is one of the above, or: a hart may wait for ever
Each is looked at alone: of two that are unneeded leave out one, and ask anew.

--keep DIR writes an execution of ending K to DIR/K.execution, for dethart check,
replay, watch, draw and gdb.

A refusal is the line 'error N' on standard error, with the exit status 1;
dethart run --help lists what each N means.

Exit status: 1 a refusal, 2 a bad command line. Where the table was printed:
  0  there are no others, and none is bad
  4  an ending that is told is bad
  6  others are possible, and none that is told is bad";
