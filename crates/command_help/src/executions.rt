//! The texts of the subcommands of executions.

/// What `execution --help` says after the options.
pub static EXECUTION_AFTER_HELP: &str = "\
Examples:
  dethart execution guest.elf --harts 2 --quota 10 > run.txt
  dethart execution guest.elf --harts 2 --weak --plan-number 3 > weak.txt

The text has the program and its input, what each hart read, and the order of
the memory operations by harts; docs/formats.md says how it is written. Change
a number or the order by hand, and ask dethart check whether the memory model
RVWMO allows that.

With --weak it is execution N of dethart hunt --weak, in which loads come early
and stores early or late; --plan-number N says which, and --quota, --plan and
--budget are refused beside it. --steps N is how far it goes at most, as there.

dethart run --help says what a plan is, and what each error N means: a refusal
is the line 'error N' on standard error, with the exit status 1.

Exit status: 0 the execution was printed, 1 a refusal, 2 a bad command line.";

/// What `check --help` says after the options.
pub static CHECK_AFTER_HELP: &str = "\
Example:
  dethart check run.txt

The line 'allowed' says that the harts, each of which does the instructions of
the program as the instruction set has them, can read these numbers and end so,
and that RVWMO allows this in the order of the file; the harts follow, as the
report prints them at the end. Else the line is 'refused', and the next one says
why: which step of a hart isn't as the file says, or what RVWMO forbids.
It says nothing of other orders of the same operations.

A refusal of the file is the line 'error N' on standard error, with the exit
status 1; dethart run --help lists what each N means.

Exit status: 0 allowed, 1 a refusal of the file, 2 a bad command line, 3 refused.";
