//! The texts of the subcommands that read a recording, or an execution.

/// What `replay --help` says after the options.
pub static REPLAY_AFTER_HELP: &str = "\
Examples:
  dethart replay guest.rec
  dethart replay guest.rec --round 12 --hart 3
  dethart replay guest.rec --round 12 --hart 3 --count 40
  dethart replay guest.rec --round 12 --hart 3 --how-many
  dethart replay guest.rec --hart 3 --place 12040
  dethart replay guest.rec --hart 3 --place 12040 --see 0x20000 8
  dethart replay found/1.execution --hart 1 --place 20 --see 0x20000 8

The line 'same' says that the run is the recorded one, and 'differs R' that it
isn't, first in round R.

With --round the hart is printed, as the report prints one, after the first
COUNT instructions that it did in that round: at the round's start where no
count is given. With --how-many the line 'count N' says how many it did, in
place of the hart. With --place and no round the hart is printed before its
instruction at that place of the whole run, as the trace counts places from 0
on, after the line 'round R' of the round in which it does that instruction.
The line is 'none' where there is no such round, hart, count or place. Without
--round and --place, --hart, --count, --see and --see-object aren't looked at.

For each --see the line 'see ADDRESS LENGTH BYTES' follows the hart: the LENGTH
bytes from ADDRESS on as that hart sees them there, which is memory at the
round's start under the hart's own stores, or in its serial turn memory itself.
ADDRESS is hexadecimal after 0x, or decimal without leading zeros; LENGTH is
decimal. --see-object NAME stands for the address and size that the symbol table
of the recording's image gives an object of that name.

RECORDING may be an execution, as dethart execution prints one and dethart
fences --keep writes it. Without --place what dethart check says of it is
printed. With --place N the hart is printed before its step N, which it does
after N other instructions, and before it the line 'position P': P operations
precede the step in the order of memory; one that is no memory operation stands
at its hart's next one. --see shows bytes as a load of the hart would read them
that stands there. Of an execution that isn't allowed nothing else is printed.

A refusal is the line 'error N' on standard error, with the exit status 1;
dethart run --help lists what each N means.

Exit status: 0 the same, or what was asked for was printed, 1 a refusal, 2 a bad
command line, 3 another run than the recorded one, or an execution that is
refused.";

/// What `watch --help` says after the options.
pub static WATCH_AFTER_HELP: &str = "\
Examples:
  dethart watch guest.rec 256 8
  dethart watch guest.rec 0x100 8 --see 0x200 4 --from 10 --to 20
  dethart watch guest.rec --see-object counters --stores --hart 1 --pc
  dethart watch found/1.execution 0x20000 8 --pc

The line 'hits N' comes first, N the number of accesses, and then each access,
as its line in the report's trace and in the order of the trace. An access is
one of them where one of its bytes is among the LENGTH bytes from ADDRESS on, or
among those of a --see or a --see-object; with --from and --to, where it is of
such a round too. With --hart it is one of this hart, and with --stores one that
wrote. ADDRESS and LENGTH are numbers of 64 bits: LENGTH is decimal, and ADDRESS
is hexadecimal after 0x, or decimal without leading zeros.

With --pc each line ends in ' pc' and the address of the instruction, in 16
digits: that of the hart before the instruction, whose run is done once more.

RECORDING may be an execution, as dethart execution prints one and dethart
fences --keep writes it. Its memory operations are printed then, in the order
of memory, with their position in it, from 0 on, in place of the round. Of one
that isn't allowed what dethart check says is printed, and nothing else.

A refusal is the line 'error N' on standard error, with the exit status 1;
dethart run --help lists what each N means.

Exit status: 0 the accesses were printed, 1 a refusal, 2 a bad command line, 3
an execution that is refused.";

/// What `migrate --help` says after the options.
pub static MIGRATE_AFTER_HELP: &str = "\
Example:
  dethart migrate guest.rec new.rec

Nothing is printed. Of a recording of version 1 it makes one with a budget of 1
and without registers.

A refusal is the line 'error N' on standard error, with the exit status 1;
dethart run --help lists what each N means.

Exit status: 0 the recording was written, 1 a refusal, 2 a bad command line.";

/// What `gdb --help` says after the options.
pub static GDB_AFTER_HELP: &str = "\
Example:
  gdb-multiarch guest.elf -ex 'target remote | dethart gdb guest.rec'

gdb's remote serial protocol is read from standard input and answered on standard
output, until gdb detaches, kills the program or closes the pipe. A thread is a
hart: hart 0 is thread 1. Each hart sees its own memory: in a parallel phase that
of the round's start under its own stores. Registers round, place and phase say
where in the run a hart is. Registers and memory can't be changed. gdb's command
'monitor help' lists commands that dethart answers itself, as 'monitor where'.

The file may also be an execution, as dethart execution and fences --keep write
it: gdb then goes along the order of memory, where round is the position of the
hart's next operation, and a hart sees what its next load reads.

A refusal is the line 'error N' on standard error, and each packet is answered by
it then, until the input ends; dethart run --help lists what each N means.

Exit status: 0 gdb has left, 1 a refusal, 2 a bad command line, 3 an execution
that RVWMO doesn't allow.";
