//! The texts of the subcommands that run a guest program by one plan.

/// What `run --help` says after the options.
pub static RUN_AFTER_HELP: &str = "\
Examples:
  dethart run guest.elf --harts 4
  dethart run guest.bin --flat --harts 3 --quota '100 7 1'
  dethart run guest.elf --harts 4 --plan odd.txt --rounds 20 --input keys.txt
  dethart run guest.elf --harts 4 --plan-number 35 --no-trace
  dethart run guest.elf --show output --strict

The report has rounds, harts, memory, output and trace; --no-trace leaves the
trace out. With --show output only the bytes that the guest put out are printed,
as they are, and with --show harts only the report's lines on rounds and harts,
and how many bytes were put out.

A plan is one or more rows of quotas; rounds take its rows in turn. A quota is
how many instructions a hart does in a round: 1 to 1000000. A row is one number,
which is the quota of each hart, or one for each hart with one space between. A
hart that waits for its serial turn may then do BUDGET instructions. Beside
--plan, --quota isn't looked at. With --plan-number all this is that of plan N
of the family that the seed stands for: beside it --quota, --plan and --budget
are refused, and so is --seed without it.

A hart that stops is done, with one of these codes:
   1  the exit call, which the report shows as 'exit VALUE'; VALUE is x10
   2  an illegal word
   3  the fetch of a word that isn't code
   4  a taken jump or branch to a target that isn't a multiple of 4
   5  a misaligned load
   6  a load outside memory
   7  a misaligned store
   8  a store outside memory
   9  a store to code
  10  EBREAK

A refusal is the line 'error N' on standard error, with the exit status 1:
   1  ELF: the file is shorter than 64 bytes
   2  ELF: the magic isn't there
   3  ELF: it isn't of 64 bits, little-endian, version 1
   4  ELF: it isn't an executable (e_type isn't 2)
   5  ELF: it isn't for RISC-V (e_machine isn't 243)
   6  ELF: e_phentsize isn't 56, e_phnum is 0 or over 64, or the program headers
      pass the file's end
   7  ELF: a segment passes the file's end, or its p_filesz is over its p_memsz
   8  a segment, or a flat file, passes the end of guest memory
   9  ELF: two segments share an address
  10  ELF: a segment can be both executed and written
  11  ELF: the entry isn't a multiple of 4, or isn't code
  12  flat: the length is 0 or not a multiple of 4
  20  a request for memory was refused
  21  the output couldn't be written; a beginning of it is out
  31  the text of the plan isn't one
  32  a quota is 0 or over 1000000
  33  a row of the plan has neither one number nor one for each hart
  34  the plan has more than 256 rows
  41  recording: the first eight bytes aren't there, or aren't the magic
  42  recording: another version than 1 and 2
  43  recording: it ends before its fields do
  44  recording: a field is out of range
  45  recording: bytes are left after its fields
  51  the number of harts is out of range
  52  the number of pages is out of range
  53  the number of workers is out of range
  54  4294967295 rounds were done before
  55  the budget is out of range
  61  a file couldn't be opened or read
  62  a file has more than 1 GiB
  71  a text isn't a table of endings
  72  the tables don't adjoin, or aren't of one hunt
  73  a hunt has no plan, or one with a number over 4294967294
  74  a byte that is to be seen isn't in guest memory
  75  the image has no symbol of an object of that name, or has several
  76  a line of the file of --accept isn't two places
  77  --as-if-fence names no instruction, or has the name of several functions
  78  the tables are of different programs
  79  --spurious: the image has no object dethart_spurious
  81  execution: the file doesn't begin as one
  82  execution: another version than 1
  83  execution: it ends before its parts do
  84  execution: a part isn't written as it has to be
  85  execution: a number is too large
  86  execution: text is left after its parts
  87  an execution that dethart made of its number is refused: a fault of dethart
  88  execution: it is asked about rounds, and has none
  89  execution: its harts do more than 16777216 steps together

Exit status: 0 what was asked for was printed, 1 a refusal, 2 a bad command
line, and with --strict 4 where a hart runs on, was stopped by a fault or exited
with another value than 0; what was asked for is printed then too. Where a
hart runs on, standard error says with --strict, and with --show harts, which
harts are found to run for ever under this plan ('hart H loops').";

/// What `order --help` says after the options.
pub static ORDER_AFTER_HELP: &str = "\
Example:
  dethart order guest.elf --harts 4

The line 'order N' comes first, and then the N memory operations in their order
in global memory, each as in the report's trace. The last line is 'checked yes'
where a checker found that the order meets the memory model RVWMO, and else
'checked no'.

dethart run --help says what a plan is, and what each error N means: a refusal
is the line 'error N' on standard error, with the exit status 1.

Exit status: 0 the order was printed, 1 a refusal, 2 a bad command line.";

/// What `record --help` says after the options.
pub static RECORD_AFTER_HELP: &str = "\
Examples:
  dethart record guest.elf guest.rec --harts 4
  dethart record guest.elf guest.rec --harts 4 --quota '100 7 1 1' --every 10
  dethart record guest.elf guest.rec --harts 4 --rounds 1000000 --until-stopped

Nothing is printed. The recording has what the run was asked for, all but the
number of workers, and a summary of its state after each round; with --every
also each register of each hart after the rounds whose numbers are multiples of
it. With --until-stopped it ends where all harts have stopped, after --rounds at
most; without it, standard error says where that was before a half of them.

dethart run --help says what a plan is, and what each error N means: a refusal
is the line 'error N' on standard error, with the exit status 1.

Exit status: 0 the recording was written, 1 a refusal, 2 a bad command line.";

/// What `draw --help` says after the options.
pub static DRAW_AFTER_HELP: &str = "\
Examples:
  dethart draw guest.elf --harts 2 --quota 1 --to 8 > run.svg
  dethart draw guest.elf --harts 2 --see 0x20000 8 > run.svg
  dethart draw found/1.execution --see-object counter > found.svg

The picture has a column for each hart, a band for each round, and a box for
each memory operation, with an arrow to it from each store that it read bytes
of. With --see it has the operations on the LENGTH bytes from ADDRESS on only,
and with --from and --to those of these rounds only. ADDRESS is hexadecimal
after 0x, or decimal without leading zeros; LENGTH is decimal. It has at most
400 operations, and a line that says how many more there are.

IMAGE may be an execution, as dethart execution prints it and dethart fences
keeps it. The picture has its operations in the order of memory then, one below
the other, and where one stands out of its hart's order a line to where the
program has it. An execution has its own program and harts, and no rounds: only
--see and --see-object make a difference, and --from and --to are refused. Where
RVWMO doesn't allow it, what is printed is what dethart check prints.

dethart run --help says what a plan is, and what each error N means: a refusal
is the line 'error N' on standard error, with the exit status 1.

Exit status: 0 the picture was printed, 1 a refusal, 2 a bad command line, 3
RVWMO doesn't allow the execution.";

/// What `trace --help` says after the options.
pub static TRACE_AFTER_HELP: &str = "\
Example:
  dethart trace guest.elf --harts 2 --as perfetto > run.json

The text is JSON in the format of Chrome's trace events: ui.perfetto.dev opens
the file. Each hart has a track with a slice for each memory operation, and the
rounds have one, with a slice for each round that has operations and for its
serial phase. A flow leads from each store to each load that read a byte of it.
Time is the place in the trace: operation N stands at microsecond N.

dethart run --help says what a plan is, and what each error N means: a refusal
is the line 'error N' on standard error, with the exit status 1.

Exit status: 0 the trace was printed, 1 a refusal, 2 a bad command line.";
