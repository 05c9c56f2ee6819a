//! The texts of the subcommands that go over plans of a family.

/// What `hunt --help` says after the options.
pub static HUNT_AFTER_HELP: &str = "\
Examples:
  dethart hunt guest.elf --harts 2
  dethart hunt guest.elf --harts 3 --see 0x20000 8 --see 131088 4
  dethart hunt guest.elf --harts 2 --first 1000 > second.txt
  dethart hunt guest.elf --harts 2 --weak

The program is run by PLANS plans of the family that the seed stands for, from
the number FIRST on. Two runs have the same ending where each hart ended in the
same way, the same bytes were put out, and the LENGTH bytes from ADDRESS on of
each --see are the same. ADDRESS is hexadecimal after 0x, or decimal without
leading zeros; LENGTH is decimal. --see-object NAME stands for the address and
size that the ELF file's symbol table gives an object of that name. What is
printed is the table of the endings:

  plans FIRST COUNT seed S
  endings E
  ending K [bad] plans COUNT first PLAN
  hart H exit VALUE, hart H stop CODE, hart H running, or hart H loops
  see ADDRESS LENGTH BYTES [NAME]
  output LENGTH \"TEXT\"
  end

The lines from 'ending' to 'output' are there for each ending, with a line for
each hart and for each --see: COUNT of the plans lead to it, and PLAN is the
first of these. 'bad' says that a hart runs on, was stopped by a fault or exited
with another value than 0. NAME is the object's, where --see-object named it.
dethart run --help lists each CODE. 'loops' says that the hart
runs for ever under these plans; 'running' says only that the limit of rounds
was reached. No plan of these ends otherwise, within this limit of rounds.

With --weak numbers stand for executions that RVWMO allows, in which loads come
early and stores early or late, in place of plans. The first line ends in
' weak' then, and the first of each ending in ' checked': RVWMO allows its first
execution. There, 'running' says that the limit of rounds was reached, or that
of --steps, which counts those of all harts.

--spurious lets pthread_cond_wait of guest/pthreads return without a signal, as
POSIX does, in about one round of sixteen: which ones these are differs from
plan to plan. A 'while' around the wait never fails for that, and an 'if' is
found. The program is that of IMAGE, but that its object dethart_spurious holds
1. A signal that is lost isn't found so: hunt without --spurious, too.

--until bad ends the hunt with the first plan by which a hart runs on, was
stopped by a fault or exited with another value than 0, and --until differ with
the first whose ending is another than that of plan FIRST. With --seconds N no
plan is begun after N seconds. The table is that of the plans from FIRST on that
were done then, without a gap, and its first line has their COUNT.

Standard error has for each ending the line that runs the program by its first
plan, with all options that matter; with --weak, dethart execution --weak:
  ending K: dethart run IMAGE .. --rounds 10000 --plan-number PLAN --seed S
With --progress it has 'found ' and the same line as soon as an ending is known.

A refusal is the line 'error N' on standard error, with the exit status 1;
dethart run --help lists what each N means.

Exit status: 1 a refusal, 2 a bad command line. Where the table was printed, 0
or, as --fail-on says, 4:
  differ  the table has more endings than one, or one in which a hart didn't
          exit
  bad     by some plan a hart runs on, was stopped by a fault or exited with
          another value than 0
  differ,bad  one of the two
  never   in no case, for slices of a hunt that dethart merge puts together";

/// What `shrink --help` says after the options.
pub static SHRINK_AFTER_HELP: &str = "\
Example:
  dethart shrink guest.elf --harts 2 --plan-number 35 > small.txt

It begins with plan N of the family that the seed stands for, and makes it
smaller, one step after another, as long as the program ends as by plan N: each
hart in the same way, with the same output, and with the same bytes of each
--see. The plan that is left is printed. No single step leads on from it to the
same ending; docs/hunt.md lists the steps. Standard error has its budget, and
the line that runs the program by it once it is in a file:
  budget B
  dethart run IMAGE .. --rounds 10000 --plan FILE --budget B

A refusal is the line 'error N' on standard error, with the exit status 1;
dethart run --help lists what each N means.

Exit status: 0 the plan was printed, 1 a refusal, 2 a bad command line.";

/// What `merge --help` says after the options.
pub static MERGE_AFTER_HELP: &str = "\
Example:
  dethart hunt guest.elf --harts 2 --first 0 --plans 500 > first.txt
  dethart hunt guest.elf --harts 2 --first 500 --plans 500 > second.txt
  dethart merge first.txt second.txt

Each TABLE is what dethart hunt or dethart merge printed, of one program with
the same options: tables of different programs are refused. They may be given in any order; the plans of each have to go
on where those of another one end. What is printed is the table of one hunt over
all these plans. Standard error has for each ending the line that runs the
program so, with IMAGE for its file, and says where a hart loops or runs on.

A refusal is the line 'error N' on standard error, with the exit status 1;
dethart run --help lists what each N means.

Exit status: 1 a refusal, 2 a bad command line. Where the table was printed, 0
or, as --fail-on says, 4: dethart hunt --help has the words.";

/// What `compare --help` says after the options.
pub static COMPARE_AFTER_HELP: &str = "\
Example:
  dethart hunt old.elf --harts 2 --see-object sum > old.txt
  dethart hunt new.elf --harts 2 --see-object sum > new.txt
  dethart compare old.txt new.txt

OLD and NEW are what dethart hunt or dethart merge printed, of as many harts and
with the same bytes seen; their programs can be two builds. Printed are:
  lost ending K ..    ending K of OLD, which NEW hasn't, as OLD has it
  new ending K ..     ending K of NEW, which OLD hasn't, as NEW has it
  share ending K plans P of N new ending L plans Q of M
                      an ending of both, with another share of the plans
  end                 that is all

A refusal is the line 'error N' on standard error, with the exit status 1;
dethart run --help lists what each N means.

Exit status: 0 both have the same endings, 1 a refusal, 2 a bad command line,
4 an ending is lost or new.";

/// What `plan --help` says after the options.
pub static PLAN_AFTER_HELP: &str = "\
Example:
  dethart plan 35 --harts 2

By this plan dethart run --plan-number 35 --harts 2 runs a program. Standard
error has its budget, which is no part of the text:
  budget B
  dethart run IMAGE --harts 2 --plan FILE --budget B

A refusal is the line 'error N' on standard error, with the exit status 1;
dethart run --help lists what each N means.

Exit status: 0 the plan was printed, 1 a refusal, 2 a bad command line.";
