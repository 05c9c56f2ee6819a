//! The texts of `dethart --help`.

/// What `dethart` does.
pub static ABOUT: &str =
    "Runs a RISC-V program (RV64I with M and A) on 1 to 64 harts, the same each time.";

/// What `dethart --help` says after the list of the subcommands.
pub static AFTER_HELP: &str = "\
Examples:
  dethart run guest.elf --harts 4 --quota 1
  dethart order guest.elf --harts 4 --quota 1
  dethart record guest.elf guest.rec --harts 4 --quota 1
  dethart replay guest.rec
  dethart watch guest.rec 256 8
  dethart migrate guest.rec new.rec
  gdb-multiarch guest.elf -ex 'target remote | dethart gdb guest.rec'
  dethart hunt guest.elf --harts 4 > table.txt
  dethart shrink guest.elf --harts 4 --plan-number 35
  dethart merge table.txt next.txt
  dethart compare old.txt new.txt
  dethart fences guest.elf --harts 4
  dethart all guest.elf --harts 2
  dethart plan 35 --harts 4
  dethart draw guest.elf --harts 4 --to 8 > run.svg
  dethart trace guest.elf --harts 4 --as perfetto > run.json
  dethart execution guest.elf --harts 2 > run.txt
  dethart check run.txt

dethart run --help lists the options of a run, why a hart stops, and what each
error N means. dethart order, record, draw, trace and execution take the same
options, but for those that say what is printed. dethart help, dethart help
COMMAND and dethart version print the same as --help, COMMAND --help and
--version.

Exit status: 0 what was asked for was printed or written, 1 a refusal (error N),
2 a bad command line, 3 dethart replay found another run than the recorded one,
or dethart check an execution that is none or that RVWMO doesn't allow, 4
dethart hunt or merge found more endings than one, or one in which a hart
didn't exit with value 0 (--fail-on says when else), or dethart run --strict
found such a hart, or dethart fences found a fault that no fence mends,
or harts that run on, or dethart compare an ending that one table alone has,
or dethart all a bad ending, 5 dethart fences found a missing fence, 6 dethart
all found no bad ending, but there may be others.";
