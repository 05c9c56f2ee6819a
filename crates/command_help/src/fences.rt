//! The texts of the subcommand that looks for missing fences.

/// What `fences --help` says after the options.
pub static FENCES_AFTER_HELP: &str = "\
Where no fence is told to be missing, one may still be missing.

Examples:
  dethart fences guest.elf --harts 2
  dethart fences guest.elf --harts 2 --first 1000 --plans 10000
  dethart fences guest.elf --harts 2 --keep found
  dethart fences guest.elf --harts 2 --as-if-fence hart_main+0x3c

The program is run by PLANS numbers of the seed, from FIRST on. As in dethart
hunt --weak a number stands for an execution in which loads come early and
stores late or, in each fifth number, one store comes early. It fails where a
hart stops otherwise than by exit 0; where other bytes are put out, or stand at
a --see, than in all of 12 ordinary runs, if these agree; or where it goes on
though ordinary runs end. What fails is cut down to the operations that have to
be out of order for that, and these say between which instructions a fence is
missing. What is printed is

  fences FIRST COUNT seed S
  ordinary N first NUMBER
  unnamed N first NUMBER
  running N first NUMBER
  accepted N first NUMBER
  missing K fence P,S plans N first NUMBER tried N before PC
  between PC NAME
  and PC NAME
  moved hart H OPERATION at PC NAME before hart H OPERATION at PC NAME
  ends hart H exit VALUE, ends hart H stop CODE, ends otherwise, or stuck
  execution NUMBER departures N steps N operations N
  end

'ordinary' counts numbers that fail without any operation out of order too, and
'unnamed' those that no fence would mend: both are for dethart hunt. 'running'
counts numbers of which harts still ran after --steps steps of all harts, or
after --rounds rounds, and nothing is known of what they do later: so it is of a
program that never ends. A hart that fails before is found there too. The lines
from 'missing' to 'execution' are there for each missing fence, that of most
numbers first: a fence P,S between the instructions at the two PCs, of r for
loads and w for stores, would forbid the execution that is told. 'tried' says by
how many executions, made as if this fence stood before PC: none of them failed
at the place, as some did with each weaker one. 'moved' has the operation that
is early (before) or late (behind), and one of another hart that it moved past.
After 'ends otherwise' there are the lines 'see' and 'output' of dethart hunt.
'stuck' says no more than that harts still run after ten times the steps of any
ordinary run. RVWMO allows each execution that is told: the checker of dethart
check accepted it. Standard error has for each the line that prints all that its
number does:
  missing K: dethart execution IMAGE .. --weak --plan-number NUMBER --seed S
With --as-if-fence, and where the execution runs on past ten times an ordinary
run, it has the file of --keep, or the line that finds and keeps it:
  missing K: dethart fences IMAGE .. --first NUMBER --plans 1 --keep FOLDER
With --progress it has 'found between PC and PC' and that line as soon as a
place is known.

--until missing ends the search with the first number for which a fence is
missing, but where a fence at a place of --accept would mend it. With --seconds N
no number is begun after N seconds. The table is that of the numbers from FIRST
on that were done then, without a gap, and its first line has their COUNT.

--keep DIR writes execution K to DIR/K.execution, for dethart check, replay,
watch and draw. --accept FILE has two words a line, as hart_main+0x3c or as a
PC: the instructions between which a fence is known to be missing. What fails
there isn't told, but counted as 'accepted'. --as-if-fence PC asks whether a
fence is enough: the program is run as if a fence rw,rw stood before the
instruction at PC, and with PC=P,S as if a fence P,S did. Given several times,
it asks whether fences at all of these places are. PC is 16 digits or
FUNCTION+0xOFFSET, as the table has it, or any address: hexadecimal after 0x, or
decimal without leading zeros.

A refusal is the line 'error N' on standard error, with the exit status 1;
dethart run --help lists what each N means.

Exit status: 1 a refusal, 2 a bad command line. Where the table was printed, 0
or, as --fail-on says, 5 or 4:
  missing  5 where a fence is told to be missing, else 4 where numbers fail as
           ordinary runs do, or still run
  never    in no case";
