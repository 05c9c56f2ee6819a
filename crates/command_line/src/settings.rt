/// What a command line asks for.
#[derive(Drop)]
pub enum Command<'a> {
    /// `run IMAGE`: run a guest program, and print what is asked for.
    Run(Print<'a>),
    /// `order IMAGE`: run it, and print the order of its memory operations.
    Order(Run<'a>),
    /// `record IMAGE OUT`: run it, and write a recording of the run.
    Record(Record<'a>),
    /// `replay RECORDING`: do a recorded run again, and compare.
    Replay(Replay<'a>),
    /// `watch RECORDING ADDRESS LENGTH`: do it again, and print the accesses to some bytes.
    Watch(Watch<'a>),
    /// `migrate RECORDING OUT`: write a recording anew in the newest version.
    Migrate(Migrate<'a>),
    /// `gdb RECORDING`: serve gdb, which looks at the recorded run.
    Gdb(Gdb<'a>),
    /// `hunt IMAGE`: run a guest program by many plans, and print the table of its endings.
    Hunt(Hunt<'a>),
    /// `shrink IMAGE --plan-number N`: make a plan smaller that leads to the same ending.
    Shrink(Shrink<'a>),
    /// `merge TABLE..`: make one table of those of hunts that adjoin.
    Merge(Merge<'a>),
    /// `fences IMAGE`: look for missing fences.
    Fences(Fences<'a>),
    /// `all IMAGE`: search for all endings.
    All(AllEndings<'a>),
    /// `compare OLD NEW`: compare the tables of two hunts.
    Compare(Compare<'a>),
    /// `plan N`: print a plan of the family.
    Plan(Plan),
    /// `draw IMAGE`: run a guest program, and draw the run.
    Draw(Draw<'a>),
    /// `trace IMAGE`: run a guest program, and print the trace in the form that ui.perfetto.dev opens.
    Trace(Run<'a>),
    /// `execution IMAGE`: run a guest program, and print the run as an execution.
    Execution(Execution<'a>),
    /// `check FILE`: check the execution of a file.
    Check(Check<'a>),
}

/// A guest program, and what it is run with. The numbers are as they were given: their ranges are not tested here.
#[derive(Clone, Copy, Drop)]
pub struct Program<'a> {
    /// The path of the image.
    pub image: &'a str,
    /// The image is a flat file, and not an ELF file.
    pub flat: bool,
    /// The image's object `dethart_spurious` holds 1, by which waits for a condition may return without a signal.
    pub spurious: bool,
    /// The number of harts.
    pub harts: u32,
    /// The size of guest memory, in pages of 4096 bytes.
    pub pages: u32,
    /// The number of rounds.
    pub rounds: u32,
    /// The number of threads.
    pub workers: u32,
    /// The path of the file that the guest reads; none is an empty input.
    pub input: Option<&'a str>,
    /// It is told between rounds how far the run is.
    pub progress: bool,
}

/// Which plan a run goes by.
#[derive(Clone, Copy, Drop)]
pub struct PlanChoice<'a> {
    /// The plan's one row, where no file has the plan.
    pub quota: &'a str,
    /// The path of the file that has the plan. Where it is given, `quota` isn't looked at.
    pub file: Option<&'a str>,
    /// How many instructions a waiting hart may do in its serial turn.
    pub budget: u32,
    /// The number of a plan of the family. The line gives none of the above beside it.
    pub number: Option<u32>,
    /// The seed of the family. The line gives none where there is no number.
    pub seed: u64,
    /// The line gives both a quota and a file, so that the quota isn't looked at.
    pub quota_is_unread: bool,
}

/// One run: the words after `order` and `trace`, and a part of those after `run`, `record`, `draw` and `execution`.
#[derive(Clone, Copy, Drop)]
pub struct Run<'a> {
    /// The program that is run.
    pub program: Program<'a>,
    /// The plan that it is run by.
    pub plan: PlanChoice<'a>,
}

/// What of a run is printed.
#[derive(Clone, Copy, PartialEq, Eq, Drop)]
pub enum Shown {
    /// The report of the state after it.
    Report,
    /// What the guest wrote, and nothing else.
    Output,
    /// A line for each hart.
    Harts,
}

/// The words after `run`.
#[derive(Clone, Copy, Drop)]
pub struct Print<'a> {
    /// The run.
    pub run: Run<'a>,
    /// What is printed of it.
    pub show: Shown,
    /// The report ends before its trace.
    pub no_trace: bool,
    /// The exit status says where a hart didn't end well.
    pub strict: bool,
}

/// The words after `record`.
#[derive(Clone, Copy, Drop)]
pub struct Record<'a> {
    /// The run to record.
    pub run: Run<'a>,
    /// The path of the file that the recording is written to.
    pub out: &'a str,
    /// The registers are recorded after each round whose number is a multiple of this; 0: never.
    pub every: u32,
    /// No round is recorded in which no hart runs.
    pub until_stopped: bool,
}

/// The words after `replay`.
#[derive(Drop)]
pub struct Replay<'a> {
    /// The path of the recording.
    pub recording: &'a str,
    /// The number of threads.
    pub workers: u32,
    /// The round of the hart to print, where one is wanted.
    pub round: Option<u32>,
    /// The number of the hart to print. Where there is neither a round nor a place, it isn't looked at.
    pub hart: u32,
    /// After how many of the instructions that the hart did in the round it is printed. Where there is no round, it isn't
    /// looked at.
    pub count: u64,
    /// How many instructions the hart did in the round is printed, and not the hart. The line gives a round then, and neither
    /// a count nor bytes.
    pub how_many: bool,
    /// The place of an instruction among all that the hart did, before which it is printed. The line gives neither a round
    /// nor a count beside it.
    pub place: Option<u64>,
    /// The bytes that are printed as the hart sees them. Where there is neither a round nor a place, they aren't looked at.
    pub seen: Vec<Bytes>,
    /// The names of objects whose bytes are printed too, likewise.
    pub objects: Vec<&'a str>,
    /// A machine to go on from is kept after each round whose number is a multiple of this; 0: only the first.
    pub every: u32,
    /// It is told between rounds how far the run is.
    pub progress: bool,
    /// The line gives a hart, which isn't looked at.
    pub hart_is_unread: bool,
    /// The line gives a count, which isn't looked at.
    pub count_is_unread: bool,
    /// The line gives bytes by their address, which aren't looked at.
    pub seen_is_unread: bool,
    /// The line gives an object, which isn't looked at.
    pub object_is_unread: bool,
}

/// The words after `watch`.
#[derive(Drop)]
pub struct Watch<'a> {
    /// The path of the recording.
    pub recording: &'a str,
    /// The address of the first byte that is watched, where the line says one.
    pub address: Option<u64>,
    /// The line says it in decimal.
    pub is_decimal: bool,
    /// How many bytes are watched from there on.
    pub length: u64,
    /// More bytes that are watched.
    pub more: Vec<Bytes>,
    /// The names of objects whose bytes are watched too.
    pub objects: Vec<&'a str>,
    /// The hart whose accesses alone are printed, where the line says one.
    pub hart: Option<u32>,
    /// Only those that wrote are printed.
    pub stores: bool,
    /// Each is printed with its instruction's pc.
    pub pc: bool,
    /// The first round that is watched, where the line says one.
    pub from: Option<u32>,
    /// The last round that is watched, where the line says one.
    pub to: Option<u32>,
    /// The number of threads.
    pub workers: u32,
    /// It is told between rounds how far the run is.
    pub progress: bool,
}

/// The words after `migrate`.
#[derive(Clone, Copy, Drop)]
pub struct Migrate<'a> {
    /// The path of the recording that is read.
    pub recording: &'a str,
    /// The path of the file that the new one is written to.
    pub out: &'a str,
}

/// The words after `gdb`.
#[derive(Clone, Copy, Drop)]
pub struct Gdb<'a> {
    /// The path of the recording.
    pub recording: &'a str,
}

/// The words after `execution`.
#[derive(Clone, Copy, Drop)]
pub struct Execution<'a> {
    /// The run.
    pub run: Run<'a>,
    /// The plan's number is that of an execution, as in a hunt over these. The line gives a number then.
    pub weak: bool,
    /// How many steps this execution has at most. The line gives none where it isn't weak.
    pub steps: u32,
}

/// The words after `check`.
#[derive(Clone, Copy, Drop)]
pub struct Check<'a> {
    /// The path of the execution.
    pub file: &'a str,
}

/// A range of bytes in guest memory: the two words after `--see`, or an object.
#[derive(Clone, Copy, Drop)]
pub struct Bytes {
    /// The address of the first byte.
    pub address: u64,
    /// How many bytes there are.
    pub length: u64,
    /// The line says the address, in decimal.
    pub is_decimal: bool,
}

/// Runs of a program by plans of a family: a part of the words after `hunt`, `shrink`, `fences` and `all`.
#[derive(Drop)]
pub struct Search<'a> {
    /// The program that is run.
    pub program: Program<'a>,
    /// The seed of the family.
    pub seed: u64,
    /// The bytes by which two endings differ, beside stops and output.
    pub seen: Vec<Bytes>,
    /// The names of the guest program's objects whose bytes are looked at too.
    pub objects: Vec<&'a str>,
}

/// Which tables of a hunt give another exit status.
#[derive(Clone, Copy, Drop)]
pub enum FailOn {
    /// Those with more endings than one, or with one in which a hart didn't exit.
    Differ,
    /// Those with an ending in which a hart runs on, was stopped by a fault, or exited with another value than 0.
    Bad,
    /// Those with one of the two.
    Either,
    /// None.
    Never,
}

/// With which ending a hunt is over before its last plan.
#[derive(Clone, Copy, Drop)]
pub enum HuntUntil {
    /// The first in which a hart runs on, was stopped by a fault, or exited with another value than 0.
    Bad,
    /// The first that is another than that of the first plan.
    Differ,
}

/// The words after `hunt`.
#[derive(Drop)]
pub struct Hunt<'a> {
    /// The runs.
    pub search: Search<'a>,
    /// How many plans the program is run by.
    pub plans: u32,
    /// The number of the first of these.
    pub first: u32,
    /// Which tables give another exit status.
    pub fail_on: FailOn,
    /// With which ending the hunt is over before its last plan, if with one.
    pub until: Option<HuntUntil>,
    /// After how many seconds no plan is begun, if there is such a limit.
    pub seconds: Option<u32>,
    /// The numbers are those of executions that RVWMO allows, in which loads come early and stores late, and not of plans.
    pub weak: bool,
    /// How many steps an execution has at most. The line gives none where it isn't weak.
    pub steps: u32,
}

/// Which tables of missing fences give another exit status.
#[derive(Clone, Copy, Drop)]
pub enum FencesFailOn {
    /// Those with a missing fence, and those with an ordinary run that failed.
    Missing,
    /// None.
    Never,
}

/// The words after `fences`.
#[derive(Drop)]
pub struct Fences<'a> {
    /// The executions.
    pub search: Search<'a>,
    /// How many executions are looked at.
    pub plans: u32,
    /// The number of the first of these.
    pub first: u32,
    /// How many steps an execution has at most.
    pub steps: u32,
    /// Which tables give another exit status.
    pub fail_on: FencesFailOn,
    /// Whether the search is over with the first number for which a fence is missing.
    pub until_missing: bool,
    /// After how many seconds no number is begun, if there is such a limit.
    pub seconds: Option<u32>,
    /// The path of the folder that the executions which are told are written to; none is written where there is none.
    pub keep: Option<&'a str>,
    /// The path of the file that has the places to leave out.
    pub accept: Option<&'a str>,
    /// The places before each of which a fence is thought of, as the line has them: addresses, or names of the image.
    pub as_if_fence: Vec<&'a str>,
}

/// The words after `all`.
#[derive(Drop)]
pub struct AllEndings<'a> {
    /// The guest, and what tells its endings apart. Rounds and a seed can't be given.
    pub search: Search<'a>,
    /// How many instructions of a hart are followed.
    pub steps: u32,
    /// How many nodes are gone through.
    pub nodes: u32,
    /// For how many seconds is searched, where there is such a limit.
    pub seconds: Option<u32>,
    /// The path of the folder that an execution of each ending is written to; none is written where there is none.
    pub keep: Option<&'a str>,
    /// Whether it is asked which fences can be left out.
    pub fences: bool,
}

/// The words after `shrink`.
#[derive(Drop)]
pub struct Shrink<'a> {
    /// The runs.
    pub search: Search<'a>,
    /// The number of the plan to make smaller.
    pub plan_number: u32,
}

/// The words after `merge`.
#[derive(Drop)]
pub struct Merge<'a> {
    /// The paths of the tables, in the order of the line.
    pub tables: Vec<&'a str>,
    /// Which tables give another exit status.
    pub fail_on: FailOn,
}

/// The words after `compare`.
#[derive(Clone, Copy, Drop)]
pub struct Compare<'a> {
    /// The path of the old build's table.
    pub old: &'a str,
    /// The path of the new build's table.
    pub new: &'a str,
}

/// The words after `plan`.
#[derive(Clone, Copy, Drop)]
pub struct Plan {
    /// The number of the plan.
    pub number: u32,
    /// The number of harts.
    pub harts: u32,
    /// The seed of the family.
    pub seed: u64,
}

/// The words after `draw`.
#[derive(Drop)]
pub struct Draw<'a> {
    /// The run to draw.
    pub run: Run<'a>,
    /// The bytes to which accesses are drawn; where there are none and no objects, all are.
    pub seen: Vec<Bytes>,
    /// The names of the guest program's objects to which accesses are drawn too.
    pub objects: Vec<&'a str>,
    /// The first round that is drawn, where the line says one.
    pub from: Option<u32>,
    /// The last round that is drawn, where the line says one.
    pub to: Option<u32>,
}
