// The types of the planner's answers. What each of them means is said in specs/, in the order of document 01.
#![tactic(auto)]

// The limits that the code needs as constants; specs/Limits.antt has each with its reason.
pub const MOST_RECORDS: usize = 512;

pub const MOST_ADDED: usize = 63;

pub const MOST_EDGES: usize = 4 * MOST_RECORDS + MOST_ADDED;

pub const MOST_DURATION: u32 = 16777215;

pub const REGISTER_ENTRIES: usize = 1024;

pub const LAST_TICK: u32 = 4294967295;

// The number of a plan's table where a step does not decide another (specs/Plan.antt).
pub const UNDECIDED: u32 = 4294967295;

// How long a step lasts: it is open, or lasts a fixed number of ticks.
#[derive(Clone, Copy, PartialEq, Eq)]
pub enum Delay {
    Open,
    Fixed(u16),
}

// A step, and its least duration where it has one (request L6).
#[derive(Clone, Copy, PartialEq, Eq)]
pub struct Operation {
    pub delay: Delay,
    pub least: Option<u16>,
}

// A link record for the pair (from, to): after, at least, at most, the gap of the after link, and at most from the finish; each number of ticks where the record has it. The reader does not hold it: it turns each
// record into edges as its fields are read (DECISIONS 15). The definitions are written with it (specs/Bytes.antt, specs/Links.antt), and the sheet writer of request L4 takes its records as such.
#[derive(Clone, Copy, PartialEq, Eq)]
pub struct Link {
    pub from: u8,
    pub to: u8,
    pub sequencing: bool,
    pub minimum: Option<u16>,
    pub maximum: Option<u16>,
    pub gap: Option<u16>,
    pub latest: Option<u16>,
}

// ---- What the calls answer.

// The refusals by their numbers: 1 to 18, but for 9, which is never given since request L3; then those of later requests, 19, 20, 26, 28 and 31.
#[derive(Clone, Copy, PartialEq, Eq)]
pub enum Refusal {
    Truncated = 1,
    OperationCount = 2,
    LinkCount = 3,
    BadMap = 4,
    BadEndpoint = 5,
    BadOrder = 6,
    Trailing = 7,
    ForwardCycle = 8,
    Infeasible = 10,
    Inconsistent = 11,
    WaitsNeeded = 12,
    BadDelays = 13,
    TooShort = 14,
    NotBegun = 15,
    AlreadyBegun = 16,
    CannotFinish = 17,
    ClockEnd = 18,
    LargeOffset = 19,
    TooEarly = 20,
    Unsequenced = 26,
    Unserializable = 28,
    NotImpossible = 31,
}

// How a sheet is accepted, by the verdict's number: sound as it is, or with waits.
#[derive(Clone, Copy, PartialEq, Eq)]
pub enum Acceptance {
    WellPosed = 0,
    Serialized = 1,
}

// What judging a sheet answers.
pub type Verdict = Result<Acceptance, Refusal>;

// The dispatcher's state (the runner's); last in it the least durations that the run was begun with (request L6).
#[derive(Clone, Copy)]
pub struct State {
    pub n: usize,
    pub unbounded: u64,
    pub tick: u32,
    pub started: u64,
    pub finished: u64,
    pub start: [u32; 64],
    pub finish: [u32; 64],
    pub least: [u16; 64],
}

// The verdict, and the waits, bit a of map i, with their count: none on a refusal other than 12.
#[derive(Clone, Copy)]
pub struct WaitMaps {
    pub verdict: Verdict,
    pub maps: [u64; 64],
    pub count: u32,
}

// A call of the runner: a run of so many steps, with the map of those that are open, begins; the tick grows; a step finishes. An enum holds no array: the least durations that a run begins with
// stand beside it.
#[derive(Clone, Copy)]
pub enum Call {
    Begin(usize, u64),
    Tick,
    Finish(usize),
}

// What a call of the runner returns: whether it went through, the state after it and the map of the steps that it started.
#[derive(Clone, Copy)]
pub struct Dispatch {
    pub status: Result<(), Refusal>,
    pub state: State,
    pub map: u64,
}
