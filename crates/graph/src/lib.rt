// A graph in memory: its types, its limits, and the lookup of a job's rate.
#![tactic(auto)]

ghost use Rattle.std.specs.Prelude.{◌≡◌, ◌<◌};
ghost use Rattle.graph.specs.Memory.{empty_memory};
ghost use Rattle.graph.specs.Rates.{list_of, place_in, rate_of};

// A periodic task. Times are ticks; priority 1 is the highest.
#[derive(Clone, Copy, PartialEq, Eq)]
pub struct Task {
    pub period: u32,
    pub offset: u32,
    pub deadline: u32,
    pub worst: u32,
    pub priority: u8,
}

// The rates of one side of a channel: the first `plen` places of the prefix and the first `clen` of the cycle count.
// Kept: arrays with a count beside each, since the rules fix the fields of a graph in memory.
#[derive(Clone, Copy, PartialEq, Eq)]
pub struct Side {
    pub prefix: [u16; Graph::PREFIX],
    pub plen: usize,
    pub cycle: [u16; Graph::CYCLE],
    pub clen: usize,
}

// A queue from one task to another.
#[derive(Clone, Copy, PartialEq, Eq)]
pub struct Channel {
    pub producer: u8,
    pub consumer: u8,
    pub initial: u32,
    pub size: u32,
    pub production: Side,
    pub consumption: Side,
}

// A relation (n, φ, d) of the tasks p and q.
#[derive(Clone, Copy, PartialEq, Eq)]
pub struct Relation {
    pub p: u8,
    pub q: u8,
    pub n: u32,
    pub phi: i32,
    pub d: u32,
}

// A graph: the first places of each array, up to its count, and zero behind them.
// Kept: arrays with a count beside each, since the rules fix the fields of a graph in memory.
#[derive(Clone, Copy, PartialEq, Eq)]
pub struct Graph {
    pub tasks: [Task; Graph::TASKS],
    pub ntasks: usize,
    pub channels: [Channel; Graph::CHANNELS],
    pub nchannels: usize,
    pub relations: [Relation; Graph::RELATIONS],
    pub nrelations: usize,
}

impl Task {
    pub const NONE: Self = Self {
        period: 0,
        offset: 0,
        deadline: 0,
        worst: 0,
        priority: 0,
    };
}

impl Side {
    pub const NONE: Self = Self {
        prefix: [0; Graph::PREFIX],
        plen: 0,
        cycle: [0; Graph::CYCLE],
        clen: 0,
    };
}

impl Channel {
    pub const NONE: Self = Self {
        producer: 0,
        consumer: 0,
        initial: 0,
        size: 0,
        production: Side::NONE,
        consumption: Side::NONE,
    };
}

impl Relation {
    pub const NONE: Self = Self {
        p: 0,
        q: 0,
        n: 0,
        phi: 0,
        d: 0,
    };
}

impl Graph {
    // how many of each there may be
    pub const TASKS: usize = 32;

    pub const CHANNELS: usize = 64;

    pub const RELATIONS: usize = 64;

    pub const PREFIX: usize = 16;

    pub const CYCLE: usize = 32;
    // the largest period, offset, initial, size, n, d and phase; the least phase; the largest priority, side and part
    pub const MILLION: u32 = 1_000_000;

    pub const PHASE: i32 = 1_000_000;

    pub const LEAST_PHASE: i32 = -1_000_000;

    pub const PRIORITY: u8 = 255;

    pub const ONE: u8 = 1;

    pub const EMPTY: Self = Self {
        tasks: [Task::NONE; Self::TASKS],
        ntasks: 0,
        channels: [Channel::NONE; Self::CHANNELS],
        nchannels: 0,
        relations: [Relation::NONE; Self::RELATIONS],
        nrelations: 0,
    };

    // The graph without a task, a channel or a relation.
    #[tactic(auto, unfolding(crate::specs::Memory::laid, crate::specs::Memory::pad))]
    pub fn empty() -> Self
        ensures { result ≡ empty_memory }
    {
        Self::EMPTY
    }
}

// The list that the rate of job m stands in: the prefix where it has an entry m, otherwise the cycle.
#[tactic(auto, unfolding(crate::specs::Rates::list_of))]
pub fn list_at<'a>(prefix: &'a [u16], cycle: &'a [u16], m: u64) -> &'a [u16]
    ensures { result.now ≡ list_of prefix.now cycle.now m }
{
    if m < prefix.len() as u64 {
        prefix
    } else {
        cycle
    }
}

// The place of that rate in its list, by the lengths of prefix and cycle; 0 in an empty cycle. The first turn needs no division.
#[tactic(auto, using(crate::proofs::Rates::place_first_turn), unfolding(crate::specs::Rates::place_in))]
pub fn place_at(plen: usize, clen: usize, m: u64) -> usize
    ensures { result ≡ place_in plen clen m }
{
    if m < plen as u64 {
        return m as usize;
    }
    let past = m - plen as u64;
    if past < clen as u64 {
        return past as usize;
    }
    if 0 < clen {
        (past % clen as u64) as usize
    } else {
        0
    }
}

// The rate of job m; 0 past the prefix of a side whose cycle is empty.
#[tactic(auto, unfolding(crate::specs::Rates::rate_of))]
pub fn rate_at(prefix: &[u16], cycle: &[u16], m: u64) -> u16
    ensures { result ≡ rate_of prefix.now cycle.now m }
{
    let list = list_at(prefix, cycle, m);
    let place = place_at(prefix.len(), cycle.len(), m);
    list.get(place).copied().unwrap_or(0)
}
