// One record at a place of a file: its kind, its fields, and the tests of it in their order.
#![tactic(auto)]

ghost use Rattle.std.specs.Prelude.{◌≡◌, ◌↔◌, ◌+◌, ◌≤◌, ◌<◌, suc, length, take, drop, IsTrue};
ghost use Rattle.graph.specs.Model.{million};
ghost use Rattle.format.specs.Reader.{InRange, State};
ghost use Rattle.format.specs.Record.{number, digits, size, decode, kind, rank};
ghost use Rattle.record.specs.Fields.{Names, meant, said};
ghost use Rattle.record.specs.Fronts.{Behind, Room, Tests, Judges, Tells};

use graph::{Graph, Relation, Task};
use ranges::{ends_in_range, relation_in_range, task_in_range};

// The kinds of records, by their bytes.
#[derive(Clone, Copy, PartialEq, Eq)]
pub enum Kind {
    Task = 1,
    Channel = 2,
    Rate = 3,
    Relation = 4,
}

// The tests of a record, in their order.
#[derive(Clone, Copy, PartialEq, Eq)]
pub enum Test {
    Unknown,
    Cut,
    Down,
    Range,
    Full,
}

// A channel's record: what the file says of a channel before its rates.
#[derive(Clone, Copy, PartialEq, Eq)]
pub struct Head {
    pub producer: u8,
    pub consumer: u8,
    pub initial: u32,
    pub size: u32,
}

// A rate's record: an entry of the list that channel, side and part name.
// Kept: side and part are numbers, as the file has them: `rank`, `ranges` and `limit` of format/specs speak of numbers, and the order of such entries is tested (3) before their range (4).
#[derive(Clone, Copy, PartialEq, Eq)]
pub struct Entry {
    pub channel: u8,
    pub side: u8,
    pub part: u8,
    pub tokens: u16,
}

// A record by its fields.
#[derive(Clone, Copy, PartialEq, Eq)]
pub enum Record {
    Task(Task),
    Channel(Head),
    Rate(Entry),
    Relation(Relation),
}

// What stands before a record: the least rank that it may have, and how many records of each kind there are.
#[derive(Clone, Copy, PartialEq, Eq)]
pub struct Counts {
    pub floor: u32,
    pub tasks: usize,
    pub channels: usize,
    pub relations: usize,
}

// The length of each body, by its kind's byte; no kind has the byte 0.
pub const BODY: [usize; 5] = [0, 17, 10, 5, 14];

impl TryFrom<u8> for Kind {
    type Error = Test;

    ghost try_from_gives = { Names };

    #[tactic(auto, unfolding(format::specs::Record::kind_of))]
    fn try_from(byte: u8) -> Result<Self, Test> {
        match byte {
            1 => Ok(Self::Task),
            2 => Ok(Self::Channel),
            3 => Ok(Self::Rate),
            4 => Ok(Self::Relation),
            _ => Err(Test::Unknown),
        }
    }
}

impl Kind {
    // The length of a body of the kind.
    pub fn body_length(self) -> usize
        ensures { result ≡ size (meant self) }
    {
        BODY[self as usize]
    }

    // The length of a record of the kind: the kind's byte and the body.
    pub fn record_length(self) -> usize
        ensures { result ≡ suc (size (meant self)) }
    {
        1 + self.body_length()
    }
}

// The part of the file from `at` on, at most `len` bytes of it.
pub fn body(file: &[u8], at: usize, len: usize) -> &[u8]
    ensures { result.now ≡ take len (drop at file.now) }
{
    let start = at.min(file.len());
    &file[start..start + len.min(file.len() - start)]
}

// What never goes down through a file, as one number.
// Kept: the sum. With `u32::from_be_bytes([kind, a, b, c])`, which waits until the bytes are stored, reading took longer than before it was tried.
// Kept: `kind` is a number, since its contract is promised to callers by number (`kind ≤ 4`).
pub fn rank_of(kind: u8, a: u8, b: u8, c: u8) -> u32
    requires { kind ≤ 4 }
    ensures { result ≡ digits kind a b c }
{
    u32::from(kind) * 16_777_216 + u32::from(a) * 65_536 + u32::from(b) * 256 + u32::from(c)
}

// The N bytes from `at` on.
fn bytes_at<const N: usize>(bytes: &[u8], at: usize) -> [u8; N]
    requires { at + N ≤ length bytes.now }
    ensures { result ≡ take N (drop at bytes.now) }
{
    bytes[at..at + N].try_into().unwrap()
}

impl Head {
    // Whether it names two of so many tasks, and its numbers are in range.
    fn in_range(&self, tasks: usize) -> bool
        ensures { IsTrue result ↔ (self.now.producer < tasks) × (self.now.consumer < tasks) × (self.now.initial ≤ million) × (self.now.size ≤ million) }
    {
        ends_in_range(self.producer, self.consumer, self.initial, self.size, tasks)
    }
}

impl Entry {
    // Whether it names one of so many channels, a side and a part.
    fn in_range(&self, channels: usize) -> bool
        ensures { IsTrue result ↔ (self.now.channel < channels) × (self.now.side ≤ 1) × (self.now.part ≤ 1) }
    {
        usize::from(self.channel) < channels && self.side <= Graph::ONE && self.part <= Graph::ONE
    }
}

impl Record {
    // Its kind.
    pub fn kind(&self) -> Kind
        ensures { meant result ≡ kind (said self.now) }
    {
        match self {
            Self::Task(_) => Kind::Task,
            Self::Channel(_) => Kind::Channel,
            Self::Rate(_) => Kind::Rate,
            Self::Relation(_) => Kind::Relation,
        }
    }

    // How many bytes it has in a file.
    pub fn length(&self) -> usize
        ensures { result ≡ suc (size (kind (said self.now))) }
    {
        self.kind().record_length()
    }

    // Its rank, which never goes down through a file.
    #[tactic(auto, unfolding(format::specs::Record::rank))]
    pub fn rank(&self) -> u32
        ensures { result ≡ rank (said self.now) }
    {
        match self {
            Self::Task(_) => rank_of(Kind::Task as u8, 0, 0, 0),
            Self::Channel(_) => rank_of(Kind::Channel as u8, 0, 0, 0),
            Self::Rate(e) => rank_of(Kind::Rate as u8, e.channel, e.side, e.part),
            Self::Relation(_) => rank_of(Kind::Relation as u8, 0, 0, 0),
        }
    }

    // The record where it is not below the floor, its fields are in range and there is room for it, or the first of these tests that fires.
    fn tested<R: FnOnce() -> bool, F: FnOnce() -> bool>(
        self,
        floor: u32,
        in_range: R,
        has_room: F,
    ) -> Result<Self, Test>
        requires in_range { R.IsAlwaysCallable in_range }
        requires has_room { F.IsAlwaysCallable has_room }
        ensures { (s : State) → s.floor ≡ floor → Tests (R.post in_range) (InRange s.graph (said self)) → Tests (F.post has_room) (Room s (said self)) → Judges s (said self) result }
    {
        if self.rank() < floor {
            return Err(Test::Down);
        }
        if !in_range() {
            return Err(Test::Range);
        }
        if !has_room() {
            return Err(Test::Full);
        }
        Ok(self)
    }

    // The record that a body of the kind holds, or the first test of the body that fires.
    fn read(kind: Kind, bytes: &[u8], behind: &Counts) -> Result<Self, Test>
        requires { length bytes.now ≡ size (meant kind) }
        ensures { (s : State) → Behind s behind.now → Judges s (decode (meant kind) bytes.now) result }
    {
        match kind {
            Kind::Task => {
                let task = Task {
                    period: u32::from_be_bytes(bytes_at(bytes, 0)),
                    offset: u32::from_be_bytes(bytes_at(bytes, 4)),
                    deadline: u32::from_be_bytes(bytes_at(bytes, 8)),
                    worst: u32::from_be_bytes(bytes_at(bytes, 12)),
                    priority: bytes[16],
                };
                Self::Task(task).tested(
                    behind.floor,
                    || task_in_range(&task),
                    || behind.tasks < Graph::TASKS,
                )
            }
            Kind::Channel => {
                let head = Head {
                    producer: bytes[0],
                    consumer: bytes[1],
                    initial: u32::from_be_bytes(bytes_at(bytes, 2)),
                    size: u32::from_be_bytes(bytes_at(bytes, 6)),
                };
                Self::Channel(head).tested(
                    behind.floor,
                    || head.in_range(behind.tasks),
                    || behind.channels < Graph::CHANNELS,
                )
            }
            Kind::Rate => {
                let entry = Entry {
                    channel: bytes[0],
                    side: bytes[1],
                    part: bytes[2],
                    tokens: u16::from_be_bytes(bytes_at(bytes, 3)),
                };
                Self::Rate(entry).tested(behind.floor, || entry.in_range(behind.channels), || true)
            }
            Kind::Relation => {
                let relation = Relation {
                    p: bytes[0],
                    q: bytes[1],
                    n: u32::from_be_bytes(bytes_at(bytes, 2)),
                    phi: u32::from_be_bytes(bytes_at(bytes, 6)).cast_signed(),
                    d: u32::from_be_bytes(bytes_at(bytes, 10)),
                };
                Self::Relation(relation).tested(
                    behind.floor,
                    || relation_in_range(&relation, behind.tasks),
                    || behind.relations < Graph::RELATIONS,
                )
            }
        }
    }
}

// The record at a place of the file, or the first test that fires there.
// Of a rate the fifth test is still to come: it asks for the list that the rate goes into.
pub fn front_at(file: &[u8], at: usize, behind: &Counts) -> Result<Record, Test>
    requires { at < length file.now }
    ensures { (s : State) → Behind s behind.now → Tells file.now s at result }
{
    let kind = Kind::try_from(file[at])?;
    let len = kind.body_length();
    let start = at + 1;
    let bytes = body(file, start, len);
    if bytes.len() < len {
        return Err(Test::Cut);
    }
    Record::read(kind, bytes, behind)
}
