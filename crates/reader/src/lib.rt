// The reader of graph files: record by record from the front, each test in its order, into a graph.
#![tactic(auto)]

ghost use Rattle.std.specs.Prelude.{◌≡◌, map};
ghost use Rattle.graph.specs.Model.{Rates, Graph as Model, bare};
ghost use Rattle.graph.specs.Memory.{laid, laid_rates, laid_link};
ghost use Rattle.format.specs.Reader.{stop_reply};
ghost use Rattle.reader.specs.Records.{Appends, Pushes, Names, Stores, test_of, Ended};
ghost use Rattle.reader.specs.Reading.{FirstHollow, Parses, Gives};

use graph::{Channel, Graph, Side};
use record::{Counts, Head, Record, Test};
use reply::{Refusal, Reply};

// What reading a file gives: the reply beside the graph, which is the empty one on a refusal.
// Kept: what `read` promises (`Gives`) names the graph of a refusal too; `parse` gives the Result.
#[derive(Clone, Copy, PartialEq, Eq)]
pub struct Reading {
    pub reply: Reply,
    pub graph: Graph,
}

// An item behind the others of a list, where the list's array has a place for it.
fn append<T: Copy>(places: &mut [T], count: &mut usize, item: T) -> Result<(), Test>
    ensures { Appends places.old count.old item places.new count.new result }
{
    if *count >= places.len() {
        return Err(Test::Full);
    }
    places[*count] = item;
    *count += 1;
    Ok(())
}

// An entry behind the others of its part, 0 or 1 as in `record::Entry`.
fn push(side: &mut Side, part: u8, tokens: u16) -> Result<(), Test>
    ensures { (r : Rates) → side.old ≡ laid_rates r → Pushes r part tokens side.new result }
{
    match part {
        0 => append(&mut side.prefix, &mut side.plen, tokens),
        _ => append(&mut side.cycle, &mut side.clen, tokens),
    }
}

// A channel without rates.
// Kept: a function for its one caller; `From` would have to stand in another crate.
#[tactic(auto, unfolding(graph::specs::Memory::pad))]
fn bare(head: &Head) -> Channel
    ensures { result ≡ laid_link (bare head.now.producer head.now.consumer head.now.initial head.now.size) }
{
    Channel {
        producer: head.producer,
        consumer: head.consumer,
        initial: head.initial,
        size: head.size,
        ..Channel::NONE
    }
}

// Puts a record where it belongs; where its list is full, the graph stays as it was. A rate's side is 0 or 1 as in `record::Entry`.
fn store(graph: &mut Graph, record: &Record) -> Result<(), Test>
    requires { (g : Model) × (graph.old ≡ laid g) × Names g «record».now }
    ensures { (g : Model) → graph.old ≡ laid g → Names g «record».now → Stores g «record».now graph.new result }
{
    match record {
        Record::Task(task) => append(&mut graph.tasks, &mut graph.ntasks, *task),
        Record::Channel(head) => append(&mut graph.channels, &mut graph.nchannels, bare(head)),
        Record::Rate(entry) => {
            let channel = &mut graph.channels[usize::from(entry.channel)];
            match entry.side {
                0 => push(&mut channel.production, entry.part, entry.tokens),
                _ => push(&mut channel.consumption, entry.part, entry.tokens),
            }
        }
        Record::Relation(relation) => append(
            &mut graph.relations,
            &mut graph.nrelations,
            *relation,
        ),
    }
}

// The refusal where a test fires at a place.
// Kept: a function, since `From` takes no place.
fn refusal(test: Test, at: usize) -> Refusal
    ensures { result ≡ stop_reply (test_of test) at }
{
    match test {
        Test::Unknown => Refusal::UnknownKind { at },
        Test::Cut => Refusal::CutShort { at },
        Test::Down => Refusal::OutOfOrder { at },
        Test::Range => Refusal::OutOfRange { at },
        Test::Full => Refusal::TooMany { at },
    }
}

// The graph that the records make, up to the end of the file or the first that a test stops.
// Kept: the loop goes by places, since each record's length is known only once it is read.
fn records(file: &[u8]) -> Result<Graph, Refusal>
    ensures { Ended file.now result }
{
    let mut graph = Graph::EMPTY;
    let mut floor = 0;
    let mut at = 0;
    while at < file.len() {
        let behind = Counts {
            floor,
            tasks: graph.ntasks,
            channels: graph.nchannels,
            relations: graph.nrelations,
        };
        let record = record::front_at(file, at, &behind).map_err(|test| refusal(test, at))?;
        store(&mut graph, &record).map_err(|test| refusal(test, at))?;
        floor = record.rank();
        at += record.length();
    }
    Ok(graph)
}

// The first cycle without entries, by its place 2 × channel + side.
// Kept: the place is a number, since the reply's own number says it so (`EmptyCycle` in `numbered` of reply/specs).
fn hollow(channels: &[Channel]) -> Option<usize>
    ensures { (g : Model) → channels.now ≡ map laid_link g.channels → FirstHollow g result }
{
    for (i, channel) in channels.iter().enumerate() {
        if channel.production.clen == 0 {
            return Some(2 * i);
        }
        if channel.consumption.clen == 0 {
            return Some(2 * i + 1);
        }
    }
    None
}

// The graph of a file: its records, then the tests of the whole, a task and an entry in each cycle.
pub fn parse(file: &[u8]) -> Result<Graph, Refusal>
    ensures { Parses file.now result }
{
    let graph = records(file)?;
    if graph.ntasks == 0 {
        return Err(Refusal::NoTask);
    }
    match hollow(&graph.channels[..graph.nchannels]) {
        Some(place) => Err(Refusal::EmptyCycle { place }),
        None => Ok(graph),
    }
}

// The reply to a file, and the graph that it holds or the empty one.
pub fn read(file: &[u8]) -> Reading
    ensures { Gives file.now result }
{
    match parse(file) {
        Ok(graph) => Reading {
            reply: Ok(graph.ntasks),
            graph,
        },
        Err(refusal) => Reading {
            reply: Err(refusal),
            graph: Graph::EMPTY,
        },
    }
}
