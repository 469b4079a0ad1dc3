// The writer: a graph in memory to a graph file.
#![tactic(auto)]

ghost use Rattle.std.specs.Prelude.{◌≡◌, map, ◌≤◌, length};
ghost use Rattle.graph.specs.Memory.{view_rates, view_link};
ghost use Rattle.format.specs.Record.{Record, encode, encodes, task, rate, relation};
ghost use Rattle.format.specs.Writer.{rates_of, rates_from, bytes};
ghost use Rattle.record.specs.Fields.{entered};
ghost use Rattle.output.specs.Cursor.{HasRoom, Wrote};
ghost use Rattle.writer.specs.Parts.{head_of, side_records, SideFits, ChannelFits};
ghost use Rattle.writer.specs.Writing.{Writes};

use formed::Formed;
use graph::{Channel, Graph, Relation, Side, Task};
use output::Cursor;
use record::{Entry, Kind};
use reply::{Refusal, Reply};

// What a file has one record for.
trait Item {
    ghost as_record: { Self → Record };

    // Writes the item's record.
    fn put(&self, to: &mut Cursor)
        requires { HasRoom to.old (length (encode (as_record self.now))) }
        ensures { Wrote to.old (encode (as_record self.now)) to.new };
}

impl Item for Task {
    ghost as_record = { task };

    #[tactic(auto, unfolding(format::specs::Record::be, format::specs::Record::join))]
    fn put(&self, to: &mut Cursor) {
        to.put(&[Kind::Task as u8]);
        to.put(&self.period.to_be_bytes());
        to.put(&self.offset.to_be_bytes());
        to.put(&self.deadline.to_be_bytes());
        to.put(&self.worst.to_be_bytes());
        to.put(&[self.priority]);
    }
}

impl Item for Channel {
    ghost as_record = { head_of };

    #[tactic(auto, unfolding(format::specs::Record::be, format::specs::Record::join))]
    fn put(&self, to: &mut Cursor) {
        to.put(&[Kind::Channel as u8, self.producer, self.consumer]);
        to.put(&self.initial.to_be_bytes());
        to.put(&self.size.to_be_bytes());
    }
}

impl Item for Entry {
    ghost as_record = { entered };

    #[tactic(auto, unfolding(format::specs::Record::be, format::specs::Record::join))]
    fn put(&self, to: &mut Cursor) {
        to.put(&[Kind::Rate as u8, self.channel, self.side, self.part]);
        to.put(&self.tokens.to_be_bytes());
    }
}

impl Item for Relation {
    ghost as_record = { relation };

    #[tactic(auto, unfolding(format::specs::Record::be, format::specs::Record::join))]
    fn put(&self, to: &mut Cursor) {
        to.put(&[Kind::Relation as u8, self.p, self.q]);
        to.put(&self.n.to_be_bytes());
        to.put(&self.phi.cast_unsigned().to_be_bytes());
        to.put(&self.d.to_be_bytes());
    }
}

// The records of the items.
fn put_all<T: Item>(items: &[T], to: &mut Cursor)
    requires { HasRoom to.old (length (encodes (map T.as_record items.now))) }
    ensures { Wrote to.old (encodes (map T.as_record items.now)) to.new }
{
    for item in items {
        item.put(to);
    }
}

// The records of one list of rates. Kept: side and part are numbers as in `Entry`, here and below.
fn put_list(list: &[u16], channel: u8, side: u8, part: u8, to: &mut Cursor)
    requires { HasRoom to.old (length (encodes (map (rate channel side part) list.now))) }
    ensures { Wrote to.old (encodes (map (rate channel side part) list.now)) to.new }
{
    for tokens in list {
        let entry = Entry {
            channel,
            side,
            part,
            tokens: *tokens,
        };
        entry.put(to);
    }
}

// The records of one side of a channel: its prefix and then its cycle.
fn put_side(s: &Side, channel: u8, side: u8, to: &mut Cursor)
    requires fits { SideFits s.now }
    requires room { HasRoom to.old (length (encodes (side_records channel side (view_rates s.now)))) }
    ensures { Wrote to.old (encodes (side_records channel side (view_rates s.now))) to.new }
{
    put_list(&s.prefix[..s.plen], channel, side, 0, to);
    put_list(&s.cycle[..s.clen], channel, side, 1, to);
}

// The records of the rates of channel i: production and then consumption.
fn put_rates_of(c: &Channel, i: u8, to: &mut Cursor)
    requires fits { ChannelFits c.now }
    requires room { HasRoom to.old (length (encodes (rates_of i (view_link c.now)))) }
    ensures { Wrote to.old (encodes (rates_of i (view_link c.now))) to.new }
{
    put_side(&c.production, i, 0, to);
    put_side(&c.consumption, i, 1, to);
}

// The records of the rates of all channels.
fn put_rates(graph: &Formed, to: &mut Cursor)
    requires { HasRoom to.old (length (encodes (rates_from 0 graph.now.channels))) }
    ensures { Wrote to.old (encodes (rates_from 0 graph.now.channels)) to.new }
{
    let channels = graph.channels();
    for (i, c) in channels.iter().enumerate() {
        put_rates_of(c, i as u8, to);
    }
}

// How many entries the rates of the channels have.
fn entries_of(graph: &Formed) -> usize
    ensures { result ≡ length (rates_from 0 graph.now.channels) }
{
    let channels = graph.channels();
    let mut total = 0;
    for c in channels {
        total += c.production.plen + c.production.clen;
        total += c.consumption.plen + c.consumption.clen;
    }
    total
}

// The length of the graph's file.
fn length_of(graph: &Formed) -> usize
    ensures { result ≡ length (bytes graph.now) }
{
    graph.tasks().len() * Kind::Task.record_length()
        + graph.channels().len() * Kind::Channel.record_length()
        + entries_of(graph) * Kind::Rate.record_length()
        + graph.relations().len() * Kind::Relation.record_length()
}

// The graph's file.
fn put_graph(graph: &Formed, to: &mut Cursor)
    requires { HasRoom to.old (length (bytes graph.now)) }
    ensures { Wrote to.old (bytes graph.now) to.new }
{
    put_all(graph.tasks(), to);
    put_all(graph.channels(), to);
    put_rates(graph, to);
    put_all(graph.relations(), to);
}

// Writes the graph's file into the first bytes of the output. Nothing is written where the graph has no file or the output is shorter than it.
pub fn write(graph: &Graph, out: &mut [u8]) -> Reply
    ensures { Writes graph.now out.old result out.new }
{
    let Some(formed) = Formed::of(graph) else {
        return Err(Refusal::NoFile);
    };
    let needed = length_of(&formed);
    if out.len() < needed {
        return Err(Refusal::ShortOutput { needed });
    }
    put_graph(&formed, &mut Cursor::new(out));
    Ok(graph.ntasks)
}
