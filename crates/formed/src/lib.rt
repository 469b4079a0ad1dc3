// Whether a graph in memory is one that some file reads as.
#![tactic(auto)]

ghost use Rattle.std.specs.Prelude.{◌≡◌, ◌≤◌, ◌↔◌, IsTrue, length, All};
ghost use Rattle.formed.specs.Formed.{WellFormed, SideFormed, ChannelFormed, Places};

mod entry;
mod wellformed;

use entry::Entry;
use graph::{Channel, Graph, Side};
pub use wellformed::Formed;

// Whether each entry is zero.
fn zeros(list: &[u16]) -> bool
    ensures { IsTrue result ↔ All (λ x. x ≡ 0) list.now }
{
    list.iter().all(|x| *x == 0)
}

// Whether a side's counts are within the limits, its cycle has an entry, and zero stands beyond the counts.
fn side_formed(s: &Side) -> bool
    ensures { IsTrue result ↔ SideFormed s.now }
{
    s.plen <= Graph::PREFIX
        && (1..=Graph::CYCLE).contains(&s.clen)
        && zeros(&s.prefix[s.plen..])
        && zeros(&s.cycle[s.clen..])
}

// Whether a channel names two of so many tasks, its numbers are in range, and its sides are formed.
fn channel_formed(c: &Channel, count: usize) -> bool
    ensures { IsTrue result ↔ ChannelFormed count c.now }
{
    ranges::ends_in_range(c.producer, c.consumer, c.initial, c.size, count)
        && side_formed(&c.production)
        && side_formed(&c.consumption)
}

// Whether the first n places hold what fits among so many tasks, and the rest zero.
fn places<T: Entry>(items: &[T], n: usize, count: usize) -> bool
    requires { n ≤ length items.now }
    ensures { IsTrue result ↔ Places (T.Fits count) (length items.now) T.NONE n items.now }
{
    items[..n].iter().all(|item| item.fits(count)) && items[n..].iter().all(|item| item.is_none())
}

// Whether some file reads as the graph.
pub fn formed(graph: &Graph) -> bool
    ensures { IsTrue result ↔ WellFormed graph.now }
{
    let count = graph.ntasks;
    (1..=Graph::TASKS).contains(&count)
        && graph.nchannels <= Graph::CHANNELS
        && graph.nrelations <= Graph::RELATIONS
        && places(&graph.tasks, count, count)
        && places(&graph.channels, graph.nchannels, count)
        && places(&graph.relations, graph.nrelations, count)
}
