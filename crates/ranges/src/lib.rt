// The ranges of a record's fields: of a record that a file holds, and of a graph in memory.
#![tactic(auto)]

ghost use Rattle.std.specs.Prelude.{◌↔◌, IsTrue, ◌≤◌, ◌<◌};
ghost use Rattle.graph.specs.Model.{million};
ghost use Rattle.format.specs.Ranges.{TaskRange, RelationRange};

use graph::{Graph, Relation, Task};

// Whether a task's fields are in range.
pub fn task_in_range(t: &Task) -> bool
    ensures { IsTrue result ↔ TaskRange t.now }
{
    (1..=Graph::MILLION).contains(&t.period)
        && t.offset <= Graph::MILLION
        && (1..=t.period).contains(&t.deadline)
        && (1..=t.deadline).contains(&t.worst)
        && 1 <= t.priority
}

// Whether a channel's record names two of so many tasks, and its numbers are in range.
// Kept: four numbers, since a record's head and a channel in memory both hold them; one struct for both would be copied at each call and no plainer.
pub fn ends_in_range(producer: u8, consumer: u8, initial: u32, size: u32, count: usize) -> bool
    ensures { IsTrue result ↔ (producer < count) × (consumer < count) × (initial ≤ million) × (size ≤ million) }
{
    usize::from(producer) < count
        && usize::from(consumer) < count
        && initial <= Graph::MILLION
        && size <= Graph::MILLION
}

// Whether a relation names two of so many tasks, and its numbers are in range.
pub fn relation_in_range(r: &Relation, count: usize) -> bool
    ensures { IsTrue result ↔ RelationRange count r.now }
{
    usize::from(r.p) < count
        && usize::from(r.q) < count
        && (1..=Graph::MILLION).contains(&r.n)
        && (Graph::LEAST_PHASE..=Graph::PHASE).contains(&r.phi)
        && (1..=Graph::MILLION).contains(&r.d)
}
