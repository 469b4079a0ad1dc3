// A graph that is well formed, as the lists that it stands for.
ghost use Rattle.std.specs.Prelude.{◌≡◌, ◌≤◌, SomeIff, map, length};
ghost use Rattle.numbers.specs.Lists.{All};
ghost use Rattle.graph.specs.Model.{max_tasks, max_channels, max_relations};
ghost use Rattle.graph.specs.Memory.{view, view_link};
ghost use Rattle.format.specs.Ranges.{TaskRange, RelationRange};
ghost use Rattle.format.specs.Writer.{Formed as FormedLists};
ghost use Rattle.formed.specs.Formed.{WellFormed, ChannelFormed};

use crate::formed;
use graph::{Channel, Graph, Relation, Task};
use std::marker::Model;

// A well-formed graph; what users of it see is its lists of tasks, channels and relations.
#[derive(Drop)]
pub struct Formed<'a> {
    graph: &'a Graph,
}

impl<'a> Model for Formed<'a> {
    ghost use Rattle.graph.specs.Model.{Graph as Lists};

    ghost Value = { Lists };

    ghost use Rattle.graph.specs.Memory as memory;
    ghost use Rattle.formed.specs.Formed.{WellFormed};

    ghost view = { λ f. memory.view f.graph.now };

    ghost invariant = { λ f. WellFormed f.graph.now };
}

impl<'a> Formed<'a> {
    // The lists of a graph that is well formed, and nothing of any other.
    pub fn of(graph: &'a Graph) -> Option<Self>
        ensures { SomeIff result (WellFormed graph.now) (view graph.now) }
    {
        if formed(graph) {
            Some(Self { graph })
        } else {
            None
        }
    }

    // The lists of a graph that is known to be well formed, as one that was just read.
    pub fn new(graph: &'a Graph) -> Self
        requires { WellFormed graph.now }
        ensures { result ≡ view graph.now }
    {
        Self { graph }
    }

    // The tasks, in range. `formed` is of all three lists: the rules count on it, and here is where they're taken up first.
    pub fn tasks(&self) -> &[Task]
        ensures list { result.now ≡ self.now.tasks }
        ensures some { 1 ≤ length result.now }
        ensures few { length result.now ≤ max_tasks }
        ensures in_range { All TaskRange result.now }
        ensures formed { FormedLists self.now }
    {
        &self.graph.tasks[..self.graph.ntasks]
    }

    // The channels, each between two of the tasks, and formed.
    pub fn channels(&self) -> &[Channel]
        ensures list { map view_link result.now ≡ self.now.channels }
        ensures few { length result.now ≤ max_channels }
        ensures formed { All (ChannelFormed (length self.now.tasks)) result.now }
    {
        &self.graph.channels[..self.graph.nchannels]
    }

    // The relations, each of two of the tasks, and in range.
    pub fn relations(&self) -> &[Relation]
        ensures list { result.now ≡ self.now.relations }
        ensures few { length result.now ≤ max_relations }
        ensures in_range { All (RelationRange (length self.now.tasks)) result.now }
    {
        &self.graph.relations[..self.graph.nrelations]
    }
}
