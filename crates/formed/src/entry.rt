// What stands in the arrays of a graph: entries among so many tasks, and behind them the zero of their sort.
ghost use Rattle.std.specs.Prelude.{◌≡◌, ◌↔◌, IsTrue, ℕ, true};
ghost use Rattle.std.proofs.Common.{rules};
ghost use Rattle.graph.specs.Model.{no_task, no_relation};
ghost use Rattle.graph.specs.Memory.{zero_link};
ghost use Rattle.format.specs.Ranges.{TaskRange, RelationRange};
ghost use Rattle.formed.specs.Formed.{ChannelFormed};

use graph::{Channel, Relation, Task};

pub trait Entry: PartialEq + Copy {
    const NONE: Self;

    ghost NONE: { Self };

    ghost Fits: { ℕ → Self → Type 0 };

    // Whether the entry fits among so many tasks.
    fn fits(&self, count: usize) -> bool
        ensures { IsTrue result ↔ Fits count self.now };

    // Whether it is the zero of its sort.
    fn is_none(&self) -> bool
        ensures { IsTrue result ↔ (self.now ≡ NONE) }
    {
        *self == Self::NONE
    }

    ghost eq_is_same: { (x y : Self) → (Self.eq x y ≡ true) ↔ (x ≡ y) };
}

impl Entry for Task {
    const NONE: Self = Task::NONE;

    ghost NONE = { no_task };

    ghost Fits = { λ count t. TaskRange t };

    ghost eq_is_same = { Prim.search rules };

    fn fits(&self, _count: usize) -> bool {
        ranges::task_in_range(self)
    }
}

impl Entry for Channel {
    const NONE: Self = Channel::NONE;

    ghost NONE = { zero_link };

    ghost Fits = { ChannelFormed };

    ghost eq_is_same = { Prim.search rules };

    fn fits(&self, count: usize) -> bool {
        crate::channel_formed(self, count)
    }
}

impl Entry for Relation {
    const NONE: Self = Relation::NONE;

    ghost NONE = { no_relation };

    ghost Fits = { RelationRange };

    ghost eq_is_same = { Prim.search rules };

    fn fits(&self, count: usize) -> bool {
        ranges::relation_in_range(self, count)
    }
}
