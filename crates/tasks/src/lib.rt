// Tests 8 and 12: a priority seen before, and the load.
#![tactic(auto)]

ghost use Rattle.std.specs.Prelude.{◌≡◌, ◌≤◌, ◌↔◌, IsTrue, Any, sum_by, length, ltb};
ghost use Rattle.graph.specs.Model.{max_tasks};
ghost use Rattle.reply.specs.Found.{Finds};
ghost use Rattle.numbers.specs.Lists.{All};
ghost use Rattle.format.specs.Ranges.{TaskRange};
ghost use Rattle.rules.specs.Given.{Of};
ghost use Rattle.rules.specs.Rules.{Repeats, load};
ghost use Rattle.rules.specs.Terms.{cost_of};
ghost use Rattle.tasks.specs.Tasks.{share};

use graph::Task;
use std::marker::Model;

// The tasks of a graph that a file can hold: not too many, each in range.
#[derive(Drop)]
pub struct Tasks<'a> {
    list: &'a [Task],
}

impl<'a> Model for Tasks<'a> {
    ghost use Rattle.std.specs.Prelude.{List, ◌≤◌, length};
    ghost use Rattle.graph.specs.declared.Task.{Task};
    ghost use Rattle.graph.specs.Model.{max_tasks};
    ghost use Rattle.numbers.specs.Lists.{All};
    ghost use Rattle.format.specs.Ranges.{TaskRange};

    ghost Value = { List Task };

    ghost view = { λ t. t.list.now };

    ghost invariant = { λ t. (length t.list.now ≤ max_tasks) × All TaskRange t.list.now };
}

impl<'a> Tasks<'a> {
    // The tasks of a list that is known to be in range.
    pub fn new(list: &'a [Task]) -> Self
        requires few { length list.now ≤ max_tasks }
        requires in_range { All TaskRange list.now }
        ensures { result ≡ list.now }
    {
        Self { list }
    }

    // The list of them.
    pub fn list(&self) -> &[Task]
        ensures same { result.now ≡ self.now }
        ensures few { length self.now ≤ max_tasks }
        ensures in_range { All TaskRange self.now }
    {
        self.list
    }
}

// One of the earlier tasks has the priority of this one.
fn seen(earlier: &[Task], task: &Task) -> bool
    ensures { IsTrue result ↔ Any (λ other. other.priority ≡ task.now.priority) earlier.now }
{
    earlier.iter().any(|other| other.priority == task.priority)
}

// Test 8: the first task whose priority was seen before.
// Kept: by place, since each task is compared with those before it.
pub fn same_priority(tasks: &[Task]) -> Option<usize>
    ensures { Of tasks.now (λ g. Finds (Repeats g) (length tasks.now) result) }
{
    (0..tasks.len()).find(|&i| seen(&tasks[..i], &tasks[i]))
}

// The ticks that a job of the task costs at most.
pub fn cost(task: &Task) -> u32
    ensures { result ≡ cost_of task.now }
{
    task.worst
}

// The task's share of the load, in millionths, rounded down.
#[tactic(auto, unfolding(crate::specs::Tasks::share))]
fn share_of(task: &Task) -> u64
    requires { TaskRange task.now }
    ensures { result ≡ share task.now }
{
    u64::from(cost(task)) * 1_000_000 / u64::from(task.period)
}

// The shares of all of them.
#[tactic(auto, using(crate::proofs::Load::shares_fit))]
fn total_share(tasks: &Tasks) -> u64
    ensures { result ≡ sum_by share tasks.now }
{
    tasks.list().iter().map(share_of).sum()
}

// Test 12: the shares add up to more than a million.
pub fn overloaded(tasks: &Tasks) -> bool
    ensures { Of tasks.now (λ g. result ≡ ltb 1_000_000 (load g)) }
{
    1_000_000 < total_share(tasks)
}
