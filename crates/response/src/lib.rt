// Test 11: response times, by the demand of the tasks that interfere.
#![tactic(auto)]

ghost use Rattle.std.specs.Prelude.{◌≡◌, ℕ, ◌+◌, ◌≤◌, ◌<◌, length, sum_by};
ghost use Rattle.numbers.specs.Numbers.{ceil};
ghost use Rattle.machine.specs.Machine.{above};
ghost use Rattle.graph.specs.Model.{Graph as Model, million, count, task};
ghost use Rattle.rules.specs.Given.{Of};
ghost use Rattle.rules.specs.Terms.{machine};
ghost use Rattle.response.specs.Rivals.{asked, hindrance, RivalRange, Searched};
ghost use Rattle.response.specs.Response.{Responds, Judged};

use arrayvec::ArrayVec;
use graph::{Graph, Task};
use std::marker::Model;
use tasks::{Tasks, cost};

// A task that takes the processor from another: what a job of it costs, and its period.
#[derive(Clone, Copy, Default)]
struct Rival {
    cost: u32,
    period: u32,
}

// The tasks that take the processor from one of a graph's.
#[derive(Drop)]
struct Rivals {
    list: ArrayVec<Rival, { Graph::TASKS }>,
}

impl Model for Rivals {
    ghost use Rattle.std.specs.Prelude.{List, ◌≤◌, length, All};
    ghost use Rattle.graph.specs.Model.{max_tasks};
    ghost use Rattle.response.specs.declared.Rival.{Rival};
    ghost use Rattle.response.specs.Rivals.{RivalRange};

    ghost Value = { List Rival };

    ghost view = { λ r. r.list.items };

    ghost invariant = { λ r. (length r.list.items ≤ max_tasks) × All RivalRange r.list.items };
}

// The jobs of a period that are released within w ticks.
// Kept: the sum. `div_ceil` divides and looks at the rest, and a search then took an eighth longer.
#[tactic(auto, unfolding(numbers::specs::Numbers::ceil))]
fn jobs(w: u32, period: u32) -> u32
    requires small { w ≤ million }
    requires some_period { 1 ≤ period }
    requires period_most { period ≤ million }
    ensures { result ≡ ceil w period }
{
    (w + (period - 1)) / period
}

impl Rival {
    // What its jobs ask for within w ticks.
    #[tactic(auto, unfolding(crate::specs::Rivals::asked))]
    fn asks(&self, w: u32) -> u64
        requires small { w ≤ million }
        requires in_range { RivalRange self.now }
        ensures { result ≡ asked w self.now }
    {
        u64::from(self.cost) * u64::from(jobs(w, self.period))
    }
}

// The other task takes the processor from this one.
fn interferes(other: &Task, one: &Task) -> bool
    ensures { (g : Model) (i j : ℕ) → task g i ≡ one.now → task g j ≡ other.now → result ≡ above (machine g) i j }
{
    other.priority < one.priority
}

// The rivals of task i.
fn rivals_of(tasks: &Tasks, i: usize) -> Rivals
    requires { i < length tasks.now }
    ensures { Of tasks.now (λ g. (w : ℕ) → sum_by (asked w) result ≡ hindrance g i (count g) w) }
{
    let list = tasks.list();
    let mine = &list[i];
    let mut rivals = ArrayVec::new();
    for other in list {
        if interferes(other, mine) {
            rivals.push(Rival {
                cost: cost(other),
                period: other.period,
            });
        }
    }
    Rivals { list: rivals }
}

impl Rivals {
    // The demand at w of a task that costs `own`, over these rivals.
    fn demand(&self, own: u32, w: u32) -> u64
        requires { w ≤ million }
        ensures { result ≡ own + sum_by (asked w) self.now }
    {
        u64::from(own) + self.list.iter().map(|rival| rival.asks(w)).sum::<u64>()
    }
}

// The least w from 1 to the limit whose demand is at most w.
fn search(own: u32, limit: u32, rivals: &Rivals) -> Option<u32>
    requires { limit ≤ million }
    ensures { Searched (λ w. own + sum_by (asked w) rivals.now) limit result }
{
    (1..limit + 1).find(|&w| rivals.demand(own, w) <= u64::from(w))
}

// The response of task i, or nothing where it is late.
// Kept out of its callers, so that the search has the registers to itself.
#[inline(never)]
pub fn respond(tasks: &Tasks, i: usize) -> Option<u32>
    requires { i < length tasks.now }
    ensures { Of tasks.now (λ g. Responds g i result) }
{
    let mine = &tasks.list()[i];
    let rivals = rivals_of(tasks, i);
    search(cost(mine), mine.deadline, &rivals)
}

// Test 11: the response of every task with zero behind them, or the first task that is late.
// Kept: all places of the array, since `Judged` says that zero stands behind the figures.
pub fn respond_all(tasks: &Tasks) -> Result<[u32; Graph::TASKS], usize>
    ensures { Of tasks.now (λ g. Judged g (length tasks.now) result) }
{
    let mut figures = [0; Graph::TASKS];
    let n = tasks.list().len();
    for (i, figure) in figures[..n].iter_mut().enumerate() {
        *figure = respond(tasks, i).ok_or(i)?;
    }
    Ok(figures)
}
