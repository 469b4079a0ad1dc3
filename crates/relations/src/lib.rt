// Test 10: relations, by their two equations in signed whole numbers.
#![tactic(auto)]

ghost use Rattle.std.specs.Prelude.{◌≡◌, ◌↔◌, IsTrue, length};
ghost use Rattle.numbers.specs.Lists.{All};
ghost use Rattle.reply.specs.Found.{Finds};
ghost use Rattle.format.specs.Ranges.{RelationRange};
ghost use Rattle.rules.specs.Given.{Of};
ghost use Rattle.rules.specs.Rules.{Holds, Fails};
ghost use Rattle.relations.specs.Find.{found, times};
ghost use Rattle.relations.specs.Relation.{Equations, Small, Both};

use graph::{Relation, Task};
use tasks::Tasks;

// A task's period and offset.
#[derive(Clone, Copy, PartialEq, Eq)]
pub struct Times {
    pub period: u32,
    pub offset: u32,
}

impl From<&Task> for Times {
    ghost from_gives = { λ task found. found ≡ times task.now };

    fn from(task: &Task) -> Times {
        Times {
            period: task.period,
            offset: task.offset,
        }
    }
}

// The period and offset of task i, or nothing where the number names no task.
pub fn find(tasks: &[Task], i: usize) -> Option<Times>
    ensures { result ≡ found tasks.now i }
{
    let task = tasks.get(i)?;
    Some(task.into())
}

// d × T_p = n × T_q, and n × (O_q − O_p) = φ × T_p.
fn equations(p: Times, q: Times, relation: &Relation) -> bool
    requires { Small p q relation.now }
    ensures { IsTrue result ↔ Equations p q relation.now }
{
    let n = i64::from(relation.n);
    let left = n * (i64::from(q.offset) - i64::from(p.offset));
    let right = i64::from(relation.phi) * i64::from(p.period);
    i64::from(relation.d) * i64::from(p.period) == n * i64::from(q.period) && left == right
}

// The relation holds among the tasks; where a number names none it does not.
fn holds(tasks: &Tasks, relation: &Relation) -> bool
    requires { RelationRange (length tasks.now) relation.now }
    ensures { Of tasks.now (λ g. IsTrue result ↔ Holds g relation.now) }
{
    let list = tasks.list();
    let (Some(p), Some(q)) = (
        find(list, usize::from(relation.p)),
        find(list, usize::from(relation.q)),
    ) else {
        return false;
    };
    equations(p, q, relation)
}

// Test 10: the first relation that is false.
// Kept: the ranges as a clause, since they are of the relations and of how many tasks there are.
pub fn false_relation(tasks: &Tasks, relations: &[Relation]) -> Option<usize>
    requires { All (RelationRange (length tasks.now)) relations.now }
    ensures { Both tasks.now relations.now (λ g. Finds (Fails g) (length relations.now) result) }
{
    relations
        .iter()
        .position(|relation| !holds(tasks, relation))
}
