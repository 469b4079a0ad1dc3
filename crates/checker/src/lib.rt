// The checker: the tests in their order, and the report.
#![tactic(auto)]

ghost use Rattle.std.specs.Prelude.{◌≡◌, ℕ, length, Some, Err};
ghost use Rattle.graph.specs.Memory.{view_link};
ghost use Rattle.numbers.specs.Lists.{All};
ghost use Rattle.format.specs.Ranges.{RelationRange};
ghost use Rattle.rules.specs.Given.{Of};
ghost use Rattle.checker.specs.Outcome.{Behind, Times, Tested};
ghost use Rattle.rules.specs.Check as rules;
ghost use Rattle.rules.specs.Terms.{window_of};
ghost use Rattle.formed.specs.Formed.{ChannelFormed};
ghost use Rattle.checker.specs.Check.{Judges, ChecksGraph, ChecksFile};
ghost use Rattle.checker.specs.Channels.{Tells, Made};

use channel::Fault;
use formed::Formed;
use graph::{Channel, Graph, Relation, Task};
use reply::{Refusal, Reply};
use tasks::Tasks;

// Tests 8 and 9: priorities, and the room in the report.
fn task_tests(tasks: &Tasks, room: usize) -> Result<(), Refusal>
    ensures { Behind 8 10 room (λ g. g.tasks ≡ tasks.now) result }
{
    let list = tasks.list();
    if let Some(task) = tasks::same_priority(list) {
        return Err(Refusal::SamePriority { task });
    }
    if room < list.len() {
        return Err(Refusal::ShortReport { tasks: list.len() });
    }
    Ok(())
}

// Test 10: the relations.
// Kept: that they are in range as a clause, since it is of the relations and of how many tasks there are.
fn relation_tests(tasks: &Tasks, relations: &[Relation]) -> Result<(), Refusal>
    requires { All (RelationRange (length tasks.now)) relations.now }
    ensures { (room : ℕ) → Behind 10 11 room (λ g. (g.tasks ≡ tasks.now) × (g.relations ≡ relations.now)) result }
{
    if let Some(relation) = relations::false_relation(tasks, relations) {
        return Err(Refusal::FalseRelation { relation });
    }
    Ok(())
}

// Tests 11 and 12: late tasks, and the load; the response times where neither fires.
fn time_tests(tasks: &Tasks) -> Result<[u32; Graph::TASKS], Refusal>
    ensures behind { (room : ℕ) → Behind 11 13 room (λ g. g.tasks ≡ tasks.now) result }
    ensures times { Of tasks.now (λ g. Times g result) }
{
    let figures = response::respond_all(tasks).map_err(|task| Refusal::Late { task })?;
    if tasks::overloaded(tasks) {
        return Err(Refusal::Overloaded);
    }
    Ok(figures)
}

// What a fault of a channel is told as.
// Kept: a function, since `From` takes no channel.
fn refusal_of(channel: usize, fault: Fault) -> Refusal
    ensures { rules.refusal channel (Err fault) ≡ Some result }
{
    match fault {
        Fault::InitialAboveSize => Refusal::InitialAboveSize { channel },
        Fault::Unbalanced => Refusal::Unbalanced { channel },
        Fault::WindowTooLong => Refusal::WindowTooLong { channel },
        Fault::Underflow { job } => Refusal::Underflow { channel, job },
        Fault::Overflow { job } => Refusal::Overflow { channel, job },
    }
}

// The length of a job's window.
fn window(task: &Task) -> u32
    ensures { result ≡ window_of task.now }
{
    task.deadline
}

// Tests 13 to 17 of channel c.
// Kept: that it is formed as a clause, here and below, since it is of the channel and of how many tasks there are.
fn channel_test(tasks: &Tasks, c: usize, channel: &Channel) -> Result<(), Refusal>
    requires { ChannelFormed (length tasks.now) channel.now }
    ensures { Tells tasks.now c channel.now result }
{
    let list = tasks.list();
    let producer = &list[usize::from(channel.producer)];
    let consumer = &list[usize::from(channel.consumer)];
    let verdict = channels::judge(
        channel,
        producer,
        consumer,
        window(producer),
        window(consumer),
    );
    verdict.map_err(|fault| refusal_of(c, fault))
}

// Tests 13 to 17, channel by channel.
fn channel_tests(tasks: &Tasks, channels: &[Channel]) -> Result<(), Refusal>
    requires { All (ChannelFormed (length tasks.now)) channels.now }
    ensures { (room : ℕ) → Behind 13 14 room (Made tasks.now channels.now) result }
{
    for (c, channel) in channels.iter().enumerate() {
        channel_test(tasks, c, channel)?;
    }
    Ok(())
}

// All tests of a graph; its response times where none fires.
fn all_tests(graph: &Formed, room: usize) -> Result<[u32; Graph::TASKS], Refusal>
    ensures { Tested graph.now room result }
{
    let tasks = Tasks::new(graph.tasks());
    task_tests(&tasks, room)?;
    relation_tests(&tasks, graph.relations())?;
    let figures = time_tests(&tasks)?;
    channel_tests(&tasks, graph.channels())?;
    Ok(figures)
}

// The reply to a graph, and the report.
fn judge(graph: &Formed, report: &mut [u32]) -> Reply
    ensures { Judges graph.now report.old result report.new }
{
    match all_tests(graph, report.len()) {
        Ok(figures) => {
            let count = graph.tasks().len();
            report[..count].copy_from_slice(&figures[..count]);
            Ok(count)
        }
        // Kept: an arm of its own, so that an edit can put another reply there and leave the form as it is.
        Err(refusal) => Err(refusal),
    }
}

// The reply to a graph in memory, and R of each task in the report where it is accepted.
pub fn check_graph(graph: &Graph, report: &mut [u32]) -> Reply
    ensures { ChecksGraph graph.now report.old result report.new }
{
    let Some(graph) = Formed::of(graph) else {
        return Err(Refusal::NoFile);
    };
    judge(&graph, report)
}

// The reply to a file, and R of each task in the report where it is accepted.
pub fn check_file(file: &[u8], report: &mut [u32]) -> Reply
    ensures { ChecksFile file.now report.old result report.new }
{
    let graph = reader::parse(file)?;
    judge(&Formed::new(&graph), report)
}
