// What the checker, the reader and the writer answer, each case in words, and the three numbers of each.
#![tactic(auto)]

ghost use Rattle.std.specs.Prelude.{◌≡◌, Some};
ghost use Rattle.reply.specs.Reply.{numbered};
ghost use Rattle.reply.specs.Line.{line};

use std::fmt;

// What is found wrong.
#[derive(Clone, Copy, PartialEq, Eq)]
pub enum Refusal {
    // 1 to 5: a record of the file; the place is the offset of its kind byte
    UnknownKind { at: usize },
    CutShort { at: usize },
    OutOfOrder { at: usize },
    OutOfRange { at: usize },
    TooMany { at: usize },
    // 6 and 7: the file as a whole; the place is 2 × channel + side
    NoTask,
    EmptyCycle { place: usize },
    // 8 to 12: the tasks, the report and the relations
    SamePriority { task: usize },
    ShortReport { tasks: usize },
    FalseRelation { relation: usize },
    Late { task: usize },
    Overloaded,
    // 13 to 17: a channel, with the first broken job in the last two
    InitialAboveSize { channel: usize },
    Unbalanced { channel: usize },
    WindowTooLong { channel: usize },
    Underflow { channel: usize, job: u64 },
    Overflow { channel: usize, job: u64 },
    // 18 and 19: a graph that no file reads as; an output shorter than the file
    NoFile,
    ShortOutput { needed: usize },
}

// Accepted, read or written, with the number of tasks, or else refused.
pub type Reply = Result<usize, Refusal>;

// The numbers that a reply is printed and exported as: which reply, where, and the job.
#[derive(Clone, Copy, PartialEq, Eq)]
pub struct Numbers {
    pub number: u32,
    pub place: usize,
    pub job: u64,
}

impl From<Reply> for Numbers {
    ghost from_gives = { λ reply numbers. numbers ≡ numbered reply };

    fn from(reply: Reply) -> Self {
        let (number, place, job) = match reply {
            Ok(tasks) => (0, tasks, 0),
            Err(Refusal::UnknownKind { at }) => (1, at, 0),
            Err(Refusal::CutShort { at }) => (2, at, 0),
            Err(Refusal::OutOfOrder { at }) => (3, at, 0),
            Err(Refusal::OutOfRange { at }) => (4, at, 0),
            Err(Refusal::TooMany { at }) => (5, at, 0),
            Err(Refusal::NoTask) => (6, 0, 0),
            Err(Refusal::EmptyCycle { place }) => (7, place, 0),
            Err(Refusal::SamePriority { task }) => (8, task, 0),
            Err(Refusal::ShortReport { tasks }) => (9, tasks, 0),
            Err(Refusal::FalseRelation { relation }) => (10, relation, 0),
            Err(Refusal::Late { task }) => (11, task, 0),
            Err(Refusal::Overloaded) => (12, 0, 0),
            Err(Refusal::InitialAboveSize { channel }) => (13, channel, 0),
            Err(Refusal::Unbalanced { channel }) => (14, channel, 0),
            Err(Refusal::WindowTooLong { channel }) => (15, channel, 0),
            Err(Refusal::Underflow { channel, job }) => (16, channel, job),
            Err(Refusal::Overflow { channel, job }) => (17, channel, job),
            Err(Refusal::NoFile) => (18, 0, 0),
            Err(Refusal::ShortOutput { needed }) => (19, needed, 0),
        };
        Self { number, place, job }
    }
}

// The line that a program prints for a reply, with no line feed.
impl fmt::Display for Numbers {
    ghost output = { λ numbers. Some (line numbers) };

    fn fmt<W: fmt::Write>(&self, f: &mut fmt::Formatter<W>) -> fmt::Result {
        let Numbers { number, place, job } = self;
        write!(f, "{number} {place} {job}")
    }
}

#[cfg(test)]
mod tests {
    use super::*;
    use std::alloc::AllocError;

    #[test]
    fn prints_number_place_and_job(rt: HostRuntime) -> Result<(), AllocError> {
        let overflow: Reply = Err(Refusal::Overflow { channel: 2, job: 3 });
        let line = format!(in rt.alloc(); "{}", Numbers::from(overflow))?;
        assert_eq!(rt; line.as_str(), "17 2 3");
        let line = format!(in rt.alloc(); "{}", Numbers::from(Ok(32)))?;
        assert_eq!(rt; line.as_str(), "0 32 0");
        Ok(())
    }
}
