// The library for other languages: check, rewrite and read a file, each answer as three numbers.
#![tactic(auto)]

ghost use Rattle.std.specs.Prelude.{◌≡◌, Result};
ghost use Rattle.graph.specs.Memory.{Memory};
ghost use Rattle.reader.specs.Reading.{Parses};
ghost use Rattle.reply.specs.declared.Refusal.{Refusal};
ghost use Rattle.reply.specs.Reply.{numbered, three};
ghost use Rattle.exports.specs.Exports.{Checked, Rewrites, Rewritten, Read};

use reply::{Numbers, Reply};

// The three numbers of a reply: the first handed back, the others at their places.
fn tell(reply: Reply, place: &mut u64, job: &mut u64) -> u32
    ensures { numbered reply ≡ three result place.new job.new }
{
    let numbers = Numbers::from(reply);
    *place = numbers.place as u64;
    *job = numbers.job;
    numbers.number
}

// The reply to a file, and R of each task in the report where it is accepted.
pub fn ghadibosh_check(file: &[u8], report: &mut [u32], place: &mut u64, job: &mut u64) -> u32
    ensures { Checked file.now report.old result place.new job.new report.new }
{
    let reply = checker::check_file(file, report);
    tell(reply, place, job)
}

// What was read is written back, or the reader's refusal is handed on.
fn rewrite(file: &[u8], out: &mut [u8]) -> Reply
    ensures { (parsed : Result Memory Refusal) × Parses file.now parsed × Rewrites parsed out.old result out.new }
{
    let graph = reader::parse(file)?;
    writer::write(&graph, out)
}

// The file, read and written back into the output.
pub fn ghadibosh_rewrite(file: &[u8], out: &mut [u8], place: &mut u64, job: &mut u64) -> u32
    ensures { Rewritten file.now out.old result place.new job.new out.new }
{
    let reply = rewrite(file, out);
    tell(reply, place, job)
}

// The reader's reply to a file.
pub fn ghadibosh_read(file: &[u8], place: &mut u64, job: &mut u64) -> u32
    ensures { Read file.now result place.new job.new }
{
    let reply = reader::read(file).reply;
    tell(reply, place, job)
}
