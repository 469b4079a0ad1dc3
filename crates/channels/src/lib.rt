// The judgement of one channel: initial fill, balance, window, underflow, overflow.
#![tactic(auto)]

ghost use Rattle.std.specs.Prelude.{◌≡◌, ◌+◌, ◌*◌, ◌-◌, ◌/◌, ◌%◌, ◌≤◌, ◌<◌, ◌↔◌, IsTrue, min, length};
ghost use Rattle.graph.specs.Model.{max_prefix, max_cycle, million};
ghost use Rattle.graph.specs.Memory.{view_rates};
ghost use Rattle.channel.specs.Side.{total, turn, span, release, end, first};
ghost use Rattle.channel.specs.Channel.{Balanced};
ghost use Rattle.channel.specs.Judge.{Means};
ghost use Rattle.channel.specs.Stretches.{Says, short_at, some_below, some_case};
ghost use Rattle.channels.specs.Sides.{side, joined_of, joined_at, Timed, Rated, Ready};
ghost use Rattle.channels.specs.Tables.{Listed, Tabled, Above, most_rate, most_sum, latest, most_first, far};
ghost use Rattle.channels.specs.Answers.{Spans, Divisor, Measured, passed_of, SaysBelow, most_jobs, ComesRound, Reaches};

use channel::{Fault, Verdict};
use graph::{Channel, Graph, Task, rate_at};
use std::marker::Model;

// The length of a party's table: one total for no job, and one for each entry of prefix and cycle.
const PLACES: usize = Graph::PREFIX + Graph::CYCLE + 1;

// One party to a channel, producer or consumer: when its jobs are released, how long their windows are, and what they move.
// At place i the table has what the first i jobs move, up to prefix and one turn of the cycle.
#[derive(Drop)]
struct Party<'a> {
    period: u64,
    offset: u64,
    window: u64,
    prefix: &'a [u16],
    cycle: &'a [u16],
    sums: [u64; PLACES],
}

impl<'a> Model for Party<'a> {
    ghost use Rattle.channel.specs.Side.{Side};

    ghost Value = { Side };

    ghost use Rattle.channels.specs.Party.{side_of, Equipped};

    ghost view = { side_of };

    ghost invariant = { Equipped };
}

// What the first jobs of a side move, up to prefix and one turn of the cycle.
fn totals(prefix: &[u16], cycle: &[u16]) -> [u64; PLACES]
    requires { Listed prefix.now cycle.now }
    ensures { Tabled prefix.now cycle.now result }
{
    let mut sums = [0; PLACES];
    let mut sum = 0;
    // Kept: by place. The chained lists prove, but the longest file takes 4 % longer, and the rules' own lookup would have no caller.
    for job in 0..prefix.len() + cycle.len() {
        sum += u64::from(rate_at(prefix, cycle, job as u64));
        sums[job + 1] = sum;
    }
    sums
}

impl<'a> Party<'a> {
    // A task as one party, with windows of the given length.
    fn of(task: &Task, window: u32, rates: &'a graph::Side) -> Self
        requires timed { Timed task.now window }
        requires rated { Rated rates.now }
        ensures { result ≡ side task.now window (view_rates rates.now) }
    {
        let prefix = &rates.prefix[..rates.plen];
        let cycle = &rates.cycle[..rates.clen];
        Self {
            period: u64::from(task.period),
            offset: u64::from(task.offset),
            window: u64::from(window),
            prefix,
            cycle,
            sums: totals(prefix, cycle),
        }
    }

    // The tick in which job m is released.
    // Kept: `m ≤ far` as a clause, here and in `end`, `passed`, `total` and `first_above`, since it is of each call's number.
    fn release(&self, m: u64) -> u64
        requires { m ≤ far }
        ensures { result ≡ release self.now m }
    {
        self.offset + m * self.period
    }

    // The first tick behind job m's window.
    fn end(&self, m: u64) -> u64
        requires { m ≤ far }
        ensures { result ≡ end self.now m }
    {
        self.release(m) + self.window
    }

    // How many of the ticks first, first + period and so on are no later than this one: mostly none or one, otherwise by division.
    fn passed(&self, first: u64, tick: u64) -> u64
        requires first_near { first ≤ far }
        requires tick_near { tick ≤ far }
        ensures { result ≡ passed_of first self.now.period tick }
    {
        let period = self.period;
        if tick < first {
            return 0;
        }
        if tick < first + period {
            return 1;
        }
        (tick + period - first) / period
    }

    // The ticks that one turn of the cycle takes.
    fn span(&self) -> u64
        ensures { result ≡ span self.now }
    {
        self.period * self.cycle.len() as u64
    }

    // What one turn of the cycle moves.
    fn turn(&self) -> u64
        ensures is { result ≡ turn self.now }
        ensures most { result ≤ most_rate * max_cycle }
    {
        let plen = self.prefix.len();
        self.sums[plen + self.cycle.len()] - self.sums[plen]
    }

    // What the first m jobs move, by the table: past it, whole turns and a part of one.
    fn total(&self, m: u64) -> u64
        requires { m ≤ far }
        ensures is { result ≡ total self.now m }
        ensures most { result ≤ most_rate * m }
    {
        let plen = self.prefix.len();
        let all = plen + self.cycle.len();
        if m <= all as u64 {
            return self.sums[m as usize];
        }
        let past = m - plen as u64;
        let turns = past / self.cycle.len() as u64;
        let at = plen + (past % self.cycle.len() as u64) as usize;
        self.sums[at] + turns * self.turn()
    }

    // The first job from `from` on with which the total is above `have`, where it is with the last before `to`: by halves.
    // Kept: a search by hand, since totals go on past the table and no slice holds them.
    fn first_above(&self, have: u64, from: u64, to: u64) -> u64
        requires order { from < to }
        requires near { to ≤ far }
        requires above { have < total self.now to }
        ensures { Above self.now have from to result }
    {
        let mut low = from;
        let mut high = to - 1;
        while low < high {
            let mid = low + (high - low) / 2;
            if have < self.total(mid + 1) {
                high = mid;
            } else {
                low = mid + 1;
            }
        }
        low
    }

    // The first of this taker's jobs below `jobs` that is short. A turn goes by a stretch: the jobs before the giver's next end, of which the last one lacks most.
    // Kept: taker, giver and stock as parameters, here and below. In a struct each contract says `self.now.taker.now` for `self.now`, and the rules' own `Short taker giver stock k` takes them so.
    fn first_short(&self, giver: &Party, stock: u32, jobs: u64) -> Option<u64>
        requires { jobs ≤ most_jobs }
        ensures { SaysBelow self.now giver.now stock jobs result }
    {
        let mut end = giver.end(0);
        let mut ended = 0;
        let mut k = 0;
        // Kept: a `while`, since a step is as long as its stretch.
        while k < jobs {
            let release = self.release(k);
            let more = giver.passed(end, release);
            ended += more;
            end += more * giver.period;
            let next = k + 1 + self.passed(release + self.period, end - 1);
            let have = u64::from(stock) + giver.total(ended);
            if have < self.total(next) {
                return Some(self.first_above(have, k, next));
            }
            k = next;
        }
        None
    }

    // Whether some place of this giver's cycle makes the case short. The taker's job is given by its release and by what the jobs up to it want; both sides are multiplied by the giver's span, so all is whole.
    // `rest` is the end modulo the step, kept by addition.
    // Kept: a `for` that hands back its answer, here and in `case_short`, since ticks go on from turn to turn, which a closure of `any` would have to change.
    fn row_short(&self, stock: u32, step: u64, tick: u64, wants: u64) -> bool
        requires some_step { 1 ≤ step }
        requires step_most { step ≤ max_cycle * million }
        requires tick_most { tick ≤ latest }
        requires wants_most { wants ≤ most_sum }
        ensures { result ≡ some_below (short_at step self.now stock tick wants) (length self.now.cycle) }
    {
        let plen = self.prefix.len();
        let span = self.span();
        let turn = self.turn();
        let pace = self.period % step;
        let mut end = self.end(plen as u64);
        let mut rest = (end + (step - 1 - tick % step)) % step;
        for sum in &self.sums[plen..plen + self.cycle.len()] {
            let has = u64::from(stock) + *sum;
            let before = rest + 1;
            if before <= self.period
                && has * span + turn * (tick + before) < wants * span + turn * end
            {
                return true;
            }
            end += self.period;
            rest = around(rest + pace, step);
        }
        false
    }

    // One of the cases is short: those of the places in this taker's cycle and in the giver's.
    fn case_short(&self, giver: &Party, stock: u32, step: u64) -> bool
        requires some_step { 1 ≤ step }
        requires step_most { step ≤ max_cycle * million }
        ensures { result ≡ some_case step self.now giver.now stock }
    {
        let plen = self.prefix.len();
        let mut tick = self.release(plen as u64);
        for wants in &self.sums[plen + 1..=plen + self.cycle.len()] {
            if giver.row_short(stock, step, tick, *wants) {
                return true;
            }
            tick += self.period;
        }
        false
    }

    // From this job of the taker on, both are past their prefixes.
    fn first(&self, giver: &Party) -> u64
        ensures is { result ≡ first self.now giver.now }
        ensures most { result ≤ most_first }
    {
        let end = giver.end(giver.prefix.len() as u64);
        let wait = end.saturating_sub(self.offset);
        (self.prefix.len() as u64).max(wait / self.period + 1)
    }

    // How many of the taker's jobs to search. If a case is short, or the jobs are far fewer than the cases: all that decide. Otherwise those before both are past their prefixes.
    fn reach(&self, giver: &Party, stock: u32, length: u64) -> u64
        requires { ComesRound self.now giver.now length }
        ensures { Reaches self.now giver.now stock result }
    {
        let first = self.first(giver);
        let all = first + length / self.period;
        let cases = self.cycle.len() as u64 * giver.cycle.len() as u64;
        if 8 * all <= cases {
            return all;
        }
        let step = self.span() * giver.span() / length;
        if self.case_short(giver, stock, step) {
            all
        } else {
            first
        }
    }

    // The first of this taker's jobs that is short, of all jobs without end.
    fn decide(&self, giver: &Party, stock: u32, length: u64) -> Option<u64>
        requires { ComesRound self.now giver.now length }
        ensures { Says self.now giver.now stock result }
    {
        self.first_short(giver, stock, self.reach(giver, stock, length))
    }
}

// x modulo b, where x is less than two times b: no division, since every case asks for it.
fn around(x: u64, b: u64) -> u64
    requires { x < b + b }
    ensures { result ≡ x % b }
{
    if x < b { x } else { x - b }
}

// Both cycles move as much in the long run: compared as whole products.
fn balanced(producer: &Party, consumer: &Party) -> bool
    ensures { IsTrue result ↔ Balanced producer.now consumer.now }
{
    let put = producer.turn() * consumer.cycle.len() as u64 * consumer.period;
    let taken = consumer.turn() * producer.cycle.len() as u64 * producer.period;
    put == taken
}

// The greatest common divisor of a and b: what the division of the one by the other leaves takes its place, until nothing is left.
fn common(a: u64, b: u64) -> u64
    requires some_a { 1 ≤ a }
    requires some_b { 1 ≤ b }
    ensures { Divisor a b result }
{
    let mut x = a;
    let mut y = b;
    let mut rest = a % b;
    // Kept: a `while`, since no range counts the steps of Euclid.
    while rest != 0 {
        x = y;
        y = rest;
        rest = x % y;
    }
    y
}

// The least common multiple of the spans a and b, where that divided by the smaller period is at most 65,536.
fn measure(a: u64, b: u64, least: u64) -> Option<u64>
    requires { Spans a b least }
    ensures { Measured a b least result }
{
    let ticks = a / common(a, b) * b;
    if ticks / least <= 65_536 {
        Some(ticks)
    } else {
        None
    }
}

// The first of the tests 13 to 17 that a channel fails, by its two parties.
fn weigh(producer: &Party, consumer: &Party, initial: u32, size: u32) -> Verdict
    ensures { Means (joined_at producer.now consumer.now initial size) result }
{
    if size < initial {
        return Err(Fault::InitialAboveSize);
    }
    if !balanced(producer, consumer) {
        return Err(Fault::Unbalanced);
    }
    let least = producer.period.min(consumer.period);
    let length = measure(producer.span(), consumer.span(), least).ok_or(Fault::WindowTooLong)?;
    if let Some(job) = consumer.decide(producer, initial, length) {
        return Err(Fault::Underflow { job });
    }
    let room = size - initial;
    if let Some(job) = producer.decide(consumer, room, length) {
        return Err(Fault::Overflow { job });
    }
    Ok(())
}

// The first of the tests 13 to 17 that a channel fails, or none; the windows' lengths are given.
pub fn judge(
    channel: &Channel,
    producer: &Task,
    consumer: &Task,
    pwindow: u32,
    cwindow: u32,
) -> Verdict
    requires { Ready channel.now producer.now consumer.now pwindow cwindow }
    ensures { Means (joined_of channel.now producer.now consumer.now pwindow cwindow) result }
{
    let puts = Party::of(producer, pwindow, &channel.production);
    let takes = Party::of(consumer, cwindow, &channel.consumption);
    weigh(&puts, &takes, channel.initial, channel.size)
}
