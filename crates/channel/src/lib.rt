// What a channel is judged to be; the definitions and theorems of the rule stand in specs/ and proofs/.
#![tactic(auto)]

// What is wrong with a channel; the last two name the first broken job.
#[derive(Clone, Copy, PartialEq, Eq)]
pub enum Fault {
    InitialAboveSize,
    Unbalanced,
    WindowTooLong,
    Underflow { job: u64 },
    Overflow { job: u64 },
}

// Fine, or the first fault.
pub type Verdict = Result<(), Fault>;
