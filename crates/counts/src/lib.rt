// The number of a call and its counts, as a caller by C names gets them.
#![tactic(auto)]

ghost use Rattle.counts.specs.Told.{Tells};

use access::Progress;

// The counts of a call: in C `struct qspi_counts`, of the same fields in the same order.
#[repr(C)]
#[derive(Clone, Copy)]
pub struct Counts {
    // Entries made.
    pub entries: u64,
    // Answers taken.
    pub taken: u64,
    // Reads made to test readiness.
    pub polls: u64,
    // The most unready polls in one wait.
    pub longest: u64,
}

// Writes the counts and gives the number.
#[tactic(auto, unfolding(crate::specs::Told::told_of))]
pub fn tell(p: Progress, counts: &mut Counts) -> u32
    ensures { Tells p result counts.new }
{
    *counts = Counts {
        entries: p.entries as u64,
        taken: p.taken as u64,
        polls: p.tally.polls as u64,
        longest: p.tally.longest as u64,
    };
    p.number()
}
