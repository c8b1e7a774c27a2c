// Records of eight words, and the check of their chain before anything is done.
#![tactic(auto)]

ghost use Rattle.std.specs.Prelude.{◌≡◌, ◌*◌, ◌≤◌, length};
ghost use Rattle.records.specs.Check.{record_at, next_fits, too_many, record_fault, checked, verdict};

use config::QspiError;

pub mod extent;
pub mod kinds;
pub mod record;
pub mod rules;

pub use extent::Extent;
pub use record::Record;
pub use rules::Rules;

// The first fault of a chain.
#[derive(Clone, Copy, PartialEq, Eq)]
pub struct Fault {
    pub error: QspiError,
    // The number of its record; 0 for the slice itself.
    pub record: usize,
}

// Record `own`, counted from 1.
pub fn record_at(words: &[u32], own: usize) -> [u32; 8]
    requires le_own { 1 ≤ own }
    requires own_in_bounds { 8 * own ≤ length words.now }
    ensures { result ≡ record_at words.now own }
{
    let (records, _) = words.as_chunks::<8>();
    records[own - 1]
}

fn next_fits(own: usize, count: usize, next: usize) -> bool
    ensures { result ≡ next_fits own count next }
{
    next == 0 || (own < next && next <= count)
}

// Is it a delay of more cycles than 32 bits hold?
fn too_many(rules: Rules, kind: u32, ns: u32) -> bool
    ensures { result ≡ too_many rules kind ns }
{
    kind == 5 && rules.cycles(ns).is_none()
}

// The first fault of record `own` of `count`.
#[tactic(auto, unfolding(crate::specs::Check::record_fault))]
fn record_fault(
    r: [u32; 8],
    own: usize,
    count: usize,
    rules: Rules,
    memory: usize,
) -> Result<(), QspiError>
    ensures { result ≡ record_fault rules memory count own r }
{
    if !kinds::known(rules.highest(), r[0]) || kinds::out_of_range(&r) {
        return Err(QspiError::Chain);
    }
    if !next_fits(own, count, r[7] as usize) {
        return Err(QspiError::Chain);
    }
    if too_many(rules, r[0], r[1]) {
        return Err(QspiError::Cycles);
    }
    kinds::windows_fault(&r, memory)
}

// Goes along the chain from its first record, and stops at the first fault.
pub fn check(words: &[u32], rules: Rules, memory: usize) -> Result<(), Fault>
    ensures { result ≡ verdict (checked rules memory words.now) }
{
    if words.len() % 8 != 0 {
        return Err(Fault {
            error: QspiError::Chain,
            record: 0,
        });
    }
    let count = words.len() / 8;
    if count == 0 {
        return Ok(());
    }
    let mut own = 1;
    loop {
        let r = record_at(words, own);
        record_fault(r, own, count, rules, memory).map_err(|error| Fault { error, record: own })?;
        let next = r[7] as usize;
        if next == 0 {
            return Ok(());
        }
        own = next;
    }
}
