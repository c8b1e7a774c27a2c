// Transactions.
ghost use Rattle.chain.specs.Transaction.{outcome, transaction};
ghost use Rattle.exports.specs.Calls.{GivesOn};

use counts::{Counts, tell};

// Operations on the lent memory: records of eight words, kinds 1 to 5, checked along the chain before any access. The
// delays are in cycles of the core rate.
pub fn qspi_transaction(
    limit: u32,
    core_hz: u32,
    log: &mut [u32],
    answers: &[u32],
    memory: &mut [u8],
    words: &[u32],
    counts: &mut Counts,
) -> u32
    ensures { GivesOn (outcome (transaction core_hz words.now) limit answers.now log.old memory.old) log.new memory.new result counts.new }
{
    let p = chain::transaction(limit, core_hz, log, answers, memory, words);
    tell(p, counts)
}
