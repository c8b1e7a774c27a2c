// An answered register block: what is done at it goes to the lent log, what it says comes from the lent answers.
ghost use Rattle.std.specs.Prelude.{◌≡◌, ◌+◌, ◌*◌, ◌/◌, ◌<◌, ◌≤◌, length, set};

use super::entry::{Act, Ask};
use super::progress::{Progress, Tally};
use answers::Answers;
use config::QspiError;
use std::num::NonZeroU32;

#[derive(Drop)]
pub struct RegisterBlock<'a> {
    // Two words an entry.
    pub log: &'a mut [u32],
    // Entries made.
    pub entries: usize,
    pub answers: Answers<'a>,
    pub tally: Tally,
    // Unready polls in one wait that give a timeout.
    pub limit: NonZeroU32,
    // Each poll has an entry.
    ghost sound: { tally.polls ≤ entries },
}

// The entry after the first `entries`.
pub fn log_entry(log: &mut [u32], entries: usize, head: u32, value: u32)
    requires { entries < length log.old / 2 }
    ensures { log.new ≡ set (set log.old (entries * 2) head) (entries * 2 + 1) value }
{
    let at = entries * 2;
    log[at] = head;
    log[at + 1] = value;
}

impl<'a> RegisterBlock<'a> {
    ghost use Rattle.std.specs.Prelude.{ℕ};
    ghost use Rattle.model.specs.Steps.{change};
    ghost use Rattle.model.specs.Steps.End.{done};
    ghost use Rattle.model.specs.Steps.Steps.{end, act};
    ghost use Rattle.access.specs.Of.{act_of, ask_of};
    ghost use Rattle.access.specs.Does.{Sound};
    ghost use Rattle.access.specs.Makes.{Resumed, Begun, Makes, Queries, progress_of};

    // No entry made, and the first answer next.
    pub fn new(limit: NonZeroU32, log: &'a mut [u32], answers: &'a [u32]) -> RegisterBlock<'a>
        ensures { Begun limit log.entry answers.entry result }
    {
        RegisterBlock::resumed(limit, log, answers, Progress::new())
    }

    // From a progress on: the log from its entries on, the answers from those taken on, and its tally to be added to.
    #[inline(always)]
    pub fn resumed(
        limit: NonZeroU32,
        log: &'a mut [u32],
        answers: &'a [u32],
        progress: Progress,
    ) -> RegisterBlock<'a>
        requires { Sound progress }
        ensures { Resumed progress limit log.entry answers.entry result }
    {
        RegisterBlock {
            log,
            entries: progress.entries,
            answers: Answers {
                words: answers,
                at: progress.taken,
            },
            tally: progress.tally,
            limit,
        }
    }

    // What the call came to, if it ends so.
    pub fn progress(&self, ended: Result<(), QspiError>) -> Progress
        ensures { result ≡ progress_of ended self.now }
    {
        Progress {
            ended,
            entries: self.entries,
            taken: self.answers.at,
            tally: self.tally,
        }
    }

    // An access that takes no answer; 10 where its entry does not fit.
    pub fn perform(&mut self, access: Act) -> Result<(), QspiError>
        ensures { Makes (act (act_of access) (end done)) self.old self.new result }
    {
        let entries = self.entries;
        if self.log.len() / 2 <= entries {
            return Err(QspiError::Log);
        }
        log_entry(self.log, entries, access.head(), access.value());
        self.entries = entries + 1;
        Ok(())
    }

    // An access that takes the next answer; 10 where its entry does not fit, else 11 where no answer is left.
    pub fn query(&mut self, access: Ask) -> Result<u32, QspiError>
        ensures { Queries (ask_of access) self.old self.new result }
    {
        let entries = self.entries;
        if self.log.len() / 2 <= entries {
            return Err(QspiError::Log);
        }
        let Some(answer) = self.answers.read() else {
            return Err(QspiError::Answers);
        };
        let word = access.said(answer);
        log_entry(self.log, entries, access.head(), word);
        self.entries = entries + 1;
        Ok(word)
    }

    // A change: reads a register and writes what `make` makes of its word.
    pub fn modify<F: FnOnce(u32) -> u32>(&mut self, place: u16, make: F) -> Result<(), QspiError>
        requires { F.IsAlwaysCallable make }
        ensures { (f : ℕ → ℕ) → ((word made : ℕ) → F.post make word made → made ≡ f word) → Makes (change place f) self.old self.new result }
    {
        let word = self.query(Ask::Register(place))?;
        self.perform(Act::Write(place, make(word)))
    }
}
