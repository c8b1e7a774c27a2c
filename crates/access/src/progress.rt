// What a call comes to: how it ended, and its four counts.
ghost use Rattle.std.specs.Prelude.{◌≡◌, ◌-◌, ◌^◌, ◌<◌};
ghost use Rattle.model.specs.Tally.{plus, poll_tally};
ghost use Rattle.access.specs.Of.{cause_of, tally_in, number_in, begun, refused};

use config::QspiError;

// What a wait is for.
#[derive(Clone, Copy)]
pub enum Cause {
    // Space in the transmit FIFO.
    Space,
    // Bytes in the receive FIFO.
    Received,
    // An empty transmit FIFO.
    Empty,
    // START clear.
    Start,
}

// Polls, and the most unready ones in one wait.
#[derive(Clone, Copy)]
pub struct Tally {
    pub polls: usize,
    pub longest: u32,
}

impl Tally {
    // The tally with one more poll, ready or not, of a wait that made `before` unready ones before it.
    pub fn counted(self, cause: Cause, before: u32, ready: bool) -> Tally
        requires polls_bound { self.polls < 2 ^ 64 - 1 }
        requires before_bound { before < 2 ^ 32 - 1 }
        ensures { tally_in result ≡ plus (tally_in self) (poll_tally (cause_of cause) before ready) }
    {
        let longest = self.longest;
        let polls = self.polls + 1;
        if ready {
            return Tally { polls, longest };
        }
        if longest <= before {
            return Tally {
                polls,
                longest: before + 1,
            };
        }
        Tally { polls, longest }
    }
}

// How a call ended, and its four counts.
#[derive(Clone, Copy)]
pub struct Progress {
    pub ended: Result<(), QspiError>,
    pub entries: usize,
    pub taken: usize,
    pub tally: Tally,
}

impl Progress {
    // Nothing done yet.
    pub fn new() -> Progress
        ensures { result ≡ begun }
    {
        let tally = Tally {
            polls: 0,
            longest: 0,
        };
        Progress {
            ended: Ok(()),
            entries: 0,
            taken: 0,
            tally,
        }
    }

    // A call that was refused before any access.
    pub fn refused(error: QspiError) -> Progress
        ensures { result ≡ refused error }
    {
        Progress {
            ended: Err(error),
            ..Progress::new()
        }
    }

    // Document 01's number of how it ended.
    pub fn number(self) -> u32
        ensures { result ≡ number_in self }
    {
        config::error::number_of(self.ended)
    }
}
