// The rules that the records of a chain go by.
ghost use Rattle.std.specs.Prelude.{◌≡◌};
ghost use Rattle.records.specs.Rules.{highest, cycles, counted};

#[derive(Clone, Copy)]
pub enum Rules {
    // Kinds 1 to 9. A delay is half its nanoseconds, in cycles.
    Sheet,
    // Kinds 1 to 5. A delay lasts at least its nanoseconds on a core of this rate.
    Transaction { core_hz: u32 },
}

impl Rules {
    // The highest kind that is taken.
    pub(crate) fn highest(self) -> u32
        ensures { result ≡ highest self }
    {
        match self {
            Rules::Sheet => 9,
            Rules::Transaction { .. } => 5,
        }
    }

    // The cycles of a delay; none where 32 bits do not hold them.
    #[tactic(auto, unfolding(crate::specs::Rules::cycles))]
    pub fn cycles(self, ns: u32) -> Option<u32>
        ensures { result ≡ counted (cycles self ns) }
    {
        match self {
            Rules::Sheet => Some(ns / 2),
            Rules::Transaction { core_hz } => u32::try_from(clock::periods_for(ns, core_hz)).ok(),
        }
    }
}
