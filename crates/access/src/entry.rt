// Accesses, and their entries.
ghost use Rattle.std.specs.Prelude.{◌≡◌};
ghost use Rattle.model.specs.Event.{act_head, act_value, ask_head, said};
ghost use Rattle.access.specs.Of.{act_of, ask_of};

// An access that takes no answer.
#[derive(Clone, Copy)]
pub enum Act {
    // A register's place and the word for it.
    Write(u16, u32),
    // A byte to the transmit FIFO.
    Send(u8),
    // Cycles.
    Delay(u32),
}

impl Act {
    // The first word of its entry: op × 65,536 + place.
    pub fn head(self) -> u32
        ensures { result ≡ act_head (act_of self) }
    {
        match self {
            Act::Write(place, _) => 2 * 65536 + place as u32,
            Act::Send(_) => 3 * 65536 + 0x200,
            Act::Delay(_) => 5 * 65536,
        }
    }

    // The second word: its value.
    pub fn value(self) -> u32
        ensures { result ≡ act_value (act_of self) }
    {
        match self {
            Act::Write(_, value) => value,
            Act::Send(byte) => byte as u32,
            Act::Delay(cycles) => cycles,
        }
    }
}

// An access that takes the next answer.
#[derive(Clone, Copy)]
pub enum Ask {
    // A register's place.
    Register(u16),
    // A byte from the receive FIFO.
    Byte,
}

impl Ask {
    // The first word of its entry.
    pub fn head(self) -> u32
        ensures { result ≡ ask_head (ask_of self) }
    {
        match self {
            Ask::Register(place) => 65536 + place as u32,
            Ask::Byte => 4 * 65536 + 0x300,
        }
    }

    // What an answer says: a byte is its low eight bits.
    pub fn said(self, answer: u32) -> u32
        ensures { result ≡ said (ask_of self) answer }
    {
        match self {
            Ask::Register(_) => answer,
            Ask::Byte => answer % 256,
        }
    }
}
