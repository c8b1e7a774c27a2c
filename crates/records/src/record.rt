// A record by its kind, made of its eight words.
ghost use Rattle.std.specs.Prelude.{◌≡◌};
ghost use Rattle.records.specs.Record.{record_of};

use super::extent::Extent;
use super::kinds::{F1_F2, F1_F2_UNTESTED, F3_F4, F5_F6};
use config::WorkMode;

// The kinds of records, each with the fields that it uses.
#[derive(Clone, Copy)]
pub enum Record {
    Write(Extent),
    Read(Extent),
    Transfer {
        read: Extent,
        write: Extent,
    },
    TransferInPlace(Extent),
    Delay {
        ns: u32,
    },
    Flush,
    Mode(WorkMode),
    QuadRead {
        command: Extent,
        tclqv: u32,
        margin: u8,
        data: Extent,
    },
    QuadWrite {
        command: Extent,
        data: Extent,
    },
}

impl Record {
    // None for a kind that there is none of, and for a field out of range.
    #[tactic(auto, unfolding(crate::specs::Record::record_of))]
    pub fn of(words: [u32; 8]) -> Option<Record>
        ensures { result ≡ record_of words }
    {
        let [kind, f1, _, f3, f4, ..] = words;
        match kind {
            1 => Some(Record::Write(F1_F2.extent(&words))),
            2 => Some(Record::Read(F1_F2.extent(&words))),
            3 => Some(Record::Transfer {
                read: F1_F2.extent(&words),
                write: F3_F4.extent(&words),
            }),
            4 => Some(Record::TransferInPlace(F1_F2_UNTESTED.extent(&words))),
            5 => Some(Record::Delay { ns: f1 }),
            6 => Some(Record::Flush),
            7 => WorkMode::from_number(f1).map(Record::Mode),
            8 => Some(Record::QuadRead {
                command: F1_F2_UNTESTED.extent(&words),
                tclqv: f3,
                margin: u8::try_from(f4).ok()?,
                data: F5_F6.extent(&words),
            }),
            9 => Some(Record::QuadWrite {
                command: F1_F2.extent(&words),
                data: F5_F6.extent(&words),
            }),
            _ => None,
        }
    }
}
