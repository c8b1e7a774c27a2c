// One record, run on the lent memory.
ghost use Rattle.std.specs.Prelude.{◌≡◌, length};
ghost use Rattle.access.specs.Goes.{GoesOn};
ghost use Rattle.chain.specs.Of.{steps_of, Fits};

use super::request::Settings;
use access::{Act, RegisterBlock};
use config::QspiError;
use records::{Extent, Record};
use windows::Span;

fn span(w: Extent) -> Span
    ensures { result ≡ record { start = w.start; len = w.size } }
{
    Span {
        start: w.start as usize,
        len: w.size as usize,
    }
}

// Runs a record in which no fault was found.
pub fn run_record(
    block: &mut RegisterBlock<'_>,
    memory: &mut [u8],
    settings: Settings,
    r: Record,
) -> Result<(), QspiError>
    requires { Fits settings.rules (length memory.old) r }
    ensures { GoesOn (steps_of settings r) block.old memory.old block.new memory.new result }
{
    match r {
        Record::Write(w) => windows::write(block, memory, span(w)),
        Record::Read(w) => windows::read(block, memory, span(w)),
        Record::Transfer { read, write } => {
            windows::transfer(block, memory, span(read), span(write))
        }
        Record::TransferInPlace(w) => windows::transfer_in_place(block, memory, span(w)),
        Record::Delay { ns } => block.perform(Act::Delay(settings.rules.cycles(ns).unwrap())),
        Record::Flush => waits::wait_transfer_done(block),
        Record::Mode(mode) => mode::set_work_mode(block, settings.qpi, mode),
        Record::QuadRead {
            command,
            tclqv,
            margin,
            data,
        } => windows::read_quad(
            block,
            memory,
            settings.rate,
            span(command),
            tclqv,
            margin,
            span(data),
        ),
        Record::QuadWrite { command, data } => {
            windows::write_quad(block, memory, span(command), span(data))
        }
    }
}
