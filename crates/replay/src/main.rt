// Replays the list of cases on standard input: makes each case's call on the library and compares what it did with the
// answer that follows the case.
#![tactic(auto)]

ghost use Rattle.std.specs.Prelude.{◌≤◌, length, IfOk};

use failure::Failure;
use fields::Fields;
use std::alloc::Global;
use std::io;
use std::io::Read;
use verdicts::{Tally, Verdict};

mod call;
mod failure;
mod fields;
mod opening_call;
mod quad_call;
mod text;
mod value;

// The line after a case and its answer, with the line end before it.
const END: usize = 3;

// A case that is longer, with its end, is a difference, and nothing after it is replayed.
const LONGEST_CASE: usize = 65_536;

// What is behind so many pieces is not read.
const MOST_PIECES: u32 = 1_000_000;

// The first difference, if there is one, and the counts.
fn report(rt: &impl Print, tally: Tally) -> io::Result<()> {
    let Tally {
        replayed,
        excluded,
        differ,
        first,
    } = tally;
    if let Some(case) = first {
        println!(rt; "first difference: case {case}")?;
    }
    println!(rt; "{replayed} replayed, {excluded} excluded, {differ} differ")
}

// The lines of the library's answer to a case.
fn answer(alloc: Global, line: &[u8]) -> Result<Vec<u8>, Failure> {
    let numbers = fields::parse(alloc, line)?;
    let f = Fields { rest: &numbers };
    match cases::name(line) {
        b"write" => call::write(alloc, f),
        b"read" => call::read(alloc, f),
        b"transfer" => call::transfer(alloc, f),
        b"inplace" => call::transfer_in_place(alloc, f),
        b"flush" => call::flush(alloc, f),
        b"transaction" => call::transaction(alloc, f),
        b"sheet" => call::sheet(alloc, f),
        b"quadread" => quad_call::read_quad(alloc, f),
        b"quadwrite" => quad_call::write_quad(alloc, f),
        b"mode" => quad_call::set_work_mode(alloc, f),
        b"open" => opening_call::open(alloc, f),
        b"free" => opening_call::free(alloc, f),
        b"clock" => value::select_clock(alloc, f),
        b"sck" => value::actual_sck(alloc, f),
        b"dummy" => value::dummy_bytes(alloc, f),
        _ => Err(Failure::NoCase),
    }
}

// One case: its line, and the lines of its answer.
fn replay(alloc: Global, case: &[u8]) -> io::Result<Verdict> {
    let Some(end) = cases::find(case, 0, case.len(), b'\n') else {
        return Ok(Verdict::Different);
    };
    let line = &case[..end];
    match answer(alloc, line) {
        Ok(library) => Ok(verdicts::judge(alloc, line, &case[end + 1..], &library)?),
        Err(Failure::NoCase) => Ok(Verdict::Different),
        Err(Failure::Io(e)) => Err(e),
    }
}

// Every whole case of the text: the tally with them, and how many bytes they and their answers take.
fn replay_all(alloc: Global, text: &[u8], tally: Tally) -> io::Result<(Tally, usize)>
    ensures { IfOk result (λ r. r.1 ≤ length text.now) }
{
    let mut tally = tally;
    let mut at = 0;
    while let Some(end) = cases::case_end(text, at) {
        tally = tally.counted(replay(alloc, &text[at..end + 1])?);
        at = end + END;
    }
    Ok((tally, at))
}

// The cases of standard input, of which there is never more at hand than the longest case takes. What is left and is no
// whole case is a difference.
fn replay_input(rt: &impl Input, alloc: Global) -> io::Result<Tally> {
    let mut input = rt.reader().take(0);
    // With room for a byte more, which is never read, the text does not grow to see that there is no more.
    let mut text = Vec::with_capacity(alloc, LONGEST_CASE + 1)?;
    let mut tally = Tally::new();
    for _ in 0..MOST_PIECES {
        input.set_limit(LONGEST_CASE.saturating_sub(text.len()) as u64);
        // A read error is taken as the end of the input.
        let _ = input.read_to_end(&mut text);
        let (counted, used) = replay_all(alloc, &text, tally)?;
        tally = counted;
        if used == 0 {
            break;
        }
        text.as_mut_slice().copy_within(used.., 0);
        text.truncate(text.len() - used);
    }
    if !text.is_empty() {
        tally = tally.counted(Verdict::Different);
    }
    Ok(tally)
}

fn main(rt: HostRuntime) -> io::Result<()> {
    let tally = replay_input(&rt, rt.alloc())?;
    // What cannot be written is not told.
    let _ = report(&rt, tally);
    Ok(())
}
