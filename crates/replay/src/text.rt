// The lines of an answer to a case.
use super::failure::Failure;
use access::Progress;
use std::alloc::Global;
use std::io::Write;

// What a log word holds before a call, so that one written past the last entry shows.
const UNTOUCHED: u32 = 0x5AA5_C33C;

// A log has room for 4,096 entries of two words each.
const LOG_WORDS: usize = 8192;

// How many bytes the line of an entry has, and how many the end line at most.
const ENTRY_LINE: usize = 16;

const END_LINE: usize = 128;

// What stands behind the end line where the call wrote what it must not.
const CHANGED: &[u8] = b"changed\n";

// A call on the first words of a log, at most all: the log's lines, and how it ended.
pub fn logged<F: FnOnce(&mut [u32]) -> Progress>(
    alloc: Global,
    words: u32,
    call: F,
) -> Result<Vec<u8>, Failure>
    requires { F.IsAlwaysCallable call }
{
    on_memory(alloc, words, &[], |log, _| call(log))
}

// A call on memory too: then a line for each byte that is no longer what was given.
pub fn on_memory<F: FnOnce(&mut [u32], &mut [u8]) -> Progress>(
    alloc: Global,
    words: u32,
    given: &[u8],
    call: F,
) -> Result<Vec<u8>, Failure>
    requires { F.IsAlwaysCallable call }
{
    on_bytes(alloc, words, 0, given, call)
}

// A call on bytes that are its memory from a place on. Then `changed` if a byte before it is no longer what was given.
pub fn on_bytes<F: FnOnce(&mut [u32], &mut [u8]) -> Progress>(
    alloc: Global,
    words: u32,
    memory: usize,
    given: &[u8],
    call: F,
) -> Result<Vec<u8>, Failure>
    requires { F.IsAlwaysCallable call }
{
    let mut held = Vec::from_slice(alloc, given)?;
    let mut log = [UNTOUCHED; LOG_WORDS];
    let lent = LOG_WORDS.min(words as usize);
    let progress = call(&mut log[..lent], &mut held);
    let mut out = ended(alloc, &log, progress)?;
    let (before, given) = given.split_at_checked(memory).ok_or(Failure::NoCase)?;
    let (held_before, held) = held.split_at_checked(memory).ok_or(Failure::NoCase)?;
    if before != held_before {
        out.extend_from_slice(CHANGED)?;
    }
    changes(&mut out, given, held)?;
    Ok(out)
}

// A line for each byte that is no longer what was given, by its place in the memory.
fn changes(out: &mut Vec<u8>, given: &[u8], held: &[u8]) -> Result<(), Failure> {
    for (place, (given, held)) in given.iter().zip(held).enumerate() {
        if given != held {
            writeln!(out, "m {place:08x} {held:02x}")?;
        }
    }
    Ok(())
}

// The log and the end line; then `changed` if a word past the last entry was written.
fn ended(alloc: Global, log: &[u32; LOG_WORDS], p: Progress) -> Result<Vec<u8>, Failure> {
    let entries = p.entries;
    if entries > LOG_WORDS / 2 {
        return Err(Failure::NoCase);
    }
    let mut out = vec![in alloc; 0u8; ENTRY_LINE * entries + END_LINE]?;
    let len = lines::render(&mut out, log, p);
    out.truncate(len);
    if log[2 * entries..].iter().any(|w| *w != UNTOUCHED) {
        out.extend_from_slice(CHANGED)?;
    }
    Ok(out)
}
