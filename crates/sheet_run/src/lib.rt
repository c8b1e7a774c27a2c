// The check and the run of a sheet, whose memory is the end of its bytes.
#![tactic(auto, using(crate::proofs::Sheets::heads))]

ghost use Rattle.std.specs.Prelude.{◌≡◌, ◌+◌, ◌*◌, ◌≤◌, Some, Ok, IfOk};
ghost use Rattle.std.specs.Option.{ok_or};
ghost use Rattle.config.specs.declared.error.QspiError.TheVariants.{Sheet};
ghost use Rattle.records.specs.Check.{fault};
ghost use Rattle.sheet.specs.Sheet.{parse};
ghost use Rattle.sheet.specs.Open.{header_of, opened};
ghost use Rattle.sheet_run.specs.Run.{request_read, header_unless, sheet_fault, RunsSheet, RunsWith};

use access::Progress;
use chain::{Request, Settings};
use config::QspiError;
use records::{Fault, Rules};
use sheet::Header;
use std::num::NonZeroU32;

pub mod print;

// More words than 65,536 bytes hold.
const MOST_WORDS: usize = 16384;

// The header; 13, at no record, for bytes that are no sheet.
fn header(bytes: &[u8]) -> Result<Header, Fault>
    ensures value { result ≡ ok_or (opened bytes.now) (fault Sheet 0) }
    ensures opens { IfOk result (λ h. opened bytes.now ≡ Some h) }
{
    sheet::open(bytes).ok_or(Fault {
        error: QspiError::Sheet,
        record: 0,
    })
}

// What a sheet of this header runs: the words of its records, of all kinds, with the old delays.
fn request<'a>(h: &Header, records: &'a [u32]) -> Request<'a>
    ensures { result ≡ request_read h.now records.entry }
{
    let settings = Settings {
        rate: h.rate,
        qpi: h.qpi,
        rules: Rules::Sheet,
    };
    Request {
        settings,
        words: records,
    }
}

// The check of any bytes, which runs nothing: 13, then 7, each at no record, then the first fault along the chain; else
// the header.
pub fn check(bytes: &[u8]) -> Result<Header, Fault>
    ensures { result ≡ header_unless (header_of bytes.now) (sheet_fault (parse bytes.now)) }
{
    let h = header(bytes)?;
    let mut room = [0u32; MOST_WORDS];
    let records = &mut room[..8 * h.records];
    sheet::fill(&bytes[20..], records);
    match chain::check(h.limit, request(&h, records), bytes.len() - h.memory) {
        Ok(_) => Ok(h),
        Err(fault) => Err(fault),
    }
}

// The run of a sheet in which the check found nothing, with these answers in place of its own.
pub fn run_with(bytes: &mut [u8], log: &mut [u32], answers: &[u32]) -> Progress
    requires { sheet_fault (parse bytes.old) ≡ Ok tt }
    ensures { RunsWith answers.now bytes.old log.old result log.new bytes.new }
{
    let h = sheet::open(bytes).unwrap();
    let limit = NonZeroU32::new(h.limit).unwrap();
    let mut room = [0u32; MOST_WORDS];
    let records = &mut room[..8 * h.records];
    sheet::fill(&bytes[20..], records);
    let request = request(&h, records);
    chain::run(limit, log, answers, &mut bytes[h.memory..], request)
}

// A sheet of this header, whose records and answers are read into a room of N words. It is always inlined: while it
// was a function of its own, document 01's sheet took longer.
#[inline(always)]
fn run_in<const N: usize>(bytes: &mut [u8], log: &mut [u32], h: &Header) -> Progress
    requires header { opened bytes.old ≡ Some h.now }
    requires room { 8 * h.now.records + h.now.answers ≤ N }
    requires most { N ≤ 16384 }
    ensures { RunsSheet bytes.old log.old result log.new bytes.new }
{
    let n = 8 * h.records;
    let mut room = [0u32; N];
    let words = &mut room[..n + h.answers];
    sheet::fill(&bytes[20..], words);
    let (records, answers) = words.split_at(n);
    let request = request(h, records);
    chain::transact(h.limit, log, answers, &mut bytes[h.memory..], request)
}

// However many words the sheet has. It is not inlined: a smaller sheet does not touch the stack of these rooms.
#[inline(never)]
fn run_large(bytes: &mut [u8], log: &mut [u32], h: &Header) -> Progress
    requires { opened bytes.old ≡ Some h.now }
    ensures { RunsSheet bytes.old log.old result log.new bytes.new }
{
    if 8 * h.records + h.answers <= 2048 {
        run_in::<2048>(bytes, log, h)
    } else {
        run_in::<MOST_WORDS>(bytes, log, h)
    }
}

// Any bytes: refused, or the run of the sheet that they are, with its own answers. Its room is cleared first, so it has
// 64 words or less than twice as many as are needed, up to 2,048.
pub fn run(bytes: &mut [u8], log: &mut [u32]) -> Progress
    ensures { RunsSheet bytes.old log.old result log.new bytes.new }
{
    let h = match header(bytes) {
        Ok(h) => h,
        Err(fault) => return Progress::refused(fault.error),
    };
    match 8 * h.records + h.answers {
        0..=64 => run_in::<64>(bytes, log, &h),
        65..=128 => run_in::<128>(bytes, log, &h),
        129..=256 => run_in::<256>(bytes, log, &h),
        257..=512 => run_in::<512>(bytes, log, &h),
        513..=1024 => run_in::<1024>(bytes, log, &h),
        _ => run_large(bytes, log, &h),
    }
}
