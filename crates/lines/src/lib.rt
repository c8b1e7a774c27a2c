// The lines that a sheet prints, written into a lent buffer.
#![tactic(auto)]

ghost use Rattle.std.specs.Prelude.{◌≡◌, ◌+◌, ◌*◌, ◌^◌, ◌≤◌, ◌<◌, ◌%◌, length};
ghost use Rattle.io.specs.Digits.{last_digits, hex_digit_ascii};
ghost use Rattle.lines.specs.Text.{letter_of, entry_line, number, end_line, ending_of, printed, Wrote};
ghost use Rattle.lines.specs.Writer.{Puts};

use access::Progress;

// A lent buffer, and how many bytes at its front are written.
#[derive(Drop)]
struct Writer<'a> {
    buffer: &'a mut [u8],
    len: usize,
}

impl Writer<'_> {
    fn put(&mut self, text: &[u8])
        requires { self.old.len + length text.now ≤ length self.old.buffer.now }
        ensures { Puts self.old self.new text.now }
    {
        let end = self.len + text.len();
        self.buffer[self.len..end].copy_from_slice(text);
        self.len = end;
    }

    // A blank, and n in decimal.
    fn put_number(&mut self, n: u64)
        requires { self.old.len + 21 ≤ length self.old.buffer.now }
        ensures wrote { Puts self.old self.new (number n) }
        ensures upper_bound { self.new.len ≤ self.old.len + 21 }
    {
        let mut digits = [0u8; 20];
        let k = io::decimal(n, &mut digits);
        self.put(b" ");
        self.put(&digits[..k]);
    }

    // n, which has at most `width` hexadecimal digits, with zeros in front.
    fn put_hex(&mut self, n: u32, width: usize)
        requires some { 0 < width }
        requires few { width ≤ 16 }
        requires digits { n < 16 ^ width }
        requires room { self.old.len + width ≤ length self.old.buffer.now }
        ensures { Puts self.old self.new (last_digits 16 width n) }
    {
        let end = self.len + width;
        hex_digits(n, &mut self.buffer[self.len..end]);
        self.len = end;
    }

    // The line of one entry of the log.
    fn put_entry(&mut self, head: u32, value: u32)
        requires { self.old.len + 16 ≤ length self.old.buffer.now }
        ensures { Puts self.old self.new (entry_line head value) }
    {
        self.put(&[letter(head / 65536), b' ']);
        self.put_hex(head % 65536, 4);
        self.put(&[b' ']);
        self.put_hex(value, 8);
        self.put(&[b'\n']);
    }

    // The last line.
    fn put_end(&mut self, end: Progress)
        requires { self.old.len + 128 ≤ length self.old.buffer.now }
        ensures { Puts self.old self.new (end_line (ending_of end)) }
    {
        self.put(b"end");
        self.put_number(end.number() as u64);
        self.put_number(end.entries as u64);
        self.put_number(end.taken as u64);
        self.put_number(end.tally.polls as u64);
        self.put_number(end.tally.longest as u64);
        self.put(b"\n");
    }
}

// The letter of an op.
fn letter(op: u32) -> u8
    ensures { result ≡ letter_of op }
{
    match op {
        1 => b'r',
        2 => b'w',
        3 => b'b',
        4 => b'g',
        5 => b'd',
        _ => b'?',
    }
}

// The last hexadecimal digit of n.
fn digit(n: u32) -> u8
    ensures { result ≡ hex_digit_ascii (n % 16) }
{
    let d = n % 16;
    if d < 10 { 48 + d as u8 } else { 87 + d as u8 }
}

// The last hexadecimal digits of n, as many as there is room for in `text`.
fn hex_digits(n: u32, text: &mut [u8])
    ensures { text.new ≡ last_digits 16 (length text.old) n }
{
    let mut rest = n;
    for i in (0..text.len()).rev() {
        text[i] = digit(rest);
        rest /= 16;
    }
}

// Everything that is printed, from the start of the buffer on; answers how many bytes that is.
pub fn render(out: &mut [u8], log: &[u32], end: Progress) -> usize
    requires entries_in_bounds { 2 * end.entries ≤ length log.now }
    requires entries_in_bounds_2 { 16 * end.entries + 128 ≤ length out.old }
    ensures { Wrote out.old 0 out.new result (printed log.now (ending_of end)) }
{
    let (entries, _) = log.as_chunks::<2>();
    let mut lines = Writer {
        buffer: out,
        len: 0,
    };
    for [head, value] in &entries[..end.entries] {
        lines.put_entry(*head, *value);
    }
    lines.put_end(end);
    lines.len
}
