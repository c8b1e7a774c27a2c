// Reads a sheet from standard input and prints its lines. One byte more than a sheet may have is read, to see that
// there are too many.
#![tactic(auto)]

fn main() {
    let mut bytes = [0u8; 65537];
    // std's Read has no form that fills a buffer and says how far it came: with it, this would be a loop of our own.
    let n = io::read_full(0, &mut bytes);
    let printed = sheet_run::print::print(&mut bytes[..n]);
    io::write_all(1, printed.as_bytes());
}
