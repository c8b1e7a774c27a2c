// The answer that is due where modes leave QPI.
ghost use Rattle.std.specs.Prelude.{◌≡◌, ◌<◌, ◌≤◌, false, length, get_or, bytes_eq};
ghost use Rattle.leaves_qpi.specs.Leaves.{has_modes, mode_word, modes_before, halved, due_byte, due};

// Calls that run modes.
#[tactic(auto, unfolding(crate::specs::Leaves::has_modes))]
pub fn has_modes(name: &[u8]) -> bool
    ensures { result ≡ has_modes name.now }
{
    name == b"mode".as_slice()
        || name == b"quadread".as_slice()
        || name == b"quadwrite".as_slice()
        || name == b"sheet".as_slice()
}

// A word that a mode writes to 038 begins here.
#[tactic(auto, unfolding(crate::specs::Leaves::mode_word))]
fn mode_word(text: &[u8], i: usize) -> bool
    requires { i ≤ length text.now }
    ensures { result ≡ mode_word text.now i }
{
    i >= 39 && text[i - 39..].starts_with(b"r 0008 ") && text[i - 7..].starts_with(b"w 0038 ")
}

// How many begin before.
fn modes_before(text: &[u8], i: usize) -> usize
    requires { i ≤ length text.now }
    ensures { result ≡ modes_before text.now i }
{
    (0..i).filter(|j| mode_word(text, *j)).count()
}

// A hexadecimal digit without its highest bit.
#[tactic(auto, unfolding(crate::specs::Leaves::halved))]
fn halved(digit: u8) -> u8
    ensures { result ≡ halved digit }
{
    match digit {
        b'8' | b'9' => digit - 8,
        b'a'..=b'f' => digit - 47,
        _ => digit,
    }
}

// The mode after so many others leaves QPI.
fn leaves(modes: &[bool], nth: usize) -> bool
    ensures { result ≡ get_or modes.now nth false }
{
    nth < modes.len() && modes[nth]
}

// The byte that is due at a place.
#[tactic(auto, unfolding(crate::specs::Leaves::due_byte))]
fn due_byte(modes: &[bool], text: &[u8], i: usize) -> u8
    requires { i < length text.now }
    ensures { result ≡ due_byte modes.now text.now i }
{
    let digit = text[i];
    if mode_word(text, i) && leaves(modes, modes_before(text, i)) {
        halved(digit)
    } else {
        digit
    }
}

// The library's answer is the oracle's, but for bit 31 of the words of modes that leave QPI.
pub fn is_due(modes: &[bool], oracle: &[u8], library: &[u8]) -> bool
    ensures { result ≡ bytes_eq (due modes.now oracle.now) library.now }
{
    library.len() == oracle.len()
        && (0..oracle.len()).all(|i| due_byte(modes, oracle, i) == library[i])
}
