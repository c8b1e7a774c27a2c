// The bytes of a sheet: its header, the test for 13, and its words.
#![tactic(auto)]

ghost use Rattle.std.specs.Prelude.{◌≡◌, ◌*◌, ◌≤◌, length};
ghost use Rattle.sheet.specs.Words.{words};
ghost use Rattle.sheet.specs.Open.{opened};

// The header of a sheet; `memory` is the byte at which the lent memory starts.
#[derive(Clone, Copy)]
pub struct Header {
    pub limit: u32,
    pub rate: u32,
    pub qpi: bool,
    pub records: usize,
    pub answers: usize,
    pub memory: usize,
}

// The header, or none: the bytes are no sheet (13).
pub fn open(bytes: &[u8]) -> Option<Header>
    ensures { result ≡ opened bytes.now }
{
    if bytes.len() > 65536 {
        return None;
    }
    let (spelled, _) = bytes.as_chunks::<4>();
    let [limit, rate, qpi, records, answers, ..] = spelled else {
        return None;
    };
    let qpi = u32::from_le_bytes(*qpi);
    let records = u32::from_le_bytes(*records) as usize;
    let answers = u32::from_le_bytes(*answers) as usize;
    let memory = 20 + 32 * records + 4 * answers;
    if bytes.len() < memory || qpi > 1 {
        return None;
    }
    Some(Header {
        limit: u32::from_le_bytes(*limit),
        rate: u32::from_le_bytes(*rate),
        qpi: qpi == 1,
        records,
        answers,
        memory,
    })
}

// Fills `out` with the words that the bytes begin with.
pub fn fill(bytes: &[u8], out: &mut [u32])
    requires { 4 * length out.old ≤ length bytes.now }
    ensures { out.new ≡ words (length out.old) bytes.now }
{
    let (spelled, _) = bytes.as_chunks::<4>();
    for (i, word) in out.iter_mut().enumerate() {
        *word = u32::from_le_bytes(spelled[i]);
    }
}
