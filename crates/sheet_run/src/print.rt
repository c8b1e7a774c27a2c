// The lines of a sheet.
ghost use Rattle.std.specs.Prelude.{◌≡◌};
ghost use Rattle.sheet_run.specs.Print.{Prints};

use std::marker::Model;

// What a sheet prints: at most 4,096 lines of sixteen bytes, and the last one. Zeros stand behind it.
#[derive(Clone, Copy)]
pub struct Printed {
    text: [u8; 65664],
    len: usize,
}

impl Model for Printed {
    ghost use Rattle.std.specs.Prelude.{ℕ, List, take, length};
    ghost use Rattle.sheet_run.specs.Text.{filled, Behind, filled_back};

    ghost Value = { List ℕ };

    ghost view = { λ p. take p.len p.text };

    ghost invariant = { λ p. Behind p.text p.len };

    ghost inverse = { λ t. record { text = filled t; len = length t } };

    ghost inverse_ok = { λ p h. filled_back p.text p.len h (λ t n. record { text = t; len = n }) };
}

impl Printed {
    pub fn as_bytes(&self) -> &[u8]
        ensures { result.now ≡ self.now }
    {
        &self.text[..self.len]
    }
}

// Runs the sheet with a log of 4,096 entries. Its memory stands at the end of the bytes.
pub fn print(bytes: &mut [u8]) -> Printed
    ensures { Prints bytes.old result bytes.new }
{
    let mut log = [0u32; 8192];
    let mut text = [0u8; 65664];
    let ended = super::run(bytes, &mut log);
    let len = lines::render(&mut text, &log, ended);
    Printed { text, len }
}
