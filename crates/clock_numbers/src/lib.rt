// The clock's dividers by numbers: a kind, 1 for Cdr1 and 2 for Cdr2, and a count. The numbers are the C interface's.
#![tactic(auto)]

ghost use Rattle.std.specs.Prelude.{◌≡◌};
ghost use Rattle.clock_numbers.specs.Dividers.{kind_of, count_of, divider_of, sck_of, answer_of};

use clock::DividerSelect;
use config::QspiError;

// The divider of a kind and a count up to 255, if there is one.
fn divider_of(kind: u32, count: u32) -> Option<DividerSelect>
    ensures { result ≡ divider_of kind count }
{
    let count = u8::try_from(count).ok()?;
    match kind {
        1 => Some(DividerSelect::Cdr1(count)),
        2 => Some(DividerSelect::Cdr2(count)),
        _ => None,
    }
}

pub fn kind_of(divider: DividerSelect) -> u32
    ensures { result ≡ kind_of divider }
{
    match divider {
        DividerSelect::Cdr1(_) => 1,
        DividerSelect::Cdr2(_) => 2,
    }
}

pub fn count_of(divider: DividerSelect) -> u32
    ensures { result ≡ count_of divider }
{
    match divider {
        DividerSelect::Cdr1(c) | DividerSelect::Cdr2(c) => c as u32,
    }
}

// The rate that dividers give; Divider if they are none.
pub fn actual_sck(pll: u32, mod_div: u32, kind: u32, count: u32) -> Result<u32, QspiError>
    ensures { answer_of result ≡ sck_of pll mod_div kind count }
{
    let mod_div = u8::try_from(mod_div).map_err(|_| QspiError::Divider)?;
    let divider = divider_of(kind, count).ok_or(QspiError::Divider)?;
    clock::actual_sck(pll, mod_div, divider).ok_or(QspiError::Divider)
}
