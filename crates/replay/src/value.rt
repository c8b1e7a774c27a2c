// Cases of the clock: its choice, its rate, the dummies that it asks for.
use super::failure::Failure;
use super::fields::Fields;
use std::alloc::Global;
use std::io::Write;

pub fn select_clock(alloc: Global, mut f: Fields<'_>) -> Result<Vec<u8>, Failure> {
    let pll = f.number()?;
    let target = f.number()?;
    f.end()?;
    let (mut mod_div, mut kind, mut count, mut rate) = (0, 0, 0, 0);
    exports::clocks::qspi_select_clock(pll, target, &mut mod_div, &mut kind, &mut count);
    exports::clocks::qspi_actual_sck(pll, mod_div, kind, count, &mut rate);
    let mut out = Vec::new(alloc);
    writeln!(out, "clock {mod_div} {kind} {count} {rate}")?;
    Ok(out)
}

pub fn actual_sck(alloc: Global, mut f: Fields<'_>) -> Result<Vec<u8>, Failure> {
    let pll = f.number()?;
    let mod_div = f.number()?;
    let kind = f.number()?;
    let count = f.number()?;
    f.end()?;
    let mut rate = 0;
    let number = exports::clocks::qspi_actual_sck(pll, mod_div, kind, count, &mut rate);
    let mut out = Vec::new(alloc);
    writeln!(out, "sck {number} {rate}")?;
    Ok(out)
}

pub fn dummy_bytes(alloc: Global, mut f: Fields<'_>) -> Result<Vec<u8>, Failure> {
    let hz = f.number()?;
    let tclqv = f.number()?;
    let margin = u8::try_from(f.number()?)?;
    f.end()?;
    let count = exports::clocks::qspi_dummy_bytes_for(hz, tclqv, margin);
    let mut out = Vec::new(alloc);
    writeln!(out, "dummy {count}")?;
    Ok(out)
}
