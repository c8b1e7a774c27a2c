// Cases of opening and release.
use super::failure::Failure;
use super::fields::Fields;
use super::text::logged;
use config_numbers::ConfigNumbers;
use opening::{ClockTree, Opening};
use std::alloc::Global;
use std::io::Write;

// The settings, in the order of a line. SPI modes 2 and 3 idle high; 1 and 3 capture on the second transition.
fn settings(f: &mut Fields<'_>) -> Result<ConfigNumbers, Failure> {
    let spi_mode = f.number()?;
    Ok(ConfigNumbers {
        idle_high: spi_mode >= 2,
        second_transition: spi_mode % 2 == 1,
        master: f.flag()?,
        work_mode: f.number()?,
        bit_mode: f.flag()?,
        lsb_first: f.flag()?,
        cs: f.flag()?,
        cs_idle_high: f.flag()?,
        cs_high: f.flag()?,
        cs_1: f.flag()?,
        freq: f.number()?,
    })
}

pub fn open(alloc: Global, mut f: Fields<'_>) -> Result<Vec<u8>, Failure> {
    let instance = f.number()?;
    let found = settings(&mut f)?.config();
    let clock_tree = ClockTree {
        pll_fra0: f.number()?,
        osc_24m: f.number()?,
    };
    let core_hz = f.number()?;
    let qpi = f.flag()?;
    let found = found.map(|config| Opening {
        instance,
        qpi,
        core_hz,
        config,
        clock_tree,
    });
    let limit = f.number()?;
    let words = f.number()?;
    let answers = f.list()?;
    let mut hz = 0;
    let mut out = logged(alloc, words, |log| {
        let opened = numbered::open_found(limit, log, answers, found);
        hz = opened.sck_hz.unwrap_or(0);
        opened.progress
    })?;
    writeln!(out, "rate {hz}")?;
    Ok(out)
}

pub fn free(alloc: Global, mut f: Fields<'_>) -> Result<Vec<u8>, Failure> {
    let instance = f.number()?;
    let words = f.number()?;
    let answers = f.list()?;
    logged(alloc, words, |log| opening::free(instance, log, answers))
}
