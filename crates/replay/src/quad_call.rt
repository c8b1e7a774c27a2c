// Cases of the quad calls and of the work mode.
use super::failure::Failure;
use super::fields::Fields;
use super::text::{logged, on_memory};
use std::alloc::Global;

pub fn read_quad(alloc: Global, mut f: Fields<'_>) -> Result<Vec<u8>, Failure> {
    let limit = f.number()?;
    let words = f.number()?;
    let hz = f.number()?;
    let command = f.bytes(alloc)?;
    let tclqv = f.number()?;
    let margin = u8::try_from(f.number()?)?;
    let given = f.bytes(alloc)?;
    let answers = f.list()?;
    on_memory(alloc, words, &given, |log, received| {
        bus::quad_spi_bus::read_quad(limit, log, answers, hz, &command, tclqv, margin, received)
    })
}

pub fn write_quad(alloc: Global, mut f: Fields<'_>) -> Result<Vec<u8>, Failure> {
    let limit = f.number()?;
    let words = f.number()?;
    let command = f.bytes(alloc)?;
    let sent = f.bytes(alloc)?;
    let answers = f.list()?;
    logged(alloc, words, |log| {
        bus::quad_spi_bus::write_quad(limit, log, answers, &command, &sent)
    })
}

pub fn set_work_mode(alloc: Global, mut f: Fields<'_>) -> Result<Vec<u8>, Failure> {
    let limit = f.number()?;
    let words = f.number()?;
    let qpi = f.flag()?;
    let mode = f.number()?;
    let answers = f.list()?;
    logged(alloc, words, |log| {
        numbered::set_numbered_mode(limit, qpi, log, answers, mode)
    })
}
