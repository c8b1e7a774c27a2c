// Cases of the bus trait's calls and of chains.
use super::failure::Failure;
use super::fields::Fields;
use super::text::{logged, on_bytes, on_memory};
use std::alloc::Global;

pub fn write(alloc: Global, mut f: Fields<'_>) -> Result<Vec<u8>, Failure> {
    let limit = f.number()?;
    let words = f.number()?;
    let sent = f.bytes(alloc)?;
    let answers = f.list()?;
    logged(alloc, words, |log| {
        bus::spi_bus::write(limit, log, answers, &sent)
    })
}

pub fn read(alloc: Global, mut f: Fields<'_>) -> Result<Vec<u8>, Failure> {
    let limit = f.number()?;
    let words = f.number()?;
    let given = f.bytes(alloc)?;
    let answers = f.list()?;
    on_memory(alloc, words, &given, |log, received| {
        bus::spi_bus::read(limit, log, answers, received)
    })
}

pub fn transfer(alloc: Global, mut f: Fields<'_>) -> Result<Vec<u8>, Failure> {
    let limit = f.number()?;
    let words = f.number()?;
    let given = f.bytes(alloc)?;
    let sent = f.bytes(alloc)?;
    let answers = f.list()?;
    on_memory(alloc, words, &given, |log, received| {
        bus::spi_bus::transfer(limit, log, answers, received, &sent)
    })
}

pub fn transfer_in_place(alloc: Global, mut f: Fields<'_>) -> Result<Vec<u8>, Failure> {
    let limit = f.number()?;
    let words = f.number()?;
    let given = f.bytes(alloc)?;
    let answers = f.list()?;
    on_memory(alloc, words, &given, |log, bytes| {
        bus::spi_bus::transfer_in_place(limit, log, answers, bytes)
    })
}

pub fn flush(alloc: Global, mut f: Fields<'_>) -> Result<Vec<u8>, Failure> {
    let limit = f.number()?;
    let words = f.number()?;
    let answers = f.list()?;
    logged(alloc, words, |log| bus::spi_bus::flush(limit, log, answers))
}

pub fn transaction(alloc: Global, mut f: Fields<'_>) -> Result<Vec<u8>, Failure> {
    let limit = f.number()?;
    let words = f.number()?;
    let core_hz = f.number()?;
    let records = f.words()?;
    let given = f.bytes(alloc)?;
    let answers = f.list()?;
    on_memory(alloc, words, &given, |log, memory| {
        chain::transaction(limit, core_hz, log, answers, memory, records)
    })
}

// The log of a sheet has 4,096 entries. Its memory begins behind its answers; bytes that are no sheet have none.
pub fn sheet(alloc: Global, mut f: Fields<'_>) -> Result<Vec<u8>, Failure> {
    let given = f.bytes(alloc)?;
    f.end()?;
    let memory = sheet::open(&given).map_or(given.len(), |header| header.memory);
    on_bytes(alloc, u32::MAX, memory, &given, |log, bytes| {
        sheet_run::run(bytes, log)
    })
}
