// The numbers of a case's line, read from the front.
ghost use Rattle.std.specs.Prelude.{◌≡◌, ◌==◌, slice_index, ◌≤◌, ◌∷◌, ◌++◌, length, nat_eq, is_ok, IfOk, OnErr};
ghost use Rattle.std.specs.Prelude.{vec_len};
ghost use Rattle.replay.specs.Fields.{ends_with_list};

use super::failure::Failure;
use std::alloc::Global;

// A line with more numbers is no case.
const MOST_NUMBERS: usize = 2048;

// Nor is one that gives or asks for more bytes at once.
const MOST_BYTES: usize = 4096;

// The numbers of a line, each after a blank.
pub fn parse(alloc: Global, line: &[u8]) -> Result<Vec<u32>, Failure>
    ensures { IfOk result (λ v. vec_len v ≤ MOST_NUMBERS) }
{
    let mut numbers = Vec::new(alloc);
    for word in line.split(|b| *b == b' ').skip(1) {
        let number = cases::number(word).ok_or(Failure::NoCase)?;
        if numbers.len() == MOST_NUMBERS {
            return Err(Failure::NoCase);
        }
        numbers.push(number)?;
    }
    Ok(numbers)
}

// The numbers that are not read yet.
#[derive(Clone, Copy, Debug)]
pub struct Fields<'a> {
    pub rest: &'a [u32],
}

impl<'a> Fields<'a> {
    // The next number.
    pub fn number(&mut self) -> Result<u32, Failure>
        ensures ok { IfOk result (λ n. self.old.rest.now ≡ n ∷ self.new.rest.now) }
        ensures err { OnErr result (length self.old.rest.now ≡ 0) }
    {
        let (first, rest) = self.rest.split_first().ok_or(Failure::NoCase)?;
        self.rest = rest;
        Ok(*first)
    }

    // The next number is 1.
    pub fn flag(&mut self) -> Result<bool, Failure>
        ensures { IfOk result (λ b. b ≡ (slice_index self.old.rest.now 0 == 1)) }
    {
        Ok(self.number()? == 1)
    }

    // As many numbers as the next one says.
    pub fn words(&mut self) -> Result<&'a [u32], Failure>
        ensures ok { IfOk result (λ l. self.old.rest.now ≡ length l.now ∷ l.now ++ self.new.rest.now) }
        ensures err { OnErr result (length self.old.rest.now ≤ slice_index self.old.rest.now 0) }
    {
        let count = self.number()? as usize;
        let (words, rest) = self.rest.split_at_checked(count).ok_or(Failure::NoCase)?;
        self.rest = rest;
        Ok(words)
    }

    // No number is left.
    pub fn end(self) -> Result<(), Failure>
        ensures { is_ok result ≡ nat_eq (length self.entry.rest.now) 0 }
    {
        if self.rest.is_empty() {
            Ok(())
        } else {
            Err(Failure::NoCase)
        }
    }

    // The last part: a list, after its count.
    pub fn list(mut self) -> Result<&'a [u32], Failure>
        ensures ok { IfOk result (λ l. self.entry.rest.now ≡ length l.now ∷ l.now) }
        ensures variant { is_ok result ≡ ends_with_list self.entry.rest.now 0 }
    {
        let words = self.words()?;
        self.end()?;
        Ok(words)
    }

    // Bytes: their count, how many are given, and those; the others are 0.
    pub fn bytes(&mut self, alloc: Global) -> Result<Vec<u8>, Failure>
        ensures { IfOk result (λ v. vec_len v ≤ MOST_BYTES) }
    {
        let len = self.number()? as usize;
        let given = self.words()?;
        if len > MOST_BYTES || given.len() > len {
            return Err(Failure::NoCase);
        }
        let mut bytes = Vec::with_capacity(alloc, len)?;
        for n in given {
            bytes.push(u8::try_from(*n)?)?;
        }
        bytes.resize(len, 0)?;
        Ok(bytes)
    }
}
