// The answers and the place reached in them, which travel as one struct that holds a reference.
#![tactic(auto)]

ghost use Rattle.std.specs.Prelude.{◌≡◌};
ghost use Rattle.answers.specs.Taken.{taken_at, place_after};

// The lent answers; the next of them stands at `at`.
#[derive(Clone, Copy)]
pub struct Answers<'a> {
    pub words: &'a [u32],
    pub at: usize,
}

// The answer at a place of a slice.
fn taken_at(words: &[u32], at: usize) -> Option<u32>
    ensures { result ≡ taken_at words.now at }
{
    words.get(at).copied()
}

impl Answers<'_> {
    // Takes the next answer, if one is left.
    pub fn read(&mut self) -> Option<u32>
        ensures next { result ≡ taken_at self.old.words.now self.old.at }
        ensures place { self.new.at ≡ place_after result self.old.at }
        ensures lent { self.new.words ≡ self.old.words }
    {
        let word = taken_at(self.words, self.at)?;
        self.at += 1;
        Some(word)
    }
}
