// Windows of records in the lent memory.
ghost use Rattle.std.specs.Prelude.{◌≡◌, true, false};
ghost use Rattle.records.specs.Check.{outside_of, too_long};

// A window of a record; `phase` says that its length is that of one phase.
#[derive(Clone, Copy)]
pub struct Extent {
    pub start: u32,
    pub size: u32,
    pub phase: bool,
}

impl Extent {
    // Is it start + length above the memory's length?
    pub(crate) fn outside(self, memory: usize) -> bool
        ensures { result ≡ outside_of memory self }
    {
        memory < self.start as usize + self.size as usize
    }

    // Is its phase above FFFFFF hex bytes?
    pub(crate) fn too_long(self) -> bool
        ensures { result ≡ too_long self }
    {
        self.phase && 0xFFFFFF < self.size
    }
}
