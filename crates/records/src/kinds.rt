// The kinds of records, as a table. Fields are numbered as the words of a record: 0 the kind, 1 to 6, 7 the next
// record.
#![tactic(auto)]

ghost use Rattle.std.specs.Prelude.{◌≡◌};
ghost use Rattle.std.specs.List.{list_any};
ghost use Rattle.records.specs.Kinds.{kind_of, row};
ghost use Rattle.records.specs.Check.{field, known, out_of_range, windows_fault};
ghost use Rattle.records.specs.Check.{extent_in, extents_of, outside_of, too_long};

use super::extent::Extent;
use config::QspiError;

// The fields of a start and a length in lent memory; `phase` says that the length is that of one phase, so 6 tests it.
#[derive(Clone, Copy)]
pub struct Window {
    pub start: usize,
    pub size: usize,
    pub phase: bool,
}

// A field and its largest value.
#[derive(Clone, Copy)]
pub struct Cap {
    pub field: usize,
    pub most: u32,
}

// Which fields are windows, which have a largest value, and which are used at all.
#[derive(Clone, Copy)]
pub struct Kind {
    pub windows: &'static [Window],
    pub caps: &'static [Cap],
    pub used: &'static [usize],
}

// Windows by their fields.
pub(crate) const F1_F2: Window = Window {
    start: 1,
    size: 2,
    phase: true,
};

pub(crate) const F1_F2_UNTESTED: Window = Window {
    start: 1,
    size: 2,
    phase: false,
};

pub(crate) const F3_F4: Window = Window {
    start: 3,
    size: 4,
    phase: true,
};

pub(crate) const F5_F6: Window = Window {
    start: 5,
    size: 6,
    phase: true,
};

const MODE: Cap = Cap { field: 1, most: 6 };

const MARGIN: Cap = Cap {
    field: 4,
    most: 255,
};

// Row k is kind k; there is no kind 0.
#[rattlefmt::skip]
static KINDS: [Kind; 10] = [
    Kind { windows: &[], caps: &[], used: &[] },
    Kind { windows: &[F1_F2], caps: &[], used: &[1, 2] }, // 1 write
    Kind { windows: &[F1_F2], caps: &[], used: &[1, 2] }, // 2 read
    Kind { windows: &[F1_F2, F3_F4], caps: &[], used: &[1, 2, 3, 4] }, // 3 transfer
    Kind { windows: &[F1_F2_UNTESTED], caps: &[], used: &[1, 2] }, // 4 in place
    Kind { windows: &[], caps: &[], used: &[1] }, // 5 delay
    Kind { windows: &[], caps: &[], used: &[] }, // 6 flush
    Kind { windows: &[], caps: &[MODE], used: &[1] }, // 7 mode
    Kind { windows: &[F1_F2_UNTESTED, F5_F6], caps: &[MARGIN], used: &[1, 2, 3, 4, 5, 6] }, // 8 quad read
    Kind { windows: &[F1_F2, F5_F6], caps: &[], used: &[1, 2, 5, 6] }, // 9 quad write
];

// The row of a kind; row 0, with nothing in it, for a kind that there is none of.
pub fn kind_of(k: u32) -> &'static Kind
    ensures { row result.now ≡ kind_of k }
{
    KINDS.get(k as usize).unwrap_or(&KINDS[0])
}

// Is there such a kind, and is it at most the highest allowed?
pub(crate) fn known(highest: u32, k: u32) -> bool
    ensures { result ≡ known highest k }
{
    1 <= k && k <= highest && (k as usize) < KINDS.len()
}

// A field of a record; 0 past its words.
fn field(r: &[u32; 8], k: usize) -> u32
    ensures { result ≡ field r.now k }
{
    r.get(k).copied().unwrap_or(0)
}

impl Window {
    // Its values in a record.
    pub(crate) fn extent(self, r: &[u32; 8]) -> Extent
        ensures { result ≡ extent_in r.now self }
    {
        Extent {
            start: field(r, self.start),
            size: field(r, self.size),
            phase: self.phase,
        }
    }
}

// Is one of a record's fields above its largest value?
pub(crate) fn out_of_range(r: &[u32; 8]) -> bool
    ensures { result ≡ out_of_range r.now }
{
    kind_of(r[0])
        .caps
        .iter()
        .any(|c| c.most < field(r, c.field))
}

// Is one of its windows outside?
fn any_outside(r: &[u32; 8], memory: usize) -> bool
    ensures { result ≡ list_any (outside_of memory) (extents_of r.now) }
{
    kind_of(r[0])
        .windows
        .iter()
        .any(|w| w.extent(r).outside(memory))
}

// Is the length of one of its phases too long?
fn any_too_long(r: &[u32; 8]) -> bool
    ensures { result ≡ list_any too_long (extents_of r.now) }
{
    kind_of(r[0]).windows.iter().any(|w| w.extent(r).too_long())
}

// 9 if one of its windows is outside, else 6 if one of its phases is too long.
#[tactic(auto, unfolding(crate::specs::Check::windows_fault, crate::specs::Check::extents_fault))]
pub(crate) fn windows_fault(r: &[u32; 8], memory: usize) -> Result<(), QspiError>
    ensures { result ≡ windows_fault memory r.now }
{
    if any_outside(r, memory) {
        Err(QspiError::Window)
    } else if any_too_long(r) {
        Err(QspiError::Length)
    } else {
        Ok(())
    }
}
