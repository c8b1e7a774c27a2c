// The clock of the QSPI bus: document 01, "Clock".
#![tactic(auto)]

ghost use Rattle.std.specs.Prelude.{◌≡◌, ◌+◌, ◌*◌, ◌<◌};
ghost use Rattle.clock.specs.Candidate.{candidate, factor_at, divider_at, in_range};
ghost use Rattle.clock.specs.Skip.{next_place};
ghost use Rattle.clock.specs.Rank.{choice, cost};
ghost use Rattle.clock.specs.Answer.{answer, sck};
ghost use Rattle.clock.specs.Clocked.{clocked};
ghost use Rattle.clock.specs.Dummies.{dummies, clamped, periods};

// The least and the largest SCK of an opening.
const MIN_HZ: u32 = 100_000;

const MAX_HZ: u32 = 100_000_000;

const MODULES: u32 = 32;

// The least PLL rate of which no module divider gives an eligible clock, 0 apart.
const NO_CLOCK_HZ: u32 = MODULES * (MAX_HZ + 1);

const PLACES: u32 = 272;

const CANDIDATES: u64 = 8_704;

// The rank of the fallback: candidate 0 at a cost above that of any rate. An Option would be tested at each candidate.
const FALLBACK: u64 = 0x2_0000_0000 * CANDIDATES;

// What the divider at each place divides the module clock by: Cdr1 0 to 15, then 16 lines of Cdr2 0 to 255.
#[rattlefmt::skip]
const FACTORS: &[u32; 272] = &[
    1, 2, 4, 8, 16, 32, 64, 128, 256, 512, 1_024, 2_048, 4_096, 8_192, 16_384, 32_768,
    2, 4, 6, 8, 10, 12, 14, 16, 18, 20, 22, 24, 26, 28, 30, 32,
    34, 36, 38, 40, 42, 44, 46, 48, 50, 52, 54, 56, 58, 60, 62, 64,
    66, 68, 70, 72, 74, 76, 78, 80, 82, 84, 86, 88, 90, 92, 94, 96,
    98, 100, 102, 104, 106, 108, 110, 112, 114, 116, 118, 120, 122, 124, 126, 128,
    130, 132, 134, 136, 138, 140, 142, 144, 146, 148, 150, 152, 154, 156, 158, 160,
    162, 164, 166, 168, 170, 172, 174, 176, 178, 180, 182, 184, 186, 188, 190, 192,
    194, 196, 198, 200, 202, 204, 206, 208, 210, 212, 214, 216, 218, 220, 222, 224,
    226, 228, 230, 232, 234, 236, 238, 240, 242, 244, 246, 248, 250, 252, 254, 256,
    258, 260, 262, 264, 266, 268, 270, 272, 274, 276, 278, 280, 282, 284, 286, 288,
    290, 292, 294, 296, 298, 300, 302, 304, 306, 308, 310, 312, 314, 316, 318, 320,
    322, 324, 326, 328, 330, 332, 334, 336, 338, 340, 342, 344, 346, 348, 350, 352,
    354, 356, 358, 360, 362, 364, 366, 368, 370, 372, 374, 376, 378, 380, 382, 384,
    386, 388, 390, 392, 394, 396, 398, 400, 402, 404, 406, 408, 410, 412, 414, 416,
    418, 420, 422, 424, 426, 428, 430, 432, 434, 436, 438, 440, 442, 444, 446, 448,
    450, 452, 454, 456, 458, 460, 462, 464, 466, 468, 470, 472, 474, 476, 478, 480,
    482, 484, 486, 488, 490, 492, 494, 496, 498, 500, 502, 504, 506, 508, 510, 512,
];

#[derive(Clone, Copy, Debug, PartialEq, Eq)]
pub enum DividerSelect {
    Cdr1(u8),
    Cdr2(u8),
}

#[derive(Clone, Copy, Debug, PartialEq, Eq)]
pub struct Choice {
    pub mod_div: u8,
    pub divider: DividerSelect,
}

// The target of an opening.
pub fn clamp_target(target: u32) -> u32
    ensures { result ≡ clamped target }
{
    target.clamp(MIN_HZ, MAX_HZ)
}

fn eligible(clock: u32) -> bool
    ensures { result ≡ in_range clock }
{
    1 <= clock && clock <= MAX_HZ
}

// Does some module divider give an eligible clock?
pub fn has_clock(pll: u32) -> bool
    ensures { result ≡ clocked pll }
{
    1 <= pll && pll < NO_CLOCK_HZ
}

// The divider at a place of the scan within a module divider.
fn divider_at(place: u32) -> DividerSelect
    requires { place < 272 }
    ensures { result ≡ divider_at place }
{
    if place < 16 {
        DividerSelect::Cdr1(place as u8)
    } else {
        DividerSelect::Cdr2((place - 16) as u8)
    }
}

// What the divider at a place divides the module clock by.
#[tactic(auto, unfolding(crate::specs::Candidate::factor_at))]
fn factor(place: u32) -> u32
    requires { place < 272 }
    ensures { result ≡ factor_at place }
{
    FACTORS[place as usize]
}

// Twice the distance to the target, and 1 more above it: lower is better.
fn cost_of(hz: u32, target: u32) -> u64
    ensures { result ≡ cost hz target }
{
    if hz <= target {
        2 * ((target - hz) as u64)
    } else {
        2 * ((hz - target) as u64) + 1
    }
}

// The rank of an eligible candidate: by cost, and at one cost by the scan index.
fn rank_of(hz: u32, target: u32, index: u64) -> u64
    requires { index < 8_704 }
    ensures { result ≡ cost hz target * 8_704 + index }
{
    cost_of(hz, target) * CANDIDATES + index
}

fn candidate_at(index: u32) -> Choice
    requires { index < 8_704 }
    ensures { result ≡ candidate index }
{
    let divider = divider_at(index % PLACES);
    Choice {
        mod_div: (index / PLACES) as u8,
        divider,
    }
}

// The next place to look at: after a rate that is not above the target, the rest of Cdr1, or of Cdr2, is no nearer.
#[tactic(auto, unfolding(crate::specs::Skip::next_place))]
fn next_place(place: u32, hz: u32, target: u32) -> u32
    requires { place < 272 }
    ensures { result ≡ next_place place hz target }
{
    if hz > target {
        return place + 1;
    }
    if place < 16 { 16 } else { PLACES }
}

// The candidate nearest to the target. The scan leaves out only what is no better: all after a rate that is the target,
// and by next_place.
pub fn select_clock(pll: u32, target: u32) -> Choice
    ensures { result ≡ choice pll target }
{
    let mut m: u32 = 0;
    let mut best = FALLBACK;
    let found = 'modules: loop {
        if m == MODULES {
            break best;
        }
        let clock = pll / (m + 1);
        if eligible(clock) {
            let mut place: u32 = 0;
            best = 'places: loop {
                if place == PLACES {
                    break best;
                }
                let hz = clock / factor(place);
                best = best.min(rank_of(hz, target, (m * PLACES + place) as u64));
                if best < CANDIDATES {
                    break 'modules best;
                }
                place = next_place(place, hz, target);
            };
        }
        m += 1;
    };
    candidate_at((found % CANDIDATES) as u32)
}

// The SCK rate that dividers give, if they are any.
pub fn actual_sck(pll: u32, mod_div: u8, divider: DividerSelect) -> Option<u32>
    ensures { answer result ≡ sck pll mod_div divider }
{
    if mod_div > 31 {
        return None;
    }
    let clock = pll / (mod_div as u32 + 1);
    match divider {
        DividerSelect::Cdr1(c) if c > 15 => None,
        DividerSelect::Cdr1(c) => Some(clock / factor(c as u32)),
        DividerSelect::Cdr2(c) => Some(clock / factor(16 + c as u32)),
    }
}

// How many clock periods last at least `ns` nanoseconds.
pub fn periods_for(ns: u32, hz: u32) -> u64
    ensures { result ≡ periods ns hz }
{
    (ns as u64 * hz as u64).div_ceil(1_000_000_000)
}

// The dummy bytes of a quad read.
pub fn dummy_bytes_for(hz: u32, tclqv_ns: u32, margin: u8) -> u8
    ensures { result ≡ dummies hz tclqv_ns margin }
{
    let bits = periods_for(tclqv_ns, hz);
    let bytes = (bits.div_ceil(8) % 256) as u8;
    let total = bytes.saturating_add(margin);
    if bits == 0 { total } else { total.max(1) }
}
