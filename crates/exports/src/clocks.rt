// The clock: its choice, its rate, the dummies that it asks for.
ghost use Rattle.std.specs.Prelude.{◌≡◌};
ghost use Rattle.clock.specs.Rank.{choice};
ghost use Rattle.clock.specs.Dummies.{dummies};
ghost use Rattle.clock_numbers.specs.Dividers.{sck_of, Answered};
ghost use Rattle.exports.specs.Clocks.{Selected};

// The dividers nearest to a target: the module divider, the kind (1 for Cdr1, 2 for Cdr2) and its count.
pub fn qspi_select_clock(pll: u32, target: u32, mod_div: &mut u32, kind: &mut u32, count: &mut u32)
    ensures { Selected (choice pll target) mod_div.new kind.new count.new }
{
    let c = clock::select_clock(pll, target);
    let divider = c.divider;
    *mod_div = c.mod_div as u32;
    *kind = clock_numbers::kind_of(divider);
    *count = clock_numbers::count_of(divider);
}

// The rate that dividers give, with number 0; or number 12 and rate 0.
pub fn qspi_actual_sck(pll: u32, mod_div: u32, kind: u32, count: u32, rate: &mut u32) -> u32
    ensures { Answered (sck_of pll mod_div kind count) result rate.new }
{
    match clock_numbers::actual_sck(pll, mod_div, kind, count) {
        Ok(hz) => {
            *rate = hz;
            0
        }
        Err(error) => {
            *rate = 0;
            error.number()
        }
    }
}

// The dummy bytes of a quad read at a rate.
pub fn qspi_dummy_bytes_for(hz: u32, tclqv_ns: u32, margin: u8) -> u8
    ensures { result ≡ dummies hz tclqv_ns margin }
{
    clock::dummy_bytes_for(hz, tclqv_ns, margin)
}
