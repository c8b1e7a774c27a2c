// Opening and release of a bus, whose configuration is numbers.
ghost use Rattle.config.specs.Config.{work_mode_of};
ghost use Rattle.config_numbers.specs.Settings.{ctrl_mode_of, cs_of, mode_of, config_of};
ghost use Rattle.numbered.specs.Calls.{opening_outcome, opening_with};
ghost use Rattle.opening.specs.Call.{releases};
ghost use Rattle.exports.specs.Calls.{Gives, GivesOpening};
ghost use Rattle.std.specs.Prelude.{ℕ};

use counts::Counts;

// Opens the bus of an instance and writes its rate, which is 0 unless the number is 0. `qpi`: the chip has QPI;
// `core_hz`: the core rate, for the delays of transactions; `work_mode`: its number.
#[unsafe(no_mangle)]
pub extern "C" fn qspi_open(
    limit: u32,
    log: &mut [u32],
    answers: &[u32],
    instance: u32,
    qpi: bool,
    pll_hz: u32,
    osc_hz: u32,
    core_hz: u32,
    freq: u32,
    idle_high: bool,
    second_transition: bool,
    master: bool,
    work_mode: u32,
    bit_mode: bool,
    lsb_first: bool,
    cs: bool,
    cs_idle_high: bool,
    cs_high: bool,
    cs_1: bool,
    sck_hz: &mut u32,
    counts: &mut Counts,
) -> u32
    ensures { GivesOpening (opening_outcome (opening_with instance qpi core_hz (record { pll_fra0 = pll_hz; osc_24m = osc_hz }) (config_of (work_mode_of work_mode) freq (mode_of idle_high second_transition) (ctrl_mode_of master) bit_mode lsb_first (cs_of cs cs_idle_high cs_high cs_1))) limit answers.now log.old) log.new sck_hz.new result counts.new }
{
    exports::open::qspi_open(
        limit,
        log,
        answers,
        instance,
        qpi,
        pll_hz,
        osc_hz,
        core_hz,
        freq,
        idle_high,
        second_transition,
        master,
        work_mode,
        bit_mode,
        lsb_first,
        cs,
        cs_idle_high,
        cs_high,
        cs_1,
        sck_hz,
        counts,
    )
}

// Disables the clock of an instance and resets its module. It has no wait: its contract holds at every limit.
#[unsafe(no_mangle)]
pub extern "C" fn qspi_free(
    log: &mut [u32],
    answers: &[u32],
    instance: u32,
    counts: &mut Counts,
) -> u32
    ensures { (limit : ℕ) → Gives (releases instance limit answers.now log.old) log.new result counts.new }
{
    exports::open::qspi_free(log, answers, instance, counts)
}
