// Opening and release of the bus, as a user calls them: `new` and `free` of blocking.rs.
#![tactic(auto)]

ghost use Rattle.std.specs.Prelude.{◌≡◌, ◌<◌};
ghost use Rattle.clock.specs.Answer.{sck};
ghost use Rattle.access.specs.Makes.{Makes};
ghost use Rattle.opening.specs.Steps.{opening_steps, release_steps};
ghost use Rattle.opening.specs.Call.{opened_with, Opens, Releases};

use access::{Progress, RegisterBlock};
use clock::{Choice, DividerSelect};
use config::{QspiConfig, QspiError};
use configure::{controller, module_clock};
use setups::clock_word;
use std::num::NonZeroU32;

pub mod refusal;

// The clocks that an opening is told, in Hz.
#[derive(Clone, Copy)]
pub struct ClockTree {
    pub pll_fra0: u32,
    pub osc_24m: u32,
}

// What is opened: everything that an opening is given but its limit and its answers.
#[derive(Clone, Copy)]
pub struct Opening {
    pub instance: u32,
    // The chip has QPI.
    pub qpi: bool,
    // The rate of the core, in Hz, whose cycles a delay record counts.
    pub core_hz: u32,
    pub config: QspiConfig,
    pub clock_tree: ClockTree,
}

// How an opening ended, and the rate of its bus where it is done.
#[derive(Clone, Copy)]
pub struct Opened {
    pub progress: Progress,
    pub sck_hz: Option<u32>,
}

// The rate that dividers give.
fn rate(pll: u32, mod_div: u8, divider: DividerSelect) -> u32
    ensures { result ≡ (sck pll mod_div divider).hz }
{
    clock::actual_sck(pll, mod_div, divider).unwrap_or(0)
}

// The steps of an opening: `new` after its tests and its choice of clock.
fn new(
    block: &mut RegisterBlock<'_>,
    opening: Opening,
    choice: Choice,
    sck_hz: u32,
) -> Result<(), QspiError>
    requires { opening.instance < 4 }
    ensures { Makes (opening_steps opening.instance choice.mod_div choice.divider sck_hz opening.clock_tree.osc_24m opening.config) block.old block.new result }
{
    let Opening {
        instance,
        config,
        clock_tree,
        ..
    } = opening;
    module_clock::enable_module_clock(block, instance, choice.mod_div)?;
    controller::configure_registers(block, config, choice.divider, sck_hz, clock_tree.osc_24m)?;
    controller::init_fifos(block)
}

// The rate only where the opening is done.
fn with_rate(progress: Progress, sck_hz: u32) -> Opened
    ensures { result ≡ opened_with sck_hz progress }
{
    Opened {
        progress,
        sck_hz: progress.ended.ok().map(|()| sck_hz),
    }
}

// Opens the bus of an instance.
pub fn open(limit: u32, log: &mut [u32], answers: &[u32], opening: Opening) -> Opened
    ensures { Opens opening limit answers.now log.old result log.new }
{
    let limit = match refusal::refused(limit, opening) {
        Ok(limit) => limit,
        Err(error) => {
            return Opened {
                progress: Progress::refused(error),
                sck_hz: None,
            };
        }
    };
    let pll = opening.clock_tree.pll_fra0;
    let choice = clock::select_clock(pll, clock::clamp_target(opening.config.freq));
    let sck_hz = rate(pll, choice.mod_div, choice.divider);
    let mut block = RegisterBlock::new(limit, log, answers);
    let ended = new(&mut block, opening, choice, sck_hz);
    with_rate(block.progress(ended), sck_hz)
}

// Disables the clock of an instance and resets its module.
#[tactic(auto, unfolding(crate::specs::Steps::release_steps))]
fn release(block: &mut RegisterBlock<'_>, instance: u32) -> Result<(), QspiError>
    ensures { Makes (release_steps instance) block.old block.new result }
{
    clock_word::disable(block, module_clock::clock_place(instance))
}

// Disables the clock of an instance and resets its module; without a wait, at any limit.
pub fn free(instance: u32, log: &mut [u32], answers: &[u32]) -> Progress
    ensures { Releases instance answers.now log.old result log.new }
{
    let mut block = RegisterBlock::new(NonZeroU32::MIN, log, answers);
    let ended = release(&mut block, instance);
    block.progress(ended)
}
