// Calls on windows of one lent memory. What is sent is a returned part of it; what is received goes to a part lent for the call.
#![tactic(auto)]

ghost use Rattle.std.specs.Prelude.{◌≡◌, ◌+◌, ◌^◌, ◌≤◌, ◌<◌, length};
ghost use Rattle.qspi.specs.Phases.{rx_phase};
ghost use Rattle.transfer.specs.Transfer.{in_place_steps};
ghost use Rattle.access.specs.Goes.{GoesOn};
ghost use Rattle.windows.specs.Windows.{write_window, transfer_windows, read_quad_windows, write_quad_windows};
ghost use Rattle.windows.specs.Windows.{window as Windows·window};

use access::RegisterBlock;
use config::QspiError;
use qspi::phase;
use quad::QuadFrame;

// A start and a length in the memory.
#[derive(Clone, Copy)]
pub struct Span {
    pub start: usize,
    pub len: usize,
}

// The part of the memory that a window names.
pub fn window(memory: &[u8], w: Span) -> &[u8]
    requires { w.start + w.len ≤ length memory.now }
    ensures { result.now ≡ Windows·window w.start w.len memory.now }
{
    &memory[w.start..w.start + w.len]
}

// Writes a window.
pub fn write(block: &mut RegisterBlock<'_>, memory: &[u8], w: Span) -> Result<(), QspiError>
    requires { (w.start + w.len ≤ length memory.now) × (w.len < 2 ^ 24) }
    ensures { GoesOn (write_window w.start w.len) block.old memory.now block.new memory.now result }
{
    phase::tx_phase(block, window(memory, w), true)
}

// Reads into a window.
pub fn read(block: &mut RegisterBlock<'_>, memory: &mut [u8], w: Span) -> Result<(), QspiError>
    requires { (w.start + w.len ≤ length memory.old) × (w.len < 2 ^ 24) }
    ensures { GoesOn (rx_phase w.start w.len) block.old memory.old block.new memory.new result }
{
    phase::rx_phase(block, &mut memory[w.start..w.start + w.len])
}

// Writes the second window fully, then reads into the first.
pub fn transfer(
    block: &mut RegisterBlock<'_>,
    memory: &mut [u8],
    to: Span,
    from: Span,
) -> Result<(), QspiError>
    requires to_in_bounds { (to.start + to.len ≤ length memory.old) × (to.len < 2 ^ 24) }
    requires from_in_bounds { (from.start + from.len ≤ length memory.old) × (from.len < 2 ^ 24) }
    ensures { GoesOn (transfer_windows to.start to.len from.start from.len) block.old memory.old block.new memory.new result }
{
    write(block, memory, from)?;
    read(block, memory, to)
}

// Writes and reads back a window, by parts.
pub fn transfer_in_place(
    block: &mut RegisterBlock<'_>,
    memory: &mut [u8],
    w: Span,
) -> Result<(), QspiError>
    requires { w.start + w.len ≤ length memory.old }
    ensures { GoesOn (in_place_steps w.start w.len) block.old memory.old block.new memory.new result }
{
    transfer::transfer_in_place(block, &mut memory[w.start..w.start + w.len])
}

// Reads on four lines into a window, after a frame made of another.
pub fn read_quad(
    block: &mut RegisterBlock<'_>,
    memory: &mut [u8],
    hz: u32,
    command: Span,
    tclqv_ns: u32,
    margin: u8,
    to: Span,
) -> Result<(), QspiError>
    requires command_in_bounds { command.start + command.len ≤ length memory.old }
    requires to_in_bounds { (to.start + to.len ≤ length memory.old) × (to.len < 2 ^ 24) }
    ensures { GoesOn (read_quad_windows hz command.start command.len tclqv_ns margin to.start to.len) block.old memory.old block.new memory.new result }
{
    let dummies = clock::dummy_bytes_for(hz, tclqv_ns, margin);
    let frame = QuadFrame::new(window(memory, command), dummies);
    quad::read_framed(block, frame, &mut memory[to.start..to.start + to.len])
}

// Writes a window on four lines, after another on one.
pub fn write_quad(
    block: &mut RegisterBlock<'_>,
    memory: &[u8],
    command: Span,
    from: Span,
) -> Result<(), QspiError>
    requires command_in_bounds { (command.start + command.len ≤ length memory.now) × (command.len < 2 ^ 24) }
    requires from_in_bounds { (from.start + from.len ≤ length memory.now) × (from.len < 2 ^ 24) }
    ensures { GoesOn (write_quad_windows command.start command.len from.start from.len) block.old memory.now block.new memory.now result }
{
    quad::write_quad(block, window(memory, command), window(memory, from))
}
