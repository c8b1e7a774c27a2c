// The blocking QSPI bus, from blocking.rs. It is plain data: each call is right for every value of it, opened or not.
#![tactic(auto)]

ghost use Rattle.std.specs.Prelude.{◌≡◌, length};
ghost use Rattle.clock.specs.Dummies.{dummies};
ghost use Rattle.bus.specs.Calls.{Call};
ghost use Rattle.bus.specs.Does.{Called, CalledOn};
ghost use Rattle.opening.specs.Call.{Releases};
ghost use Rattle.chain.specs.Transaction.{Transacts};
ghost use Rattle.chain.specs.Transaction.{transaction as Transaction·transaction};
ghost use Rattle.blocking.specs.Opened.{News};

use access::Progress;
use config::{QspiConfig, WorkMode};
use opening::Opening;

#[derive(Clone, Copy)]
pub struct BlockingQspi {
    pub instance: u32,
    // The chip has QPI.
    pub qpi: bool,
    // Unready polls in one wait that give a timeout.
    pub limit: u32,
    // The rate of the core, in Hz, whose cycles a delay record counts; at 0 each has none.
    pub core_hz: u32,
    // SCK frequency produced by the divider chain.
    pub sck_hz: u32,
    pub config: QspiConfig,
}

// How an opening ended, and its bus where it is done.
#[derive(Clone, Copy)]
pub struct Opened {
    pub progress: Progress,
    pub bus: Option<BlockingQspi>,
}

impl BlockingQspi {
    // Opens the bus of an instance.
    pub fn new(limit: u32, log: &mut [u32], answers: &[u32], opening: Opening) -> Opened
        ensures { News opening limit answers.now log.old result log.new }
    {
        let opened = opening::open(limit, log, answers, opening);
        let bus = opened.sck_hz.map(|sck_hz| BlockingQspi {
            instance: opening.instance,
            qpi: opening.qpi,
            limit,
            core_hz: opening.core_hz,
            sck_hz,
            config: opening.config,
        });
        Opened {
            progress: opened.progress,
            bus,
        }
    }

    // Disables the clock and resets the module.
    pub fn free(self, log: &mut [u32], answers: &[u32]) -> Progress
        ensures { Releases self.instance answers.now log.old result log.new }
    {
        opening::free(self.instance, log, answers)
    }

    // SCK frequency produced by the divider chain.
    pub fn sck_hz(self) -> u32
        ensures { result ≡ self.sck_hz }
    {
        self.sck_hz
    }

    // Configuration this bus was built with.
    pub fn config(self) -> QspiConfig
        ensures { result ≡ self.config }
    {
        self.config
    }

    // Dummy bytes the command needs at this bus's rate.
    pub fn dummy_bytes_for(self, tclqv_ns: u32, margin: u8) -> u8
        ensures { result ≡ dummies self.sck_hz tclqv_ns margin }
    {
        clock::dummy_bytes_for(self.sck_hz, tclqv_ns, margin)
    }

    // Writes all the words on a single line.
    pub fn write(self, log: &mut [u32], answers: &[u32], words: &[u8]) -> Progress
        ensures { Called (Call.write words.now) self.limit answers.now log.old result log.new }
    {
        bus::spi_bus::write(self.limit, log, answers, words)
    }

    // Reads as many words as there is room for.
    pub fn read(self, log: &mut [u32], answers: &[u32], words: &mut [u8]) -> Progress
        ensures { CalledOn (Call.read (length words.old)) self.limit answers.now log.old words.old result log.new words.new }
    {
        bus::spi_bus::read(self.limit, log, answers, words)
    }

    // Writes all of `write`, then reads all of `read`.
    pub fn transfer(
        self,
        log: &mut [u32],
        answers: &[u32],
        read: &mut [u8],
        write: &[u8],
    ) -> Progress
        ensures { CalledOn (Call.transfer write.now (length read.old)) self.limit answers.now log.old read.old result log.new read.new }
    {
        bus::spi_bus::transfer(self.limit, log, answers, read, write)
    }

    // Writes and reads back `words`, by parts.
    pub fn transfer_in_place(self, log: &mut [u32], answers: &[u32], words: &mut [u8]) -> Progress
        ensures { CalledOn (Call.transfer_in_place (length words.old)) self.limit answers.now log.old words.old result log.new words.new }
    {
        bus::spi_bus::transfer_in_place(self.limit, log, answers, words)
    }

    // Waits for the transfer to complete.
    pub fn flush(self, log: &mut [u32], answers: &[u32]) -> Progress
        ensures { Called Call.flush self.limit answers.now log.old result log.new }
    {
        bus::spi_bus::flush(self.limit, log, answers)
    }

    // Switches the data-line width used by subsequent transfers.
    pub fn set_work_mode(self, log: &mut [u32], answers: &[u32], mode: WorkMode) -> Progress
        ensures { Called (Call.set_work_mode self.qpi mode) self.limit answers.now log.old result log.new }
    {
        bus::work_mode::set_work_mode(self.limit, self.qpi, log, answers, mode)
    }

    // Reads `data` on four lines, after `command` and its dummy bytes on one.
    pub fn read_quad(
        self,
        log: &mut [u32],
        answers: &[u32],
        command: &[u8],
        tclqv_ns: u32,
        margin: u8,
        data: &mut [u8],
    ) -> Progress
        ensures { CalledOn (Call.read_quad self.sck_hz command.now tclqv_ns margin (length «data».old)) self.limit answers.now log.old «data».old result log.new «data».new }
    {
        bus::quad_spi_bus::read_quad(
            self.limit,
            log,
            answers,
            self.sck_hz,
            command,
            tclqv_ns,
            margin,
            data,
        )
    }

    // Writes `data` on four lines, after `command` on one.
    pub fn write_quad(
        self,
        log: &mut [u32],
        answers: &[u32],
        command: &[u8],
        data: &[u8],
    ) -> Progress
        ensures { Called (Call.write_quad command.now «data».now) self.limit answers.now log.old result log.new }
    {
        bus::quad_spi_bus::write_quad(self.limit, log, answers, command, data)
    }

    // Operations on the lent memory, one after the other.
    pub fn transaction(
        self,
        log: &mut [u32],
        answers: &[u32],
        memory: &mut [u8],
        words: &[u32],
    ) -> Progress
        ensures { Transacts (Transaction·transaction self.core_hz words.now) self.limit answers.now log.old memory.old result log.new memory.new }
    {
        chain::transaction(self.limit, self.core_hz, log, answers, memory, words)
    }
}
