// Byte counts of one half-duplex phase.
ghost use Rattle.std.specs.Prelude.{◌≡◌, cond};

#[derive(Clone, Copy)]
pub struct TransferCounts {
    // Bytes transferred on the bus.
    pub total: u32,
    // Bytes read from the transmit FIFO.
    pub tx: u32,
    // Bytes sent on one data line.
    pub single_line_tx: u32,
    // Dummy bytes made by the hardware.
    pub hardware_dummy: u8,
}

impl TransferCounts {
    // A phase that sends `len` bytes.
    pub fn tx(len: u32, single_line: bool) -> Self
        ensures { result ≡ record { total = len; tx = len; single_line_tx = cond single_line len 0; hardware_dummy = 0 } }
    {
        let single_line_tx = if single_line { len } else { 0 };
        Self {
            total: len,
            tx: len,
            single_line_tx,
            hardware_dummy: 0,
        }
    }

    // A phase that receives `len` bytes.
    pub fn rx(len: u32) -> Self
        ensures { result ≡ record { total = len; tx = 0; single_line_tx = 0; hardware_dummy = 0 } }
    {
        Self {
            total: len,
            tx: 0,
            single_line_tx: 0,
            hardware_dummy: 0,
        }
    }
}
