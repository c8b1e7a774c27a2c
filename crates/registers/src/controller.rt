// The controller's registers, from qspi/register.rs and in its order.
ghost use Rattle.std.specs.Prelude.{◌≡◌, not, cond, eqb};
ghost use Rattle.model.specs.Field.{get_field, set_field};
ghost use Rattle.registers.specs.Setting.{bus_mode_bits, clock_div_sel_bits, cs_ctrl_mode_bits, cs_level_bits};
ghost use Rattle.registers.specs.Setting.{cs_pin_bits, ctrl_mode_bits, phase_bits, polarity_bits};

use super::setting::{BusMode, ClockDivSel, CsCtrlMode, CsLevel, CsPin, CtrlMode, Phase, Polarity};

// Configuration register (SPI_CFG), 0x004.
#[derive(Clone, Copy)]
pub struct Config(pub u32);

impl Config {
    // Set the controller reset (CTRL_RST, bit 31).
    pub fn set_ctrl_rst(self, reset: bool) -> Self
        ensures { result.0 ≡ set_field 31 1 (cond reset 1 0) self.0 }
    {
        Self((self.0 & !(0x1 << 31)) | ((reset as u32 & 0x1) << 31))
    }

    // Stop while the receive FIFO is full (RXFULL_STOP, bit 7).
    pub fn enable_rx_full_stop(self) -> Self
        ensures { result.0 ≡ set_field 7 1 1 self.0 }
    {
        Self((self.0 & !(0x1 << 7)) | ((0x1 & 0x1) << 7))
    }

    // Set the controller mode (CTRL_MODE_SEL, bit 1).
    pub fn set_ctrl_mode(self, mode: CtrlMode) -> Self
        ensures { result.0 ≡ set_field 1 1 (ctrl_mode_bits mode) self.0 }
    {
        Self((self.0 & !(0x1 << 1)) | ((mode as u32 & 0x1) << 1))
    }

    // Enable the controller (CTRL_EN, bit 0).
    pub fn enable_ctrl(self) -> Self
        ensures { result.0 ≡ set_field 0 1 1 self.0 }
    {
        Self((self.0 & !(0x1 << 0)) | ((0x1 & 0x1) << 0))
    }
}

// Transfer configuration register (SPI_TCFG), 0x008.
#[derive(Clone, Copy)]
pub struct TransferConfig(pub u32);

impl TransferConfig {
    // Set the start bit (START, bit 31).
    pub fn set_start(self, set: bool) -> Self
        ensures { result.0 ≡ set_field 31 1 (cond set 1 0) self.0 }
    {
        Self((self.0 & !(0x1 << 31)) | ((set as u32 & 0x1) << 31))
    }

    // Get the start bit (START, bit 31).
    pub fn start(self) -> bool
        ensures { result ≡ not (eqb (get_field 31 1 self.0) 0) }
    {
        ((self.0 >> 31) & 0x1) != 0
    }

    // Enable three-wire byte mode (THREE_WIRE_EN, bit 25).
    pub fn enable_three_wire(self) -> Self
        ensures { result.0 ≡ set_field 25 1 1 self.0 }
    {
        Self((self.0 & !(0x1 << 25)) | ((0x1 & 0x1) << 25))
    }

    // Disable three-wire byte mode (THREE_WIRE_EN, bit 25).
    pub fn disable_three_wire(self) -> Self
        ensures { result.0 ≡ set_field 25 1 0 self.0 }
    {
        Self((self.0 & !(0x1 << 25)) | ((0x0 & 0x1) << 25))
    }

    // Send data half a clock later (TXDLY_EN, bit 14).
    pub fn enable_tx_data_delay(self) -> Self
        ensures { result.0 ≡ set_field 14 1 1 self.0 }
    {
        Self((self.0 & !(0x1 << 14)) | ((0x1 & 0x1) << 14))
    }

    // Sample data half a clock later (RXDLY_DIS, bit 13): the bit disables the delay, so it is cleared.
    pub fn enable_rx_data_delay(self) -> Self
        ensures { result.0 ≡ set_field 13 1 0 self.0 }
    {
        Self((self.0 & !(0x1 << 13)) | ((0x0 & 0x1) << 13))
    }

    // Sample data on the edge (RXDLY_DIS, bit 13).
    pub fn disable_rx_data_delay(self) -> Self
        ensures { result.0 ≡ set_field 13 1 1 self.0 }
    {
        Self((self.0 & !(0x1 << 13)) | ((0x1 & 0x1) << 13))
    }

    // Send the low bit first (LSB_EN, bit 12).
    pub fn enable_lsb_transmit(self) -> Self
        ensures { result.0 ≡ set_field 12 1 1 self.0 }
    {
        Self((self.0 & !(0x1 << 12)) | ((0x1 & 0x1) << 12))
    }

    // Send the high bit first (LSB_EN, bit 12).
    pub fn disable_lsb_transmit(self) -> Self
        ensures { result.0 ≡ set_field 12 1 0 self.0 }
    {
        Self((self.0 & !(0x1 << 12)) | ((0x0 & 0x1) << 12))
    }

    // Disable the inner sample delay (RXINDLY_EN, bit 11).
    pub fn disable_rx_inner_delay(self) -> Self
        ensures { result.0 ≡ set_field 11 1 0 self.0 }
    {
        Self((self.0 & !(0x1 << 11)) | ((0x0 & 0x1) << 11))
    }

    // Discard invalid data (DINVD, bit 8).
    pub fn enable_discard_invalid_data(self) -> Self
        ensures { result.0 ≡ set_field 8 1 1 self.0 }
    {
        Self((self.0 & !(0x1 << 8)) | ((0x1 & 0x1) << 8))
    }

    // Set the chip-select level (CS_LEVEL, bit 7).
    pub fn set_cs_level(self, level: CsLevel) -> Self
        ensures { result.0 ≡ set_field 7 1 (cs_level_bits level) self.0 }
    {
        Self((self.0 & !(0x1 << 7)) | ((level as u32 & 0x1) << 7))
    }

    // Set the chip-select control mode (CS_CTL_SEL, bit 6).
    pub fn set_cs_ctrl_mode(self, mode: CsCtrlMode) -> Self
        ensures { result.0 ≡ set_field 6 1 (cs_ctrl_mode_bits mode) self.0 }
    {
        Self((self.0 & !(0x1 << 6)) | ((mode as u32 & 0x1) << 6))
    }

    // Set the chip-select pin (CS_NUM, bits 4 to 5).
    pub fn set_cs_pin_num(self, num: CsPin) -> Self
        ensures { result.0 ≡ set_field 4 2 (cs_pin_bits num) self.0 }
    {
        Self((self.0 & !(0x3 << 4)) | ((num as u32 & 0x3) << 4))
    }

    // Set the chip-select polarity (CS_POL, bit 2).
    pub fn set_cs_pol(self, pol: Polarity) -> Self
        ensures { result.0 ≡ set_field 2 1 (polarity_bits pol) self.0 }
    {
        Self((self.0 & !(0x1 << 2)) | ((pol as u32 & 0x1) << 2))
    }

    // Set the clock polarity (CPOL, bit 1).
    pub fn set_clk_pol(self, pol: Polarity) -> Self
        ensures { result.0 ≡ set_field 1 1 (polarity_bits pol) self.0 }
    {
        Self((self.0 & !(0x1 << 1)) | ((pol as u32 & 0x1) << 1))
    }

    // Set the clock phase (CPHA, bit 0).
    pub fn set_clk_pha(self, pha: Phase) -> Self
        ensures { result.0 ≡ set_field 0 1 (phase_bits pha) self.0 }
    {
        Self((self.0 & !(0x1 << 0)) | ((pha as u32 & 0x1) << 0))
    }
}

// Interrupt control register (SPI_ICR), 0x010.
#[derive(Clone, Copy)]
pub struct IntControl(pub u32);

impl IntControl {
    // Disable all interrupts.
    pub fn disable_all_int(self) -> Self
        ensures { result.0 ≡ 0 }
    {
        Self(0)
    }
}

// Interrupt status register (SPI_ISTS), 0x014.
#[derive(Clone, Copy)]
pub struct IntStatus(pub u32);

impl IntStatus {
    // Clear all interrupts: a one clears.
    pub fn clear_all_int(self) -> Self
        ensures { result.0 ≡ 0xFFFF_FFFF }
    {
        Self(0xFFFF_FFFF)
    }
}

// FIFO control register (SPI_FCTL), 0x018.
#[derive(Clone, Copy)]
pub struct FifoControl(pub u32);

impl FifoControl {
    // Reset the transmit FIFO (TF_RST, bit 31).
    pub fn reset_tx_fifo(self) -> Self
        ensures { result.0 ≡ set_field 31 1 1 self.0 }
    {
        Self((self.0 & !(0x1 << 31)) | ((0x1 & 0x1) << 31))
    }

    // Set the transmit watermark (TF_WATER_MARK, bits 16 to 23).
    pub fn set_tx_fifo_water_mark(self, mark: u8) -> Self
        ensures { result.0 ≡ set_field 16 8 mark self.0 }
    {
        Self((self.0 & !(0xFF << 16)) | ((mark as u32 & 0xFF) << 16))
    }

    // Reset the receive FIFO (RF_RST, bit 15).
    pub fn reset_rx_fifo(self) -> Self
        ensures { result.0 ≡ set_field 15 1 1 self.0 }
    {
        Self((self.0 & !(0x1 << 15)) | ((0x1 & 0x1) << 15))
    }

    // Set the receive watermark (RF_WATER_MARK, bits 0 to 7).
    pub fn set_rx_fifo_water_mark(self, mark: u8) -> Self
        ensures { result.0 ≡ set_field 0 8 mark self.0 }
    {
        Self((self.0 & !(0xFF << 0)) | ((mark as u32 & 0xFF) << 0))
    }
}

// FIFO status register (SPI_FSTS), 0x01C.
#[derive(Clone, Copy)]
pub struct FifoStatus(pub u32);

impl FifoStatus {
    // Get the transmit FIFO's count (TF_CNT, bits 16 to 23).
    pub fn tx_fifo_count(self) -> u8
        ensures { result ≡ get_field 16 8 self.0 }
    {
        ((self.0 >> 16) & 0xFF) as u8
    }

    // Get the receive FIFO's count (RF_CNT, bits 0 to 7).
    pub fn rx_fifo_count(self) -> u8
        ensures { result ≡ get_field 0 8 self.0 }
    {
        ((self.0 >> 0) & 0xFF) as u8
    }
}

// Clock configuration register (SPI_CCFG), 0x024.
#[derive(Clone, Copy)]
pub struct ClkConfig(pub u32);

impl ClkConfig {
    // Set the clock divider selection (CKDIV_SEL, bit 12).
    pub fn set_clock_divider_selection(self, sel: ClockDivSel) -> Self
        ensures { result.0 ≡ set_field 12 1 (clock_div_sel_bits sel) self.0 }
    {
        Self((self.0 & !(0x1 << 12)) | ((sel as u32 & 0x1) << 12))
    }

    // Set clock divider 1 (CKDIV1, bits 8 to 11).
    pub fn set_clk_div_1(self, div: u8) -> Self
        ensures { result.0 ≡ set_field 8 4 div self.0 }
    {
        Self((self.0 & !(0xF << 8)) | ((div as u32 & 0xF) << 8))
    }

    // Set clock divider 2 (CKDIV2, bits 0 to 7).
    pub fn set_clk_div_2(self, div: u8) -> Self
        ensures { result.0 ≡ set_field 0 8 div self.0 }
    {
        Self((self.0 & !(0xFF << 0)) | ((div as u32 & 0xFF) << 0))
    }
}

// Total bytes counter register (SPI_TBC), 0x030.
#[derive(Clone, Copy)]
pub struct TotalBytesCnt(pub u32);

impl TotalBytesCnt {
    // Set the total of bytes to transfer (TOTAL_BYTES, bits 0 to 23).
    pub fn set_total_bytes(self, bytes: u32) -> Self
        ensures { result.0 ≡ set_field 0 24 bytes self.0 }
    {
        Self((self.0 & !(0xFFFFFF << 0)) | ((bytes & 0xFFFFFF) << 0))
    }
}

// Transmit write counter register (SPI_TWC), 0x034.
#[derive(Clone, Copy)]
pub struct TransCnt(pub u32);

impl TransCnt {
    // Set the transmit write counter (TXD_CNT, bits 0 to 23).
    pub fn set_tx_cnt(self, cnt: u32) -> Self
        ensures { result.0 ≡ set_field 0 24 cnt self.0 }
    {
        Self((self.0 & !(0xFFFFFF << 0)) | ((cnt & 0xFFFFFF) << 0))
    }
}

// Transmit miscellaneous control register (SPI_TMC), 0x038.
#[derive(Clone, Copy)]
pub struct TransMiscControl(pub u32);

impl TransMiscControl {
    // Enable QPI transfer mode (QPI_EN, bit 31).
    pub fn enable_qpi(self) -> Self
        ensures { result.0 ≡ set_field 31 1 1 self.0 }
    {
        Self((self.0 & !(0x1 << 31)) | ((0x1 & 0x1) << 31))
    }

    // Disable QPI transfer mode (QPI_EN, bit 31).
    pub fn disable_qpi(self) -> Self
        ensures { result.0 ≡ set_field 31 1 0 self.0 }
    {
        Self((self.0 & !(0x1 << 31)) | ((0x0 & 0x1) << 31))
    }

    // Enable quad data transfer mode (QUAD_EN, bit 29).
    pub fn enable_quad(self) -> Self
        ensures { result.0 ≡ set_field 29 1 1 self.0 }
    {
        Self((self.0 & !(0x1 << 29)) | ((0x1 & 0x1) << 29))
    }

    // Disable quad data transfer mode (QUAD_EN, bit 29).
    pub fn disable_quad(self) -> Self
        ensures { result.0 ≡ set_field 29 1 0 self.0 }
    {
        Self((self.0 & !(0x1 << 29)) | ((0x0 & 0x1) << 29))
    }

    // Enable dual data transfer mode (DUAL_EN, bit 28).
    pub fn enable_dual(self) -> Self
        ensures { result.0 ≡ set_field 28 1 1 self.0 }
    {
        Self((self.0 & !(0x1 << 28)) | ((0x1 & 0x1) << 28))
    }

    // Disable dual data transfer mode (DUAL_EN, bit 28).
    pub fn disable_dual(self) -> Self
        ensures { result.0 ≡ set_field 28 1 0 self.0 }
    {
        Self((self.0 & !(0x1 << 28)) | ((0x0 & 0x1) << 28))
    }

    // Set the dummy byte count (DMY_CNT, bits 24 to 27).
    pub fn set_dummy_count(self, count: u8) -> Self
        ensures { result.0 ≡ set_field 24 4 count self.0 }
    {
        Self((self.0 & !(0xF << 24)) | ((count as u32 & 0xF) << 24))
    }

    // Set the single-line transmit count (STXD_CNT, bits 0 to 23).
    pub fn set_single_tx_count(self, count: u32) -> Self
        ensures { result.0 ≡ set_field 0 24 count self.0 }
    {
        Self((self.0 & !(0xFFFFFF << 0)) | ((count & 0xFFFFFF) << 0))
    }
}

// Bit-mode transfer configuration register (SPI_BMTC), 0x040.
#[derive(Clone, Copy)]
pub struct BitModeTransConfig(pub u32);

impl BitModeTransConfig {
    // Set the bus mode (BMOD_SEL, bits 0 to 1).
    pub fn set_bus_mode(self, mode: BusMode) -> Self
        ensures { result.0 ≡ set_field 0 2 (bus_mode_bits mode) self.0 }
    {
        Self((self.0 & !(0x3 << 0)) | ((mode as u32 & 0x3) << 0))
    }
}
