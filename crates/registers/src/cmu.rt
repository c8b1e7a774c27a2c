// The module clock register of a QSPI instance, from cmu/register.rs.
ghost use Rattle.std.specs.Prelude.{◌≡◌};
ghost use Rattle.model.specs.Field.{set_field};

// Module clock register (CLK_QSPI0 to CLK_QSPI3), place 0x1000 + instance.
#[derive(Clone, Copy)]
pub struct NormalModuleClock(pub u32);

impl NormalModuleClock {
    // Assert the module reset (MOD_RSTN, bit 13): the reset is on while the bit is clear.
    pub fn enable_module_reset(self) -> Self
        ensures { result.0 ≡ set_field 13 1 0 self.0 }
    {
        Self((self.0 & !(0x1 << 13)) | ((0x0 & 0x1) << 13))
    }

    // Release the module reset (MOD_RSTN, bit 13).
    pub fn disable_module_reset(self) -> Self
        ensures { result.0 ≡ set_field 13 1 1 self.0 }
    {
        Self((self.0 & !(0x1 << 13)) | ((0x1 & 0x1) << 13))
    }

    // Enable the bus clock (MOD_BUS_EN, bit 12).
    pub fn enable_bus_clk(self) -> Self
        ensures { result.0 ≡ set_field 12 1 1 self.0 }
    {
        Self((self.0 & !(0x1 << 12)) | ((0x1 & 0x1) << 12))
    }

    // Disable the bus clock (MOD_BUS_EN, bit 12).
    pub fn disable_bus_clk(self) -> Self
        ensures { result.0 ≡ set_field 12 1 0 self.0 }
    {
        Self((self.0 & !(0x1 << 12)) | ((0x0 & 0x1) << 12))
    }

    // Enable the module clock (MOD_CLK_EN, bit 8).
    pub fn enable_module_clk(self) -> Self
        ensures { result.0 ≡ set_field 8 1 1 self.0 }
    {
        Self((self.0 & !(0x1 << 8)) | ((0x1 & 0x1) << 8))
    }

    // Disable the module clock (MOD_CLK_EN, bit 8).
    pub fn disable_module_clk(self) -> Self
        ensures { result.0 ≡ set_field 8 1 0 self.0 }
    {
        Self((self.0 & !(0x1 << 8)) | ((0x0 & 0x1) << 8))
    }

    // Set the module clock divider (MOD_CLK_DIV, bits 0 to 4).
    pub fn set_module_clk_div(self, val: u8) -> Self
        ensures { result.0 ≡ set_field 0 5 val self.0 }
    {
        Self((self.0 & !(0x1F << 0)) | ((val as u32 & 0x1F) << 0))
    }
}
