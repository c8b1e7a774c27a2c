// What is run as a chain, as the definitions have it.
use records::Rules;

// What its records are run under: the rate of the bus, whether its chip has QPI, and the rules that they go by.
#[derive(Clone, Copy)]
pub struct Settings {
    pub rate: u32,
    pub qpi: bool,
    pub rules: Rules,
}

// The words of all records.
#[derive(Clone, Copy)]
pub struct Request<'a> {
    pub settings: Settings,
    pub words: &'a [u32],
}
