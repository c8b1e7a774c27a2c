// Configuration, and errors with document 01's numbers.
#![tactic(auto)]

pub mod config;
pub mod error;
pub mod spi;

pub use config::{CsConfig, QspiConfig, WorkMode};
pub use error::{QspiError, number_of, touches_nothing};
pub use spi::Mode;
