//! What the `.config` of a kernel says of KCSAN's settings.

mod config;
mod line;
mod setting;

pub use config::{KernelConfig, MEANINGLESS};
pub use setting::is_set;
