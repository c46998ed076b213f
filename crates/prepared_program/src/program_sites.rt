//! What a litmus program comes to under the settings of its runs: the accesses that it can make, by their tickets, and
//! what else all its runs go by.

pub mod accesses;
pub mod error;
pub mod laws;
pub mod prepared;
pub mod settings;
pub mod sites;

pub use error::RunError;
pub use laws::law_accesses_are_in_limits;
pub use prepared::Prepared;
pub use settings::Settings;
pub use sites::sites_of;
