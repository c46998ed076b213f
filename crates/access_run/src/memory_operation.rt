//! The steps that an access makes on memory, between its check and its end, and the tries of a
//! lock. Both are machines that say the next step and take its answer. They know no check, no
//! program and no thread: only bytes, the cell that holds them, and what is done to them.

pub mod effect;
pub mod laws;
pub mod lock;
pub mod operation;
pub mod run;
pub mod stage;
pub mod values;

pub use effect::Effect;
pub use lock::LockWait;
pub use operation::{Change, Operation};
pub use run::OperationRun;
