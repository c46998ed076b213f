//! Whether two texts are the same, wherever they lie in memory.

mod assignment;
pub mod expression;
pub mod statement;

pub use expression::is_same_loading;
pub use statement::is_same_block;
