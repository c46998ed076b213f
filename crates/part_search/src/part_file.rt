//! What one part of a search that is shared out leaves as a text, the reader of such texts, and which parts make a
//! whole.
//!
//! A text is one value of JSON, in a line. `serde_json` proves that what it writes of a value reads as this value
//! (`Value::to_string`, clause `reads_back`), and which value is read of a text (`Value::from_slice`). So it is enough
//! here to go from a part to a value and back, and to show that the way back gives the part. A member that isn't there
//! reads as nothing: `read_part` writes what it has read once more and compares the bytes, which is one comparison in
//! place of a check of each member, and no other text is taken for that of the part.

pub mod members;
pub mod part;
pub mod reading;
pub mod text;
pub mod values;
pub mod whole;

pub use part::{Part, PartSettings};
pub use text::{PartError, part_text, read_part};
pub use whole::{PartFault, PartsFault, check_parts};
