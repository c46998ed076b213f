//! Watch words: what KCSAN keeps of a watched access in one word, so that what stands at an index
//! can be read and changed in one step.
//!
//! From the top, a watch word has the write bit, 14 bits of size and the low bits of the address,
//! 49 in a word of 64 bits and 17 in one of 32.
#![tactic(auto)]

pub mod layout;
pub mod watch;

pub use layout::Layout;
pub use watch::{
    MAX_ENCODABLE_SIZE, PAGE_SIZE, Watch, decode, decode_in, encode, encode_in,
    law_watches_are_of_accesses, law_words_are_above_one, law_words_read_back, matches, matches_in,
};
