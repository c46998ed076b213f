//! What a task's records tell is told by the records alone: not by how they are completed, nor by those that
//! follow. No code.

pub mod laws;

pub use laws::{
    law_few_accesses_begin, law_one_outcome_a_record, law_one_telling,
    law_steps_name_words_of_the_run,
};
