//! Whatever a word answers, a task goes on in the written order: so a machine of a task that keeps its limits is in the
//! written order from its first step to its last. Under it: each text that keeps its limits is spelled by some
//! records, from wherever it stands, and the parts of an access and the tries of a lock go on whatever their
//! steps are answered. No code.

pub mod answered;
pub mod laws;
pub mod spelled;
