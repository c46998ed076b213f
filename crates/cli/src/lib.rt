//! What the words of the command line ask the program to do.
#![tactic(auto)]

pub mod arguments;
pub mod colors;
pub mod kernel_config;
pub mod program;
pub mod request;
pub mod version;

pub use request::{
    CheckRequest, JoinRequest, RacesFormat, RacesRequest, ReplayRequest, Request, RunOptions,
    RunRequest, SearchFormat, SearchRequest, SearchesRequest, ShowRequest, StepRequest, Switches,
    asked,
};
pub use version::version_line;
