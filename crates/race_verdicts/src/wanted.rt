//! What is asked of a search for races.

use search_output::SearchProgress;

/// The bounds of each walk and of each search.
#[derive(Clone, Copy)]
pub struct RacesWanted {
    /// After how many states, or schedules, it stops, though others remain.
    pub limit: u64,
    /// After how many seconds it stops, if these are bounded.
    pub seconds: Option<u64>,
}

/// Until when a walk may go that begins now.
pub fn until<P: SearchProgress>(wanted: RacesWanted, progress: &P) -> Option<u64> {
    match wanted.seconds {
        Some(seconds) => Some(progress.seconds().saturating_add(seconds)),
        None => None,
    }
}
