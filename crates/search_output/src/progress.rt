//! Who is told how far a search has come, and says how long it has taken.

ghost use Rattle.std.specs.Prelude.{◌≡◌, IfSome, Some};

/// Who is told how far a search has come, and says how long it has taken.
pub trait SearchProgress {
    /// So many nodes were visited.
    fn nodes(&self, nodes: u64);

    /// So many states were visited, and so many of them are left to go on from.
    fn visited(&self, states: u64, left: u64);

    /// The search is over.
    fn search_over(&self);

    /// So many seconds have gone by since the search began.
    fn seconds(&self) -> u64;
}

/// The seconds that a search may take, if they are bounded and have gone by.
pub fn seconds_gone<P: SearchProgress>(progress: &P, seconds: Option<u64>) -> Option<u64>
    ensures { IfSome result (λ gone. seconds ≡ Some gone) }
{
    match seconds {
        Some(most) if progress.seconds() >= most => Some(most),
        _ => None,
    }
}
