//! An access that has begun, with what it counts as until its check is over.

ghost use Rattle.std.specs.Prelude.{◌≡◌, ◌<◌};

use access_types::Access;

/// An access with what is decided once, when it begins.
#[derive(Clone, Copy, PartialEq, Eq)]
pub struct Begun {
    pub access: Access,
    /// It counts as marked.
    pub marked: bool,
    /// Reporting is disabled for its task.
    pub silenced: bool,
    pub ghost has_bytes: { 0 < access.size },
}

impl Begun {
    pub(crate) fn new(access: Access, marked: bool, silenced: bool) -> Begun
        requires { 0 < access.size }
        ensures access { result.access ≡ access }
        ensures marked { result.marked ≡ marked }
        ensures silenced { result.silenced ≡ silenced }
    {
        Begun {
            access,
            marked,
            silenced,
        }
    }

    #[inline(always)]
    pub(crate) fn same(&self) -> Begun
        ensures { result ≡ self.now }
    {
        *self
    }
}
