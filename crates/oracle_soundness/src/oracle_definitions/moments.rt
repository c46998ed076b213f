//! The two moments of an access.

ghost use Rattle.std.specs.Prelude.{◌≡◌};
ghost use Rattle.access_types.specs.History.{beginning, ending};

use access_types::{Access, Happening, Moment};

/// The begin of an access.
pub(crate) fn begin(access: Access) -> Moment
    ensures { result ≡ beginning access }
{
    Moment {
        task: access.task(),
        happening: Happening::Begin(access),
    }
}

/// The end of an access.
pub(crate) fn end(access: Access) -> Moment
    ensures { result ≡ ending access }
{
    Moment {
        task: access.task(),
        happening: Happening::End(access),
    }
}
