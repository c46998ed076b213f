//! What the environment says of the signs that can be shown.

use std::env;

/// Whether the name of a locale is of UTF-8, as in `en_US.UTF-8` or `C.utf8`.
fn is_of_utf8(locale: &str) -> bool {
    ["UTF-8", "utf-8", "UTF8", "utf8"]
        .iter()
        .any(|name| locale.contains(*name))
}

/// Whether signs beyond ASCII can be shown. As in the C library LC_ALL decides, or else LC_CTYPE, or else LANG; one
/// that is empty counts for none.
pub fn shows_utf8(rt: &HostRuntime) -> bool {
    for name in ["LC_ALL", "LC_CTYPE", "LANG"] {
        if let Ok(locale) = env::var(rt, name) {
            if !locale.is_empty() {
                return is_of_utf8(&locale);
            }
        }
    }
    false
}
