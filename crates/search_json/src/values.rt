//! Numbers in JSON, where they are known.

ghost use Rattle.std.specs.Prelude.{◌≡◌};
ghost use Rattle.search_json.specs.Reports as spec;
ghost use Rattle.serde_json.specs.Data.{array, no_items as none};
ghost use Rattle.serde_json.specs.View.{view};

use serde_json::Value;
use std::alloc::Global;

/// A number, if it is known.
pub(crate) fn number_value(number: Option<u64>) -> Value
    ensures { view result ≡ spec.number_data number }
{
    match number {
        None => Value::Null,
        Some(number) => Value::from(number),
    }
}

/// A number of schedules, if numbers are known.
pub(crate) fn count_value(counted: bool, times: u64) -> Value
    ensures { view result ≡ spec.count_data counted times }
{
    if counted {
        Value::from(times)
    } else {
        Value::Null
    }
}

/// An array of no items.
pub(crate) fn no_items(alloc: Global) -> Value
    ensures { view result ≡ array none }
{
    Value::Array(Vec::new(alloc))
}
