//! What the members of a value of JSON are. One that isn't there, or is of another kind, reads as nothing.

ghost use Rattle.std.specs.Prelude.{◌≡◌, IfOk, option_map, string_bytes};
ghost use Rattle.part_search.specs.part_file.Reads as spec;
ghost use Rattle.serde_json.specs.View.{items_view, view};

use serde_json::Value;
use std::alloc::{AllocError, Global};

/// The number that a member is, if it is one.
pub(crate) fn number_if_at(value: &Value, key: &str) -> Option<u64>
    ensures { result ≡ spec.number_if_at key.now (view value.now) }
{
    value.get(key).and_then(Value::as_u64)
}

/// The number that a member is, or 0.
pub(crate) fn number_at(value: &Value, key: &str) -> u64
    ensures { result ≡ spec.number_at key.now (view value.now) }
{
    number_if_at(value, key).unwrap_or(0)
}

/// Whether a member is true.
pub(crate) fn flag_at(value: &Value, key: &str) -> bool
    ensures { result ≡ spec.flag_at key.now (view value.now) }
{
    value.get(key).and_then(Value::as_bool).unwrap_or(false)
}

/// The text that a member is, if it is one.
pub(crate) fn str_if_at<'v>(value: &'v Value, key: &str) -> Option<&'v str>
    ensures { option_map (λ text. text.now) result ≡ spec.text_if_at key.now (view value.now) }
{
    value.get(key).and_then(Value::as_str)
}

/// The text that a member is, or the empty one.
pub(crate) fn str_at<'v>(value: &'v Value, key: &str) -> &'v str
    ensures { result.now ≡ spec.text_at key.now (view value.now) }
{
    match str_if_at(value, key) {
        Some(text) => text,
        None => "",
    }
}

/// A copy of that text.
pub(crate) fn text_at(alloc: Global, value: &Value, key: &str) -> Result<String, AllocError>
    ensures { IfOk result (λ text. string_bytes text ≡ spec.text_at key.now (view value.now)) }
{
    String::from_str(alloc, str_at(value, key))
}

/// The bytes of that text.
pub(crate) fn bytes_at(alloc: Global, value: &Value, key: &str) -> Result<Vec<u8>, AllocError>
    ensures { IfOk result (λ bytes. bytes.items ≡ spec.text_at key.now (view value.now)) }
{
    Vec::from_slice(alloc, str_at(value, key).as_bytes())
}

/// The bytes of the text that a member is, if it is one.
pub(crate) fn bytes_if_at(
    alloc: Global,
    value: &Value,
    key: &str,
) -> Result<Option<Vec<u8>>, AllocError>
    ensures { IfOk result (λ found. option_map (λ bytes. bytes.items) found ≡ spec.text_if_at key.now (view value.now)) }
{
    match str_if_at(value, key) {
        Some(text) => Ok(Some(Vec::from_slice(alloc, text.as_bytes())?)),
        None => Ok(None),
    }
}

/// A member, or the value itself where it has no such member.
pub(crate) fn member_at<'v>(value: &'v Value, key: &str) -> &'v Value
    ensures { view result.now ≡ spec.member_at key.now (view value.now) }
{
    match value.get(key) {
        Some(member) => member,
        None => value,
    }
}

/// The items of the array that a member is, if it is one.
pub(crate) fn items_at<'v>(value: &'v Value, key: &str) -> Option<&'v Vec<Value>>
    ensures { option_map (λ items. items_view items.now.items) result ≡ spec.array_at key.now (view value.now) }
{
    value.get(key).and_then(Value::as_array)
}

/// The number that an item of an array is, or 0.
pub(crate) fn number_item(value: &Value, place: usize) -> u64
    ensures { result ≡ spec.number_item place (view value.now) }
{
    value.get(place).and_then(Value::as_u64).unwrap_or(0)
}
