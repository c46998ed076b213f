//! Values of JSON: texts, places in a text, schedules and settings.

ghost use Rattle.std.specs.Prelude.{◌≡◌, ◌≤◌, IfOk, IfSome, length, map};
ghost use Rattle.output_pieces.specs.Values as spec;
ghost use Rattle.search_text.specs.Schedules.{schedule_text};
ghost use Rattle.serde_json.specs.Data.{array, null};
ghost use Rattle.serde_json.specs.View.{items_of, view};

use crate::objects::ObjectBuilder;
use crate::spots::statement_at;
use litmus_lex::{column_of, line_of};
use prepared_program::program_sites::Settings;
use search_text::schedules::write_schedule;
use search_text::{Entry, MemorySink};
use serde_json::Value;
use std::alloc::{AllocError, Global};

/// Bytes as a text of JSON. All that are written are ASCII.
pub fn text_value(alloc: Global, bytes: &[u8]) -> Result<Value, AllocError>
    ensures { IfOk result (λ value. view value ≡ spec.text_data bytes.now) }
{
    Ok(Value::String(String::from_utf8_lossy(alloc, bytes)?))
}

/// Values, as one.
pub fn array_value(values: Vec<Value>) -> Value
    ensures { view result ≡ array (items_of (map view values.items)) }
{
    Value::Array(values)
}

/// No value.
pub fn null_value() -> Value
    ensures { view result ≡ null }
{
    Value::Null
}

/// The line of a place, if that is known.
pub fn line_value(text: &[u8], at: Option<usize>) -> Value
    requires { IfSome at (λ at. at ≤ length text.now) }
    ensures { view result ≡ spec.line_data text.now at }
{
    match at {
        None => Value::Null,
        Some(at) => Value::from(line_of(text, at)),
    }
}

/// The column of a place, if that is known.
pub fn column_value(text: &[u8], at: Option<usize>) -> Value
    requires { IfSome at (λ at. at ≤ length text.now) }
    ensures { view result ≡ spec.column_data text.now at }
{
    match at {
        None => Value::Null,
        Some(at) => Value::from(column_of(text, at)),
    }
}

/// What is written at a place, if that is known.
pub fn statement_value(alloc: Global, text: &[u8], at: Option<usize>) -> Result<Value, AllocError>
    requires { IfSome at (λ at. at ≤ length text.now) }
    ensures { IfOk result (λ value. view value ≡ spec.statement_data text.now at) }
{
    match at {
        None => Ok(Value::Null),
        Some(at) => text_value(alloc, statement_at(text, at)),
    }
}

/// A schedule, as `--schedule` takes it.
pub fn schedule_bytes(alloc: Global, entries: &[Entry]) -> Result<Vec<u8>, AllocError>
    ensures { IfOk result (λ text. text.items ≡ schedule_text entries.now) }
{
    let mut sink = MemorySink::new(alloc);
    match write_schedule(&mut sink, entries) {
        Ok(()) => Ok(sink.into_bytes()),
        Err(_) => Err(AllocError),
    }
}

/// A schedule.
pub fn schedule_value(alloc: Global, entries: &[Entry]) -> Result<Value, AllocError>
    ensures { IfOk result (λ value. view value ≡ spec.schedule_data entries.now) }
{
    let text = schedule_bytes(alloc, entries)?;
    text_value(alloc, &text)
}

/// The settings.
pub fn settings_value(alloc: Global, settings: &Settings) -> Result<Value, AllocError>
    ensures { IfOk result (λ value. view value ≡ spec.settings_data settings.now) }
{
    ObjectBuilder::new(alloc)
        .flag("plain_writes_atomic", settings.plain_writes_atomic)
        .flag("randomize", settings.randomize)
        .number("seed", settings.seed)
        .number("skip", settings.skip)
        .number("slots", settings.slots as u64)
        .number("turns", settings.turns)
        .flag("value_change_only", settings.value_change_only)
        .build()
}
