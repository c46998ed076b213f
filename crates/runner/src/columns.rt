//! Rows that are made columns.

ghost use Rattle.std.specs.Prelude.{◌≡◌, ◌<◌, ◌≤◌, ◌∷◌, ◌++◌, [], ℕ, All, IfOk, List, Some, length, map, slice_get, vec_capacity, vec_len};
ghost use Rattle.runner.specs.Columns.{AreColumns};

use std::alloc::{AllocError, Global};

/// So many columns without an item, each with room for so many.
fn empty_columns<T: Drop>(
    alloc: Global,
    width: usize,
    height: usize,
) -> Result<Vec<Vec<T>>, AllocError>
    ensures wide { IfOk result (λ columns. length columns.items ≡ width) }
    ensures empty { IfOk result (λ columns. (at : ℕ) (column : _) → slice_get columns.items at ≡ Some column
        → (column.items ≡ []) × (height ≤ vec_capacity column)) }
{
    let mut columns = Vec::with_capacity(alloc, width)?;
    for _ in 0..width {
        columns.push_reserved(Vec::with_capacity(alloc, height)?);
    }
    Ok(columns)
}

/// Adds a row to columns of which each has room for an item more.
fn add_row<T: Drop>(columns: &mut Vec<Vec<T>>, row: Vec<T>)
    requires wide { length row.items ≡ length columns.old.items }
    requires room { (at : ℕ) (column : _) → slice_get columns.old.items at ≡ Some column → vec_len column < vec_capacity column }
    ensures wide { length columns.new.items ≡ length columns.old.items }
    ensures added { (at : ℕ) (was column : _) (item : T) → slice_get columns.old.items at ≡ Some was → slice_get row.items at ≡ Some item
        → slice_get columns.new.items at ≡ Some column
        → (column.items ≡ was.items ++ item ∷ []) × (vec_capacity column ≡ vec_capacity was) }
{
    let mut at = 0;
    for item in row {
        let column = &mut columns[at];
        column.push_reserved(item);
        at += 1;
    }
}

/// The columns of rows that have so many items each.
pub(crate) fn columns_of<T: Drop>(
    alloc: Global,
    rows: Vec<Vec<T>>,
    width: usize,
) -> Result<Vec<Vec<T>>, AllocError>
    requires { All (λ row. length row.items ≡ width) rows.items }
    ensures { IfOk result (λ columns. AreColumns width (map (λ row. row.items) rows.items) (map (λ column. column.items) columns.items)) }
{
    let mut columns = empty_columns(alloc, width, rows.len())?;
    for row in rows {
        add_row(&mut columns, row);
    }
    Ok(columns)
}
