//! Lines of cells, with their columns below one another.
ghost use Rattle.std.specs.Prelude.{◌≡◌, ◌≢◌, ◌≤◌, ◌<◌, ◌++◌, [], ℕ, IfOk, OnOk, max, replicate, slice_index, slice_index_or, string_bytes, vec_len};
ghost use Rattle.span_timing.specs.Layout.{cell_text, column_width, gap, laid_out, line_text, width_of};
ghost use Rattle.span_timing.specs.private.Cells.{cells_in, lines_in};

use std::alloc::{AllocError, Global};

/// A line: the texts of its cells.
pub(crate) type Line = Vec<String>;

/// Lines with their columns below one another: names and targets to the left, all else to the
/// right.
pub(crate) fn laid_out(alloc: Global, lines: &[Line]) -> Result<String, AllocError>
    ensures { IfOk result (λ text. string_bytes text ≡ laid_out (lines_in lines.now)) }
{
    let widths = widths(alloc, lines)?;
    let mut text = String::new(alloc);
    for line in lines {
        write_line(&mut text, &widths, line)?;
    }
    Ok(text)
}

/// How wide each column is, in characters.
fn widths(alloc: Global, lines: &[Line]) -> Result<Vec<usize>, AllocError>
    ensures { IfOk result (λ widths. (k : ℕ)
        → slice_index widths.items k ≡ column_width (lines_in lines.now) k) }
{
    let mut widths = Vec::new(alloc);
    for line in lines {
        widen(&mut widths, line)?;
    }
    Ok(widths)
}

/// Makes each column as wide as its cell in this line, where it isn't.
fn widen(widths: &mut Vec<usize>, line: &[String]) -> Result<(), AllocError>
    ensures { OnOk result ((k : ℕ) → slice_index widths.new.items k
        ≡ max (slice_index widths.old.items k)
        (width_of (slice_index_or (cells_in line.now) k []))) }
{
    for (column, cell) in line.iter().enumerate() {
        widen_one(widths, column, width_of(cell))?;
    }
    Ok(())
}

/// Makes one column so wide, where it isn't.
fn widen_one(widths: &mut Vec<usize>, column: usize, width: usize) -> Result<(), AllocError>
    requires { column ≤ vec_len widths.old }
    ensures wide { OnOk result (slice_index widths.new.items column
        ≡ max (slice_index widths.old.items column) width) }
    ensures others { OnOk result ((k : ℕ) → k ≢ column
        → slice_index widths.new.items k ≡ slice_index widths.old.items k) }
    ensures reached { OnOk result (column < vec_len widths.new) }
{
    if column < widths.len() {
        widths[column] = widths[column].max(width);
    } else {
        widths.push(width)?;
    }
    Ok(())
}

/// How many characters a cell has.
fn width_of(cell: &str) -> usize
    ensures { result ≡ width_of cell.now }
{
    cell.chars().count()
}

/// Writes a line, two spaces between its columns.
fn write_line(text: &mut String, widths: &[usize], line: &[String]) -> Result<(), AllocError>
    ensures { OnOk result (string_bytes text.new
        ≡ string_bytes text.old ++ line_text (slice_index widths.now) (cells_in line.now)) }
{
    for (column, cell) in line.iter().enumerate() {
        let width = widths.get(column).copied().unwrap_or(0);
        write_cell(text, width, column, cell)?;
    }
    text.push_str("\n")
}

/// Writes the cell of a column of this width, two spaces behind the one before.
fn write_cell(text: &mut String, width: usize, column: usize, cell: &str) -> Result<(), AllocError>
    ensures { OnOk result
        (string_bytes text.new ≡ string_bytes text.old ++ cell_text width column cell.now) }
{
    text.push_str(gap(column))?;
    let free = width.saturating_sub(width_of(cell));
    if column < 2 {
        text.push_str(cell)?;
        push_spaces(text, free)
    } else {
        push_spaces(text, free)?;
        text.push_str(cell)
    }
}

/// What stands in front of a column.
fn gap(column: usize) -> &'static str
    ensures { result.now ≡ gap column }
{
    if column == 0 { "" } else { "  " }
}

/// Writes so many spaces.
fn push_spaces(text: &mut String, count: usize) -> Result<(), AllocError>
    ensures { OnOk result (string_bytes text.new ≡ string_bytes text.old ++ replicate count 32) }
{
    for _ in 0..count {
        text.push(' ')?;
    }
    Ok(())
}
