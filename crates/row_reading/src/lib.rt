// A strip's line, found in a text. Its numbers are read first, whatever else stands there; then the line that a strip with these numbers has is made
// anew and compared, so that what is found is that line and no other.
#![tactic(auto)]

ghost use Rattle.std.specs.Prelude.{◌≡◌, ◌≤◌, ◌<◌, length};
ghost use Rattle.row_reading.specs.Rows.{RowAt};
ghost use Rattle.row_reading.specs.Workers.{NumbersAt, RowOf, EndOf};

use grid::Window;

// A strip's line in a text: the table's slot and the strip that it is the line of, and where it ends.
#[derive(Clone, Copy)]
pub struct Row {
    pub slot: usize,
    pub strip: Window,
    pub end: usize,
}

// Reads the numbers from `from` on that stand before an equals sign, if they are six. The byte before them is passed over, as `read_integers` passes
// over one before each.
fn read_six(text: &[u8], from: usize) -> Option<[i32; 6]>
    requires le_from { 1 ≤ from }
    requires from_in_bounds { from ≤ length text.now }
    ensures { NumbersAt text.now from result }
{
    let end = text::find(text, from, b'=');
    let mut numbers = [0i32; 6];
    let count = words::read_integers(&text[from - 1..end - 1], &mut numbers)?;
    if count != 6 {
        return None;
    }
    Some(numbers)
}

// The slot and the strip that six numbers are: the renter, his slot, and the strip's own. Signs are left to the comparison.
fn row_of(numbers: &[i32; 6]) -> Option<(usize, Window)>
    ensures { RowOf numbers.now result }
{
    let k = whole::size(numbers[0] as i64) * 32 + whole::size(numbers[1] as i64);
    if 63 < k {
        return None;
    }
    let w = slots::strip_at(numbers, 1);
    grid::test_window(w).ok()?;
    Some((k as usize, w))
}

// Where the line of the strip in the slot k ends, if it stands at a place of a text.
fn end_of(text: &[u8], from: usize, k: usize, w: Window) -> Option<usize>
    requires from_in_bounds { from ≤ length text.now }
    requires k_bound { k < 64 }
    ensures { EndOf text.now from k w result }
{
    let mut page = [0u8; 580];
    let count = strip_lines::put_row(&mut page, 0, k, w);
    if !text[from..].starts_with(&page[..count]) {
        return None;
    }
    Some(from + count)
}

// Finds the line at a place that is not the text's first.
pub fn row_at(text: &[u8], from: usize) -> Option<Row>
    requires le_from { 1 ≤ from }
    requires from_in_bounds { from ≤ length text.now }
    ensures { RowAt text.now from result }
{
    let numbers = read_six(text, from)?;
    let (slot, strip) = row_of(&numbers)?;
    let end = end_of(text, from, slot, strip)?;
    Some(Row { slot, strip, end })
}
