// What the paths of a picture are made of: the start, which says how wide the line is, and strokes.
#![tactic(auto)]

ghost use Rattle.std.specs.Prelude.{◌+◌, ◌*◌, ◌≤◌, length};
ghost use Rattle.text.specs.Pages.{Put};
ghost use Rattle.paths.specs.Paths.{path_start, stroke_path, stroke_paths};

// Puts the start of a path: the words given, how wide its line is, in thousandths of a grid step, and all up to its first point.
pub fn put_start(page: &mut [u8], at: usize, words: &[u8], wide: u64) -> usize
    requires { at + length words.now + 86 ≤ length page.old }
    ensures put { Put page.old page.new at result (path_start words.now wide) }
    ensures upper_bound { result ≤ at + length words.now + 86 }
{
    let a = text::put(page, at, words);
    let b = measures::put_thousandths(page, a, wide, b'"');
    text::put(page, b, b" d=\"")
}

// Puts a stroke of a path: the four numbers from i on.
pub fn put_stroke(page: &mut [u8], at: usize, xs: &[i32], i: usize) -> usize
    requires i_in_bounds { i + 4 ≤ length xs.now }
    requires at_in_bounds { at + 59 ≤ length page.old }
    ensures put { Put page.old page.new at result (stroke_path xs.now i) }
    ensures upper_bound { result ≤ at + 49 }
{
    // All numbers are read before the first is put: what is known of the list then does not have to be carried past the puts.
    let ax = xs[i];
    let ay = xs[i + 1];
    let bx = xs[i + 2];
    let by = xs[i + 3];
    let a = text::put(page, at, b"M");
    let b = marks::put_point(page, a, ax, ay, b'L');
    marks::put_point(page, b, bx, by, b'\n')
}

// Puts the first strokes of a list that has `step` numbers for each, the last four of them its ends, as the C interface has them.
pub fn put_strokes(page: &mut [u8], at: usize, xs: &[i32], step: usize, count: usize) -> usize
    requires le_step { 4 ≤ step }
    requires step_in_bounds { count * step ≤ length xs.now }
    requires count_in_bounds { at + 49 * count + 10 ≤ length page.old }
    ensures put { Put page.old page.new at result (stroke_paths step xs.now count) }
    ensures upper_bound { result ≤ at + 49 * count }
{
    let mut end = at;
    for k in 0..count {
        end = put_stroke(page, end, xs, k * step + (step - 4));
    }
    end
}
