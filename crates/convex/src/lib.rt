// Lists of corners: how many they may be, and whether they are strictly convex counterclockwise. The corners are x y x y ..
#![tactic(auto)]

ghost use Rattle.std.specs.Prelude.{◌≡◌, ◌+◌, ◌<◌, ◌≤◌, length};
ghost use Rattle.convex.specs.Corners.{corners_of, next, strictly_convex, most_corners, right_count, CornersOnTable};
ghost use Rattle.convex.specs.Ways.{CornerOnTable, Short, corner_at, way_from, turns_left, change_of};

// A point of the table.
#[derive(Clone, Copy)]
pub struct Corner {
    pub x: i32,
    pub y: i32,
}

// The way from one point of the table to another. A point has two numbers as well; they are two types, so that none is taken for the other.
#[derive(Clone, Copy)]
pub struct Way {
    pub x: i32,
    pub y: i32,
}

// Whether so many numbers are 3 to `most` corners, two numbers each.
#[tactic(auto, unfolding(crate::specs::Corners::right_count))]
pub fn right_count(most: usize, n: usize) -> bool
    requires { most ≤ most_corners }
    ensures { result ≡ right_count most n }
{
    n % 2 == 0 && 6 <= n && n <= 2 * most
}

// Of n corners the one that comes after the corner k: after the last the first.
pub fn next_of(k: usize, n: usize) -> usize
    requires { k < n }
    ensures { result ≡ next n k }
{
    if k + 1 == n {
        return 0;
    }
    k + 1
}

// The corner whose two numbers stand at i.
pub fn corner_at(c: &[i32], i: usize) -> Corner
    requires { i + 1 < length c.now }
    ensures { result ≡ corner_at c.now i }
{
    Corner {
        x: c[i],
        y: c[i + 1],
    }
}

// The way from a to b.
pub fn way_from(a: Corner, b: Corner) -> Way
    requires corner_on_table { CornerOnTable a }
    requires corner_on_table_2 { CornerOnTable b }
    ensures value { result ≡ way_from a b }
    ensures short { Short result }
{
    Way {
        x: b.x - a.x,
        y: b.y - a.y,
    }
}

// The two products are compared, since their difference may need more than 32 bits.
fn turns_left(a: Way, b: Way) -> bool
    requires short { Short a }
    requires short_2 { Short b }
    ensures { result ≡ turns_left a b }
{
    a.y * b.x < a.x * b.y
}

// 1 where one of two edges goes down and the other does not.
fn change(a: Way, b: Way) -> u32
    ensures { result ≡ change_of a b }
{
    u32::from((a.y < 0) ^ (b.y < 0))
}

// Whether corners are strictly convex counterclockwise: every turn goes left, and the edges begin to go down once and to go up
// once, so they go round once. The closing edge is the first, and again the last.
pub fn strictly_convex(c: &[i32]) -> bool
    requires { CornersOnTable c.now }
    ensures { result ≡ strictly_convex (corners_of c.now) }
{
    let closing = way_from(corner_at(c, c.len() - 2), corner_at(c, 0));
    let mut edge = closing;
    let mut changes = 0;
    for k in 1..c.len() / 2 {
        let next = way_from(corner_at(c, 2 * k - 2), corner_at(c, 2 * k));
        if !turns_left(edge, next) {
            return false;
        }
        changes += change(edge, next);
        edge = next;
    }
    turns_left(edge, closing) && changes + change(edge, closing) == 2
}
