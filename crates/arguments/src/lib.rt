// The arguments of a line: its text after the command's word, each argument with a space before it.
#![tactic(auto)]

ghost use Rattle.std.specs.Prelude.{◌≡◌, ◌≤◌, ◌<◌, [], length, IfSome, MatchOption};
ghost use Rattle.arguments.specs.Arguments.{Names, first_word, behind_first, Numbers, first_window, ReadPair};

use grid::{Stroke, Window};

// The most bytes of a line, its newline not counted.
pub const LONGEST: usize = 400000;

// What a line asks for, by its word.
#[derive(Clone, Copy)]
pub enum Command {
    Mm2,
    Mm4,
    Back,
    Lb,
    Cs,
    Xp,
    Cb,
    Batch,
    Touches,
    Outline,
    Draw,
    Enter,
    Release,
    Strips,
}

// The command of a word, if it is one's.
pub fn command_of(word: &[u8]) -> Option<Command>
    ensures { Names word.now result }
{
    let command = match word {
        b"mm2" => Command::Mm2,
        b"mm4" => Command::Mm4,
        b"back" => Command::Back,
        b"lb" => Command::Lb,
        b"cs" => Command::Cs,
        b"xp" => Command::Xp,
        b"cb" => Command::Cb,
        b"batch" => Command::Batch,
        b"touches" => Command::Touches,
        b"outline" => Command::Outline,
        b"draw" => Command::Draw,
        b"enter" => Command::Enter,
        b"release" => Command::Release,
        b"strips" => Command::Strips,
        _ => return None,
    };
    Some(command)
}

// The first argument, and the text behind it; none where there is no argument.
pub fn split_first(rest: &[u8]) -> Option<(&[u8], &[u8])>
    ensures parts { MatchOption result (rest.now ≡ []) (λ p. (p.0.now ≡ first_word rest.now) × (p.1.now ≡ behind_first rest.now)) }
    ensures shorter { IfSome result (λ p. length p.1.now < length rest.now) }
{
    if rest.is_empty() {
        return None;
    }
    let end = text::find(rest, 1, b' ');
    Some((&rest[1..end], &rest[end..]))
}

// Puts the numbers of a text at the front of numbers, and says how many there are; none where the text is something else.
pub fn read_numbers(rest: &[u8], numbers: &mut [i32]) -> Option<usize>
    ensures upper_bound { IfSome result (λ n. n ≤ length numbers.old) }
    ensures numbers { Numbers rest.now numbers.new result }
{
    words::read_integers(rest, numbers)
}

// The window of the first four numbers.
pub fn first_window(numbers: &[i32]) -> Window
    requires { 4 ≤ length numbers.now }
    ensures { result ≡ first_window numbers.now }
{
    Window {
        left: numbers[0],
        bottom: numbers[1],
        right: numbers[2],
        top: numbers[3],
    }
}

// A window and a stroke, where the text is l b r t x1 y1 x2 y2.
pub fn read_pair(rest: &[u8]) -> Option<(Window, Stroke)>
    ensures { ReadPair rest.now result }
{
    let mut numbers = [0i32; 8];
    if read_numbers(rest, &mut numbers)? != 8 {
        return None;
    }
    let window = first_window(&numbers);
    let stroke = grid::stroke_at(&numbers, 4);
    Some((window, stroke))
}
