// The reply to a line, by its word.
//
// A new command is a function in the crate of its family, `.._commands`, from the text after the word to a reply, with its arm here. Its word stands in
// `arguments`, what it takes in `reasons`, and its line for `help` in `telling`. It takes 1 to 3 s to check in its family and 0.1 s here, and the
// call's own library 0.02 s a megabyte in both and in `desk`. A family of its own takes about 5 s, and an arm here.
#![tactic(auto)]

ghost use Rattle.std.specs.Prelude.{◌≤◌, length, IfSome};

use arguments::{Command, LONGEST};
use replies::Reply;

// The reply to a line; none where it is no call.
pub fn reply(line: &[u8], lent: &mut [i32]) -> Option<Reply>
    requires { 40960 ≤ length lent.old }
    ensures { IfSome result (λ r. r.count ≤ 16) }
{
    if LONGEST < line.len() {
        return None;
    }
    let end = text::find(line, 0, b' ');
    let rest = &line[end..];
    match arguments::command_of(&line[0..end])? {
        Command::Mm2 => millimetre_commands::mm2(rest),
        Command::Mm4 => millimetre_commands::mm4(rest),
        Command::Back => millimetre_commands::back(rest),
        Command::Lb => stroke_commands::lb(rest),
        Command::Cs => stroke_commands::cs(rest),
        Command::Xp => stroke_commands::xp(rest),
        Command::Cb => stroke_commands::cb(rest),
        Command::Batch => batch_commands::batch(rest, lent),
        Command::Touches => batch_commands::touches(rest, lent),
        Command::Outline => outline_commands::outline(rest, lent),
        Command::Draw => drawing_commands::draw(rest, lent),
        Command::Enter => book_commands::enter(rest, lent),
        Command::Release => book_commands::release(rest, lent),
        Command::Strips => book_commands::strips(rest, lent),
    }
}
