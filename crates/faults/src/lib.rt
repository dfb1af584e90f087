// What standard error says of a text that is not a strip book's.
#![tactic(auto)]

ghost use Rattle.std.specs.Prelude.{◌≤◌, length};
ghost use Rattle.text.specs.Pages.{Put};
ghost use Rattle.faults.specs.Words.{fault_text};

// Puts which line it is.
fn put_line(page: &mut [u8], line: usize) -> usize
    requires { 60 ≤ length page.old }
    ensures { Put page.old page.new 0 result (fault_text line) }
{
    let a = text::put(page, 0, b"line ");
    let b = text::put_natural(page, a, line as u64);
    text::put(page, b, b" is not that of a strip book")
}

// Tells which line it is, and some words behind it.
pub fn tell(rt: &HostRuntime, line: usize, after: &[u8]) {
    let mut page = [0u8; 60];
    let end = put_line(&mut page, line);
    streams::tell(rt, &page[..end]);
    streams::tell(rt, after);
}
