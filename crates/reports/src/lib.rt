// What is reported of a drawing, whatever the report looks like. The definition is in specs/, its laws are in proofs/.
#![tactic(auto)]

use grid::Refusal;

// A report at the front of a page: where it ends, and the refusal that it tells of; none where the drawing was cut.
#[derive(Drop)]
pub struct Made {
    pub end: usize,
    pub refusal: Option<Refusal>,
}

// Tells of a refusal, in a line on standard error. The number 0 refuses nothing, and nothing is told of it.
pub fn tell(rt: &HostRuntime, refusal: Refusal) {
    if refusal.number == 0 {
        return;
    }
    let mut line = [0u8; 160];
    let end = refusals::put_line(&mut line, 0, refusal.number, refusal.place);
    streams::tell(rt, &line[..end]);
}
