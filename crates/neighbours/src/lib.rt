// Neighbouring strips: what the calls answer of a stroke for the strip that two neighbours make together, by their answers for the two. Nothing runs here.
#![tactic(auto)]
