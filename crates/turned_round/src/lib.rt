// A stroke turned round: what the calls on a rectangle answer of it, by their answer of the stroke itself. Nothing runs here.
#![tactic(auto)]
