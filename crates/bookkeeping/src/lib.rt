// The strip book's calls, one by one and over any run of them, and the lists of strips on paper that they answer like. Nothing runs here.
#![tactic(auto)]
