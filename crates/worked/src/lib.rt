// The worked examples as theorems, and what two calls say of one thing. Nothing runs here.
#![tactic(auto)]
