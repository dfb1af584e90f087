// Convex rings in the plane: pure theory, nothing runs. The definitions are in specs/, the laws in proofs/.
#![tactic(auto)]
