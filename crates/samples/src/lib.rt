// Sample files with their answers: one table in specs/, proved by one statement in proofs/.

#![tactic(auto)]
