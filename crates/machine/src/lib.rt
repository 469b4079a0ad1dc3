// Definitions and theorems alone: no code.

#![tactic(auto)]
