// What acceptance is worth: theorems alone, from the checker's own contracts to running tasks.

#![tactic(auto)]
