// Theorems only: the group goes on, and what a block handed out is answered.
#![tactic(auto)]
