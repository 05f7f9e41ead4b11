// Theorems only: two runs of a group, computed from the definitions.
#![tactic(auto)]
