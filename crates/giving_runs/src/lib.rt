// Theorems only: givings between replicas, computed from the definitions.
#![tactic(auto)]
