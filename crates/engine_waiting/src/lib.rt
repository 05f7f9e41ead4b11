// Theorems only: how long a change waits, of every list of calls at a replica.
#![tactic(auto)]
