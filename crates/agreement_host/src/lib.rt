// No code: a group of hosts and what its calls do, in `specs/`, and the proof.
#![tactic(auto)]
