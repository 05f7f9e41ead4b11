// Theorems only: document 01's marked cases and restarts from small journals, computed from the definitions.
#![tactic(auto)]
