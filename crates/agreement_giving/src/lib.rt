// Definitions and theorems only: windows and givings in a group.
#![tactic(auto)]
