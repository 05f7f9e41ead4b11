// Definitions and theorems only: the choice of the giver, and a giving over Deliver and Work.
#![tactic(auto)]
