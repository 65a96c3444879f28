// Histories of calls on a machine with a queue: definitions and laws, no code.
#![tactic(auto)]
