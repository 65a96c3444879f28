// Each call on a sound record leaves a sound one: laws of the machine's definitions; no code.
#![tactic(auto)]
