// The book of a history (document 01): definitions and what is proved of them; no code.
#![tactic(auto)]
