// Ticket 14's laws of the definitions on the index of names; no function.
#![tactic(auto)]
