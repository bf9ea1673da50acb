// Ticket 8's laws of the definitions on the order of names and on sorting; no function.
#![tactic(auto)]
