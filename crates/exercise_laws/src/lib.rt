// Ticket 13's laws of the definitions on the list of exercises; no function.
#![tactic(auto)]
