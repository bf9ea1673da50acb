// Ticket 5's laws of the definitions on checking a term; no function.
#![tactic(auto)]
