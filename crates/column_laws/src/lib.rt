// Ticket 6's laws of the definitions on columns; no function.
#![tactic(auto)]
