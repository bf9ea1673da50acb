// Ticket 11's laws of the definitions on grafting one sheet into another; no function.
#![tactic(auto)]
