// Ticket 9's laws of the definitions on sheets that are put together, and on the restated sheet; no function.
#![tactic(auto)]
