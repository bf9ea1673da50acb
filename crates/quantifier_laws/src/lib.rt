// Ticket 12's definitions and laws on quantifiers under the accuracy statement; no function.
#![tactic(auto)]
