// Ticket 2's laws of the definitions: a strict text has one term at most, which the reader gives, and it restores the term of a sheet; no
// function.
#![tactic(auto)]
