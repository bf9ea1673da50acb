// Ticket 2's laws of the memory of a term that was read: it means that term, and its readers may know of it what they know of a
// sheet's term; no function.
#![tactic(auto)]
