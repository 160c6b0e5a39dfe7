// Document 01's worked examples P1 to P11: what is asked of which bytes, what is answered, and the theorem that all of it is so.
// Definitions and theorems; there is no code.
#![tactic(auto)]
