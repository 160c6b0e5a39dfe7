// Document 01's worked examples P1 and P3 to P11: their bytes, the books that they are, and the theorem that each is read as its book.
// Definitions and theorems; there is no code.
#![tactic(auto)]
