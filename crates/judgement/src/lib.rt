// When a declaration passes the check: document 01's order of refusals as a function, Candid's well-formedness as predicates, and the
// theorem that joins them. Definitions and theorems; the code that checks is the crate `typing`.
#![tactic(auto)]
