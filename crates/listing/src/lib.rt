// What the questions of document 01 answer: list, marks, uses, projection and draft listing. Definitions and theorems; the code is the
// crate `analysis`.
#![tactic(auto)]
