// Document 01 as definitions (specs/) and the theorems over them (proofs/). No function.
#![tactic(auto)]
