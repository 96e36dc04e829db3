// Lists of calls over document 01's definitions (proofs/Worked.antt), computed by the checker: they show that the theorems
// are not empty. A crate of its own, so that the must-fail edits of `rules` cost less. No code.
#![tactic(auto)]
