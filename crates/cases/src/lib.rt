// Closed cases of the rules beyond those that the paper marks, and of joining, as theorems in specs/. No code, and no must-fail
// edit: nothing here is checked again when an edit is tried.
#![tactic(auto)]
