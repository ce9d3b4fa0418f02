// What is printed of a record, by demand 3. It has no functions.
#![tactic(auto)]
