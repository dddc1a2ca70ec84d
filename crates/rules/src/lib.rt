// Definitions and laws, no code.
// The cell rules of document 01, and the outcome of the calls that take a tree.
#![tactic(auto)]
