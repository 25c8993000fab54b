// No code: definitions and laws on tests and lists that the other crates share.

#![tactic(auto)]
