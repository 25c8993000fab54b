// No code: the marked cases of document 01 as one table over the definitions of the other crates.

#![tactic(auto)]
