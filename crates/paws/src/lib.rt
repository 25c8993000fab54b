// No code: protection against wrapped sequence numbers (RFC 7323, section 5), as a claim over the definitions of the other crates.

#![tactic(auto)]
