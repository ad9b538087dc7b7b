// The definitions of the published calls and the theorems about them; their code is in crate `registry`.
#![tactic(auto)]
