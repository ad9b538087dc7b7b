// The readings of document 01 that are proved, and worked calls: facts that are computed from the definitions.
#![tactic(auto)]
