// The form of a file: definitions and laws.
#![tactic(auto)]
