// What holds of all entries together: definitions and laws alone, no code.
#![tactic(auto)]
