// The ground: its definitions and its laws. The functions that step over it stand in `moves` and `inflows`.
#![tactic(auto)]
