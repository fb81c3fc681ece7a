// The search for the longest paths: its definition and its theorem. The engines that do it rest on these.
#![tactic(auto)]
