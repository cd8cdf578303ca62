// Theory alone: what follows for a text that is read.
#![tactic(auto)]
