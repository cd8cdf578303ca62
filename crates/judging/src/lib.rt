// Theory alone: the conditions of each call, the verdict on a list of calls, and when it is a pass.
#![tactic(auto)]
