// Theory alone: rules of models, the run of calls, the equations, that passed orders solve them.
#![tactic(auto)]
