// Theory alone: what an order is, what a cycle is, and the procedure that gives or shows one.
#![tactic(auto)]
