// Theory alone: what reading a text table gives, for any bytes.
#![tactic(auto)]
