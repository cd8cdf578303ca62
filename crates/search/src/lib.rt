// Theory alone: tests, sets, bounded searches, counts, and bytes written at a buffer's front.
#![tactic(auto)]
