// Examples aimed at single points of docs/FORMAT.md, settled by computation over the definitions of the three layers. No code.
#![tactic(auto)]
