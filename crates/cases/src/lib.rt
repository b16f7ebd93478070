// Document 01's [P] cases, a grid's refusals and equal grids: tables and their theorems, no code.
#![tactic(auto)]
