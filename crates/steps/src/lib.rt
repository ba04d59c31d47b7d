// What a step is: the tables, a step, a run, a fresh cache. There is no code here: definitions, and laws of them.
#![tactic(auto)]
