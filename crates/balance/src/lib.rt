// Lines in and lines out, over any list of steps. There is no code here: definitions, and theorems.
#![tactic(auto)]
