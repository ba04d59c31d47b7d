// What holds in every state that a run from a fresh cache reaches. There is no code here: definitions, and theorems.
#![tactic(auto)]
