// That the chosen domain sees no difference. There is no code here: the definition of what it sees, and the theorem.
#![tactic(auto)]
