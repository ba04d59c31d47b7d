// What a domain's locked lines are to it over any list of steps. There is no code here: the definitions, and the theorem.
#![tactic(auto)]
