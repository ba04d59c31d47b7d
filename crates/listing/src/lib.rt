// What the listing of a trace file is. There is no code here: definitions, and the worked cases.
#![tactic(auto)]
