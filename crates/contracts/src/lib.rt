// The contract of every public call, used at full strength. There is no code here.
#![tactic(auto)]
