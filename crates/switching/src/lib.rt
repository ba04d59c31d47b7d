// The struck-out run where cores switch between domains. There is no code here: a statement, and its proof.
#![tactic(auto)]
