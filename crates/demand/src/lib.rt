// The struck-out run in document 01's own terms. There is no code here: the statement, and its derivation from the theorem `isolation`.
#![tactic(auto)]
