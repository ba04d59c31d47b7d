// Every theorem, said once more in other words, from which it follows again. There is no code here, and no crate stands above: what a statement below loses is
// missed here.
#![tactic(auto)]
