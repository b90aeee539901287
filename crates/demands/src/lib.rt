// The three demands, said of the calls, and why they hold. There is no code here.
#![tactic(auto)]
