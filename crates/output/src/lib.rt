// What the program prints for a text, and figures of it. There is no code here.
#![tactic(auto)]
