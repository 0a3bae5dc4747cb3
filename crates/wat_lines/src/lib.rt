#![tactic(auto)]

// Line ends: the standard's newline, and how many of them bytes hold. There is no code here.
