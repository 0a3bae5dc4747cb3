#![tactic(auto)]

// Theorems about wat's definitions: each rest of a text has an answer, each call one answer, each text one division.
// There is no code here.
