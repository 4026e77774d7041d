// Demand 3 for a host: any run of entries is a history of the reading. Definitions and laws, no code.
#![tactic(auto)]
