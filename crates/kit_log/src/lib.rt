// The kit log: what its reading is, of a whole string and over any cuts, and what its entries' bytes are. Definitions in specs/, laws in proofs/. There
// is no code here.
#![tactic(auto)]
