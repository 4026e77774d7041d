// What there is to write, and what a writer answers and leaves in a lent buffer: how many bytes were written, or a refusal, and then no byte was changed. It
// stands in specs/, its laws in proofs/.
#![tactic(auto)]
