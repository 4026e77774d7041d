// The worked cases in one table: specs/ has the table, and proofs/ the statement that each case is so. There is no code here.
#![tactic(auto)]
