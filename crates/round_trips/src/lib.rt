// A record written into a frame, and read again: definitions and laws. There is no code here.
#![tactic(auto)]
