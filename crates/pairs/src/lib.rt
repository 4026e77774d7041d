// Definitions and laws alone: the answers of two uploads side by side, and the text that says where they differ.
#![tactic(auto)]
