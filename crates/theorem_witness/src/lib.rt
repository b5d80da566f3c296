// A list of calls that meets the premises of the agreement, with SHA-256 itself and another rotation than the old turn: a leader is
// missing, its round is blamed and skipped, a block is committed by the blames alone, and one above that round after it. No code.

#![tactic(auto)]
