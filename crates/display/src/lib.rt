// Laws alone: from a card's bytes to the numbers on the display. Read specs/Display; the theorem is `display` of proofs/Theorem.
#![tactic(auto)]
