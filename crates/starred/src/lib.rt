// The starred examples of document 01, as theorems. This room has no code: specs/ has one table, proofs/ its one claim.
#![tactic(auto)]
