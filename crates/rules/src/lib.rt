// The rules of the picker. This crate has no code: specs/ has the definitions, proofs/ the theorems about them.
#![tactic(auto)]
