// Document 02, W-210, packing, as definitions, without a function: in specs/ the rules, in proofs/ their laws and numbers.
#![tactic(auto)]
