// No code: bounded quantifiers, sums and splices of lists, which know nothing of containers.
#![tactic(auto)]
