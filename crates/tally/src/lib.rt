// No code: that a session follows the tally of document 01, and the theory of the room that each task can count on.
#![tactic(auto)]
