// Who gets what in one settlement: definitions and what is shown of them. The code is in `settlement`.
#![tactic(auto)]
