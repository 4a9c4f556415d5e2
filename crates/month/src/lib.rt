// One building month (document 01, "Steps of a month"): its definition in specs/ and its laws in proofs/. The code that settles it is crate `settlement`.
#![tactic(auto)]
