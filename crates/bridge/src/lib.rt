// No code: that a step and a run of the code are the model's, laid over what the machine holds.
#![tactic(auto)]
