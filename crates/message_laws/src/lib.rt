// Laws of messages (paper 02, W9), and the proof of what is promised of them over several calls. All of it is in proofs/; there is no function here.
#![tactic(auto)]
