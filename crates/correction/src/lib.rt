// The theory of correction: how an array comes nearer to every frame that it may have been. Nothing here runs.
#![tactic(auto)]
