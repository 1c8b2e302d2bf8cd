//! What goroutines said: when a history is that of a run by these bodies, each told what the history gives it and asking what its calls say; and
//! where the body of a goroutine in a machine's hand stands to that.
#![tactic(auto)]
