//! What a well-formed body of terms is: what the flow check and the code generator need of a body.
#![tactic(auto)]
