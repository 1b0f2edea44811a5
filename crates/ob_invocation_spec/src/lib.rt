//! What one request does to a store, for any meaning of a `new` and of a `call`: when it is refused, when it may enter a
//! transaction, what it is answered, what the store holds after it, and what it has taken and read.
#![tactic(auto)]
