//! The plain data of a store and of a run: values, objects, what a store holds, the world on which a run
//! works with its marks and locks, what operators give, and when a run goes wrong.
#![tactic(auto)]
