//! Coherent configurations: what each configuration keeps that a run of an accepted program reaches.
#![tactic(auto)]
