//! The permission rules: which terms of Silica derive, from what is known of permissions and states (Coblenz et al.,
//! TOPLAS 42(3), 2020, "Silica").
#![tactic(auto)]
