//! The places of Silica, and what is known of them: kinds and permissions, and how a permission is said for
//! another contract. Both the steps of terms and the permission rules speak of them.
#![tactic(auto)]
