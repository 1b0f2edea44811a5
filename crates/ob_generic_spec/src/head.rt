//! What types ask of contracts.
use ob_base::{Items, Text};
use ob_tree::ParamNode;

/// What types ask of a contract or an interface (Coblenz et al., TOPLAS 42(3), 2020, on generics).
#[derive(Drop)]
pub struct Head {
    /// Its name.
    pub name: Text,
    /// Whether it is an asset.
    pub asset: bool,
    /// Its type parameter: it is generic if it has one.
    pub param: Option<ParamNode>,
    /// The names of its states.
    pub states: Items<Text>,
}
