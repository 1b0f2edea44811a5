//! Faults of type parameters and type arguments.

use crate::near::Near;
use crate::sites::Site;
use ob_base::Mode;
use ob_explain_page::{Explanation, word_of};
use ob_tree::{ContractNode, ParamNode};

// The contract or interface of this name, as it is written.
fn node_named<'a>(site: &Site<'a>, name: &str) -> Option<&'a ContractNode> {
    let number = site.types().find(name.as_bytes())?;
    site.types().node(number)
}

// The parameter of the generic contract or interface of this name.
fn param_of<'a>(site: &Site<'a>, name: &str) -> Option<&'a ParamNode> {
    node_named(site, name)?.param.as_ref()
}

// Puts how a generic contract or interface is declared.
fn put_declared(told: &mut Explanation, near: &Near<'_>, name: &str, param: &ParamNode) {
    let written = near.between(param.span, param.span.end);
    told.note
        .put_with("`{}` is declared with `{}`.", &[name, written]);
}

// What a bound takes.
fn taken_by(mode: Mode) -> &'static str {
    match mode {
        Mode::Owned => "`Owned` and states",
        Mode::Shared => "`Shared`",
        Mode::Unowned => "each permission",
    }
}

// Whether the name at the place and the permission after it are the parameters of the contract around.
fn is_own_argument(site: &Site<'_>) -> bool {
    match &site.within {
        Some(within) => {
            within.param() == site.near.word() && within.perm_param() == site.near.ahead(2)
        }
        None => false,
    }
}

// An asset, of which the parameter takes none.
fn explain_asset(told: &mut Explanation, site: &Site<'_>, generic: &str) {
    let argument = site.near.word();
    told.what.put_with(
        "`{}` is an asset, and `{}` is declared for types that aren't",
        &[argument, generic],
    );
    told.help.put_with(
        if site.is_param(argument) {
            "write `asset` in the brackets where `{}` is declared, or leave it out where `{}` is."
        } else {
            "write `asset` in the brackets where `{}` is declared, or pass a type that is no asset."
        },
        &[generic, site.own_name()],
    );
}

// A permission that the bound doesn't take.
fn explain_permission(told: &mut Explanation, site: &Site<'_>, generic: &str, bound: Mode) {
    told.what.put_with("`{}` takes ", &[generic]);
    told.what.put(taken_by(bound));
    told.what.put_with(
        " by its bound, and this `{}` is held otherwise",
        &[site.near.word()],
    );
    if is_own_argument(site) {
        told.help.put_with(
            "write such a bound where `{}` is declared too, or change that of `{}`.",
            &[site.own_name(), generic],
        );
    } else {
        told.help.put_with(
            "pass it as the bound says, or change the bound where `{}` is declared.",
            &[generic],
        );
    }
}

// Whether the name at the place denotes an asset.
fn is_asset(site: &Site<'_>) -> bool {
    match node_named(site, site.base(site.near.word())) {
        Some(node) => node.asset,
        None => false,
    }
}

// An argument that this parameter doesn't take.
fn explain_refused(told: &mut Explanation, site: &Site<'_>, generic: &str, param: &ParamNode) {
    put_declared(told, &site.near, generic, param);
    if is_asset(site) && !param.asset {
        explain_asset(told, site, generic);
    } else if let Some((_, mode)) = &param.bound {
        explain_permission(told, site, generic, *mode);
    }
}

/// An argument that its parameter doesn't take. The generic contract's name stands before the bracket that opens before it.
pub fn explain_bound(told: &mut Explanation, site: &Site<'_>) {
    let generic = site.near.back(2);
    if let Some(param) = param_of(site, generic) {
        explain_refused(told, site, generic, param);
    }
}

/// A type that needs one instance too many, or one whose name is too long.
pub fn explain_instances(told: &mut Explanation, is_long: bool) {
    told.what.put(if is_long {
        "the name of the instance that this type needs has more than 1024 bytes"
    } else {
        "with this type the program needs more than 256 instances of generic contracts"
    });
    told.note.put(
        "each row of arguments makes a contract of its own: `Box[Coin@Owned]` is one, and `Box[Box[Coin@Owned]@Owned]` another one.",
    );
    told.help.put(
        "let a generic contract name itself with its own parameters, as `Box[T@s]`, and not with ever longer arguments.",
    );
}

// Whether the name at the place is the one that a head declares.
fn is_head(near: &Near<'_>) -> bool {
    near.back(1) == "contract" || near.back(1) == "interface"
}

// Puts the name of a generic contract with its parameters.
fn put_generic(told: &mut Explanation, name: &str, param: &ParamNode) {
    told.help.put_with(
        "`{}[{}@{}]`",
        &[
            name,
            word_of(param.name.name.as_bytes()),
            word_of(param.perm.name.as_bytes()),
        ],
    );
}

// The name of the generic contract around, where it doesn't denote the contract itself.
fn explain_own(told: &mut Explanation, name: &str, param: &ParamNode) {
    told.what.put_with(
        "`{}` is generic: without an argument its name stands here for the type of `this` and of the constructor alone",
        &[name],
    );
    told.help.put("write ");
    put_generic(told, name, param);
    told.help.put(" for one that holds the same.");
}

// A generic contract without an argument.
fn explain_bare(told: &mut Explanation, name: &str, param: &ParamNode) {
    told.what
        .put_with("`{}` is generic, and has no argument here", &[name]);
    told.help.put("write what it holds in brackets, as ");
    put_generic(told, name, param);
    told.help.put_with(
        " with a type in the place of `{}` and a permission in that of `{}`.",
        &[
            word_of(param.name.name.as_bytes()),
            word_of(param.perm.name.as_bytes()),
        ],
    );
}

// An argument after a name that takes none.
fn explain_needless(told: &mut Explanation, site: &Site<'_>, name: &str) {
    told.what.put_with(
        if site.is_param(name) {
            "`{}` is a type parameter, and takes no argument"
        } else {
            "`{}` isn't generic, and takes no argument"
        },
        &[name],
    );
    told.help.put("leave the brackets out.");
}

// A generic contract that is main.
fn explain_generic_main(told: &mut Explanation, name: &str) {
    told.what.put_with(
        "`{}` is main and generic, and a client makes an object of the main contract by its name alone",
        &[name],
    );
    told.help.put("leave `main` out, or the type parameter.");
}

// A name with an argument where it has none, or the other way round.
fn explain_named(told: &mut Explanation, site: &Site<'_>, name: &str) {
    if site.near.ahead(1) == "[" {
        return explain_needless(told, site, name);
    }
    if let Some(param) = param_of(site, name) {
        put_declared(told, &site.near, name, param);
        if name == site.own_name() {
            explain_own(told, name, param);
        } else {
            explain_bare(told, name, param);
        }
    }
}

/// A generic contract without an argument, an argument after another name, or a generic main contract.
pub fn explain_argument_count(told: &mut Explanation, site: &Site<'_>) {
    let name = site.near.word();
    if is_head(&site.near) {
        explain_generic_main(told, name);
    } else {
        explain_named(told, site, name);
    }
}

/// The bound of a parameter that names something else.
pub fn explain_bound_name(told: &mut Explanation, site: &Site<'_>) {
    told.what.put_with(
        "a bound is of the permission parameter, and `{}` isn't that",
        &[site.near.word()],
    );
    if let Some(param) = &site.around.node().param {
        told.help.put_with(
            "write `where {} is ..`.",
            &[word_of(param.perm.name.as_bytes())],
        );
    }
}

/// Whether the name at the place is a bound's.
pub fn is_bound(near: &Near<'_>) -> bool {
    near.back(1) == "where"
}
