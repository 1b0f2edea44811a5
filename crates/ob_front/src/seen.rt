//! What the stages made of a text before its first fault. Nothing is claimed of it: a person is told of the text by it.
ghost use Rattle.std.specs.Prelude.{map};
ghost use Rattle.ob_silica.specs.TermsView.{silica_body_of};
ghost use Rattle.ob_table_spec.specs.Conditions.{IsClassTable};
ghost use Rattle.ob_front.specs.Checked.{AllNumbered};

use crate::programs::LoweredProgram;
use ob_flow::Trace;
use ob_lexer::Lexed;
use ob_silica::TermBody;
use ob_table::Table;
use ob_tree::Tree;
use std::alloc::Global;
use std::marker::Model;

/// A class table that meets the table conditions, and the terms of its bodies: what the permission rules may be asked of.
#[derive(Drop)]
pub struct AskedProgram {
    program: LoweredProgram,
}

impl Model for AskedProgram {
    ghost use Rattle.std.specs.Coded.{codes};
    ghost use Rattle.ob_table.specs.StatementsBack.{statements_code};
    ghost use Rattle.ob_table.specs.contracts.stmt.ResolvedStmt as statement;
    ghost use Rattle.ob_silica.specs.contracts.term.Term as term;
    ghost use Rattle.std.specs.Prelude.{map};
    ghost use Rattle.ob_silica.specs.TermsView.{silica_body_of};
    ghost use Rattle.ob_table_spec.specs.Conditions.{IsClassTable};
    ghost use Rattle.ob_front.specs.Checked.{AllNumbered};
    ghost use Rattle.ob_front.specs.declared.programs.LoweredProgram.{LoweredProgram};

    ghost Value = { LoweredProgram };

    ghost coded = { Prim.hlevel (codes, statements_code statement.the_row.coded, term.the_row.coded) };

    ghost view = { λ asked. asked.program };

    ghost invariant = { λ asked. IsClassTable asked.program.table
        × AllNumbered (map silica_body_of asked.program.bodies) };
}

impl AskedProgram {
    /// A program as one that the rules may be asked of.
    pub fn new(program: LoweredProgram) -> AskedProgram
        requires table { IsClassTable program.table }
        requires states { AllNumbered (map silica_body_of program.bodies) }
    {
        AskedProgram { program }
    }

    /// The class table.
    pub fn table(&self) -> &Table
        ensures { IsClassTable result.now }
    {
        &self.program.table
    }

    /// The terms of each body of the table, in the order of the bodies there.
    pub fn bodies(&self) -> &[TermBody]
        ensures { AllNumbered (map silica_body_of result.now) }
    {
        self.program.bodies.as_slice()
    }
}

/// What the stages made of a text: of one that is refused up to its first fault. Of one that is accepted the class table stays where
/// the text is only checked, and the places where it lets go of assets.
#[derive(Drop)]
pub struct Seen {
    /// Its tokens, if it has some and isn't accepted.
    pub lexed: Option<Lexed>,
    /// Its tree as it is written, if it has one and isn't accepted.
    pub tree: Option<Tree>,
    /// The tree of its instances, if it has one and isn't accepted.
    pub instances: Option<Tree>,
    /// Its class table, if it is accepted and was only checked.
    pub table: Option<Table>,
    /// Its program, if a premise of the permission rules fails, or memory runs out while they are asked.
    pub asked: Option<AskedProgram>,
    /// What the check of permissions knew.
    pub trace: Trace,
}

impl Seen {
    /// Nothing was seen yet.
    pub fn new(alloc: Global) -> Seen {
        Seen {
            lexed: None,
            tree: None,
            instances: None,
            table: None,
            asked: None,
            trace: Trace::new(alloc, false),
        }
    }

    // The text is accepted: of a fault nothing is left to be told.
    pub(crate) fn accept(&mut self) {
        self.lexed = None;
        self.tree = None;
        self.instances = None;
    }
}
