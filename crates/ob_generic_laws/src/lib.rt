//! Laws of the instances of a program: they are one list, and nothing else is needed; the tree of the instances has no
//! generics and keeps its shape; a program without type parameters and type arguments stays as it is.
#![tactic(auto)]

ghost use Rattle.std.specs.Prelude.{◌≡◌, false, List, All, IsTrue};
ghost use Rattle.ob_base.specs.Names.{is_text};
ghost use Rattle.ob_resolve_spec.specs.Declarations.{Program};
ghost use Rattle.ob_resolve_spec.specs.Generics.{HasNoGenerics};
ghost use Rattle.ob_resolve_spec.specs.Shape.{HasShape};
ghost use Rattle.ob_generic_spec.specs.Substitution.{written_in};
ghost use Rattle.ob_generic_spec.specs.Instances.{AreInstances, instances_of, needed_by, is_long, visits, type_of_use};
ghost use Rattle.ob_generic_spec.specs.TypeFaults.{HasNoTypeFault, least_type_fault, IsLeastTypeFaultOrNone};
ghost use Rattle.ob_generic_spec.specs.InstanceTrees.{instance_tree};
ghost use Rattle.ob_generic_spec.specs.TextNames.{HaveTextNames};
ghost use Rattle.ob_generic_spec.specs.declared.instance.Instance.{Instance};

/// What is found round after round are the instances of the program.
pub fn instances_are_found()
    ensures { (program : Program) → AreInstances program (instances_of program) }
{}

/// A program has one list of instances at most.
pub fn one_list_of_instances()
    ensures { (program : Program) (xs ys : List Instance) → AreInstances program xs → AreInstances program ys → xs ≡ ys }
{}

/// A program whose types have no fault needs its instances and no others: the limit on their number leaves none out.
pub fn nothing_else_is_needed()
    ensures { (program : Program) → HasNoTypeFault program → instances_of program ≡ needed_by program (instances_of program) }
{}

/// No instance has a printed name that is too long for a name in a tree.
pub fn names_are_short()
    ensures { (program : Program) → All (λ x. is_long x ≡ false) (instances_of program) }
{}

/// The tree of the instances has no type parameter and no type argument.
pub fn instance_trees_have_no_generics()
    ensures { (program : Program) → HasNoGenerics (instance_tree program) }
{}

/// The tree of the instances has the shape of trees of texts (`HasShape`) where the tree of the program has it.
pub fn instance_trees_have_shape()
    ensures { (program : Program) → HasShape program → HasShape (instance_tree program) }
{}

/// Where the names in types are texts, as in the tree of a text, so are the printed names: those of the instances, and, if the
/// types have no fault, those of all types that are met. So the tree of the instances has the names that are printed.
pub fn printed_names_are_texts()
    ensures instances { (program : Program) → HaveTextNames program
        → All (λ x. IsTrue (is_text x.name)) (instances_of program) }
    ensures types { (program : Program) → HaveTextNames program → HasNoTypeFault program
        → All (λ v. IsTrue (is_text (written_in v.around.own (type_of_use v.of)).name))
        (visits program (instances_of program)) }
{}

/// A program without type parameters and type arguments has no fault of these, and its tree is that of its instances.
pub fn plain_programs_stay()
    ensures clean { (program : Program) → HasNoGenerics program → HasNoTypeFault program }
    ensures same { (program : Program) → HasNoGenerics program → instance_tree program ≡ program }
{}

/// The least fault of types that is computed site by site is the least of all, and none is computed where there is none.
pub fn least_type_fault_is_least()
    ensures { (program : Program) → IsLeastTypeFaultOrNone program (least_type_fault program) }
{}
