//! The stages from a program's text to a program whose bodies are lowered and checked.
ghost use Rattle.std.specs.Prelude.{◌≡◌, ℕ, List, map, IfOk, IfErr, OnOk};
ghost use Rattle.ob_base.specs.declared.fault.ProgramFault.{ProgramFault};
ghost use Rattle.ob_silica.specs.Terms.{SilicaBody};
ghost use Rattle.ob_silica.specs.TermsView.{silica_body_of};
ghost use Rattle.ob_table.specs.Tables.{ClassTable};
ghost use Rattle.ob_code.specs.Images.{image};
ghost use Rattle.ob_coherent_spec.specs.Remaining.{IsCheckedProgram};
ghost use Rattle.ob_emit_spec.specs.EmittedImages.{image_of};
ghost use Rattle.ob_silica_steps.specs.Configurations.{SilicaProgram};
ghost use Rattle.ob_sound_code.specs.SoundCode.{IsSoundImage};
ghost use Rattle.ob_front.specs.Programs.{HasTerms, HasTermsFault, IsChecked, IsProgram, IsAccepted, HasTextFault};
ghost use Rattle.ob_front.specs.Compiled.{IsCompiledProgram, IsSoundProgram, HasSoundCode};
ghost use Rattle.ob_base.specs.TextErrors.{OnFault};

use crate::checking::check_bodies;
use crate::lowering::lower_bodies;
use crate::seen::{AskedProgram, Seen};
use crate::stages::{CompileError, class_table};
use ob_base::{Duplicate, Items, Memory, both, copy_items};
use ob_emit::emit;
use ob_silica::TermBody;
use ob_table::Table;
use ob_verify::Verified;
use std::alloc::Global;

/// A class table, and the terms of the bodies of its constructors and transactions, in the table's order.
#[derive(Drop)]
pub struct LoweredProgram {
    /// The class table, to whose numbers the terms refer.
    pub table: Table,
    /// The terms of each body of the table, in the order of the bodies there.
    pub bodies: Items<TermBody>,
}

impl Duplicate for LoweredProgram {
    fn copy(&self, alloc: Global) -> Result<LoweredProgram, Memory> {
        let (table, bodies) = both(self.table.copy(alloc), copy_items(alloc, &self.bodies))?;
        Ok(LoweredProgram { table, bodies })
    }
}

/// A program: its class table, the terms of its bodies in the table's order, and its code.
#[derive(Drop)]
pub struct Compiled {
    /// The class table, to whose numbers the terms refer.
    pub table: Table,
    /// The terms of each body of the table, in the order of the bodies there.
    pub bodies: Items<TermBody>,
    /// The code for the machine, which is verified.
    pub code: Verified,
}

impl Duplicate for Compiled {
    fn copy(&self, alloc: Global) -> Result<Compiled, Memory> {
        let (table, bodies) = both(self.table.copy(alloc), copy_items(alloc, &self.bodies))?;
        let code = self.code.copy(alloc)?;
        Ok(Compiled {
            table,
            bodies,
            code,
        })
    }
}

/// The class table of a text and the terms of its bodies, or its first fault: one that `class_table` tells, or `LIMIT` where a
/// body needs more slots than it may have. The permission rules aren't asked. The tokens, the tree and the tree of its instances stay in
/// what was seen.
pub fn lowered(alloc: Global, text: &[u8], seen: &mut Seen) -> Result<LoweredProgram, CompileError>
    ensures terms { IfOk result (λ c. HasTerms text.now c.table (map silica_body_of c.bodies)) }
    ensures fault { IfErr result (λ e. OnFault e (HasTermsFault text.now)) }
{
    let table = class_table(alloc, text, seen)?;
    let bodies = lower_bodies(alloc, &table)?;
    Ok(LoweredProgram { table, bodies })
}

// The same, where each body derives by the permission rules. A program of which a premise fails stays in what was seen.
fn checked(alloc: Global, text: &[u8], seen: &mut Seen) -> Result<LoweredProgram, CompileError>
    ensures checked { IfOk result (λ c. IsChecked text.now c.table (map silica_body_of c.bodies)) }
    ensures fault { IfErr result (λ e. OnFault e (HasTextFault text.now)) }
{
    let program = lowered(alloc, text, seen)?;
    match check_bodies(
        alloc,
        &program.table,
        program.bodies.as_slice(),
        &mut seen.trace,
    ) {
        Ok(()) => Ok(program),
        Err(error) => {
            seen.asked = Some(AskedProgram::new(program));
            Err(error)
        }
    }
}

/// The program of a text, or its first fault: one that `lowered` tells, or the first premise of the permission rules that
/// fails, body by body, or `LIMIT` at the text's start where the program weighs more than it may. The program is sound: no request
/// of it on a store at rest goes wrong, each leaves the store at rest, and each stored asset that was never shared nor disowned has
/// exactly one owner. Its code is sound: the machine runs each request to the end that the source meaning says. The code has a
/// spelling, so that it may be encoded. Of a fault what the stages made before it stays in what was seen.
pub fn compile(alloc: Global, text: &[u8], seen: &mut Seen) -> Result<Compiled, CompileError>
    ensures program { IfOk result (λ c. IsProgram text.now c.table (map silica_body_of c.bodies)) }
    ensures compiled { IfOk result (λ c. IsCompiledProgram c.table (map silica_body_of c.bodies)) }
    ensures sound { IfOk result (λ c. IsSoundProgram c.table (map silica_body_of c.bodies)) }
    ensures code { IfOk result (λ c. c.code ≡ image_of c.table (map silica_body_of c.bodies)) }
    ensures fits { IfOk result (λ c. image.fits c.code) }
    ensures sound_code { IfOk result (λ c. HasSoundCode c.table (map silica_body_of c.bodies) c.code) }
    ensures fault { IfErr result (λ e. OnFault e (HasTextFault text.now)) }
{
    let program = checked(alloc, text, seen)?;
    let image = emit(alloc, &program.table, program.bodies.as_slice())?;
    let code = Verified::by_proof(image);
    seen.accept();
    Ok(Compiled {
        table: program.table,
        bodies: program.bodies,
        code,
    })
}

/// Whether a text has a program, or its first fault: one that `compile` tells. Of a program the class table stays in what was seen,
/// and where it lets go of assets.
#[tactic(auto, using(crate::proofs::ProgramsLaws::accepted_program))]
pub fn check_program(alloc: Global, text: &[u8], seen: &mut Seen) -> Result<(), CompileError>
    ensures accepted { OnOk result (IsAccepted text.now) }
    ensures fault { IfErr result (λ e. OnFault e (HasTextFault text.now)) }
{
    seen.trace.wanted = true;
    let program = compile(alloc, text, seen)?;
    seen.table = Some(program.table);
    Ok(())
}

/// A text that is accepted is a program as the laws on programs want it: its class table meets the table conditions, its
/// bodies are well-formed, one for each constructor and transaction, and may be lowered to its terms, and these are well-formed
/// and derive.
pub fn accepted_texts_are_compiled()
    ensures { (text : List ℕ) (table : ClassTable) (bodies : List SilicaBody) → IsProgram text table bodies
        → IsCompiledProgram table bodies }
{}

/// A text that is accepted is a sound program: no request of it on a store at rest goes wrong, each leaves the store at rest, and
/// each stored asset that was never shared nor disowned has exactly one owner.
pub fn accepted_texts_are_sound()
    ensures { (text : List ℕ) (table : ClassTable) (bodies : List SilicaBody) → IsProgram text table bodies
        → IsSoundProgram table bodies }
{}

/// The image of a text that is accepted is sound code of it: each request on a store at rest comes by it to what the source meaning
/// says, and the machine always has a next step until its run is over.
pub fn accepted_texts_have_sound_code()
    ensures { (text : List ℕ) (table : ClassTable) (bodies : List SilicaBody) → IsProgram text table bodies
        → HasSoundCode table bodies (image_of table bodies) }
{}

/// The image of a class table and terms that are well-formed and derive is sound, wherever they come from: the machine always has a next
/// step until a run is over, no request on a store at rest goes wrong, and each leaves the store at rest. What is at rest is said with the
/// class table that the image gives, and nothing is asked of a source.
pub fn checked_programs_have_sound_images()
    ensures { (program : SilicaProgram) → IsCheckedProgram program → IsSoundImage (image_of program.table program.bodies) }
{}

/// A text that is accepted has no first fault.
pub fn never_accepted_and_faulty()
    ensures { (text : List ℕ) (fault : ProgramFault) → HasTextFault text fault → ¬ (IsAccepted text) }
{}

/// A text has one first fault at most.
pub fn one_text_fault()
    ensures { (text : List ℕ) (a b : ProgramFault) → HasTextFault text a → HasTextFault text b → a ≡ b }
{}
