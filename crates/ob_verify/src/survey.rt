//! What is found out about the contracts of an image once, before its bodies are passed: so a call of an interface's transaction
//! asks nothing of the contracts that implement it, and a `new` looks for no constructor.
ghost use Rattle.std.specs.Prelude.{◌≡◌, ℕ, ◌+◌, ◌<◌, ◌&&◌, Some, true, false, map, position, slice_get};
ghost use Rattle.std.specs.Prelude.{IfOk, OnOk, IfSome, OnSome, IfNone};
ghost use Rattle.std.specs.List.{list_all};
ghost use Rattle.std.specs.Option.{option_copied, option_and_then, option_flatten};
ghost use Rattle.ob_code.specs.declared.image.BodyCode.{BodyCode};
ghost use Rattle.ob_code.specs.Code.{is_interface, is_constructor, contract_code, body_code};
ghost use Rattle.ob_verify_spec.specs.Frames.{constructor_code};
ghost use Rattle.ob_verify_spec.specs.Conditions.{has_answer, answers_if_implemented};
ghost use Rattle.ob_verify.specs.Named.{HavePlaces};
ghost use Rattle.ob_verify.specs.Surveys.{all_answers_by, with_answers, is_asked, with_answers_from, constructor_places};

use crate::answers::has_answer;
use crate::transactions::{Places, places_of};
use ob_base::{ContractId, Items, Memory, TxId};
use ob_code::{
    BodyCode, ContractCode, Image, body_code, constructor_place, contract_code, is_interface,
};
use std::alloc::Global;
use std::marker::Model;

/// An image, with whether the contracts that implement a contract answer for its transactions, and where each has its constructor.
#[derive(Drop)]
pub struct Surveyed<'a> {
    image: &'a Image,
    answered: Items<Items<bool>>,
    constructors: Items<Option<usize>>,
}

impl<'a> Model for Surveyed<'a> {
    ghost use Rattle.ob_code.specs.declared.image.Image.{Image};
    ghost use Rattle.ob_verify.specs.Surveys.{IsSurvey};

    ghost Value = { Image };

    ghost view = { λ s. s.image.now };

    ghost invariant = { λ s. IsSurvey s.image.now s.answered s.constructors };
}

// Whether contracts answer for transactions before any is asked.
#[tactic(auto, using(crate::proofs::SurveyLoops::mapped))]
fn unasked(alloc: Global, bodies: &[BodyCode]) -> Result<Items<bool>, Memory>
    ensures { IfOk result (λ row. row ≡ map (λ b. true) bodies.now) }
{
    let mut row = Items::new(alloc);
    for _body in bodies {
        row.push(true)?;
    }
    Ok(row)
}

// The same for all contracts.
#[tactic(auto, using(crate::proofs::SurveyLoops::mapped))]
fn unasked_all(alloc: Global, contracts: &[ContractCode]) -> Result<Vec<Items<bool>>, Memory>
    ensures { IfOk result (λ rows. rows.items ≡ map (λ c. map (λ b. true) c.bodies) contracts.now) }
{
    let mut rows = Vec::with_capacity(alloc, contracts.len())?;
    for contract in contracts {
        rows.push(unasked(alloc, contract.bodies.as_slice())?)?;
    }
    Ok(rows)
}

// Whether all that were asked for a transaction answer, and one more contract.
fn still_answered(own: &ContractCode, places: &Places, asked: &BodyCode, so_far: bool) -> bool
    requires { HavePlaces places.now own.now.bodies }
    ensures { result ≡ (so_far && has_answer asked.now own.now) }
{
    so_far && has_answer(asked, own, places)
}

// Asks a contract for each of the transactions for which all that were asked answer.
#[tactic(auto, using(crate::proofs::SurveyLoops::asking))]
fn ask_each(own: &ContractCode, places: &Places, asked: &[BodyCode], row: &mut Items<bool>)
    requires { HavePlaces places.now own.now.bodies }
    ensures { row.new ≡ with_answers own.now asked.now row.old }
{
    let count = asked.len().min(row.len());
    for place in 0..count {
        let still = still_answered(own, places, &asked[place], row.as_slice()[place]);
        row.set(place, still);
    }
}

// Asks a contract for the transactions of one that it implements.
fn ask(
    alloc: Global,
    own: &ContractCode,
    asked: &[BodyCode],
    row: &mut Items<bool>,
) -> Result<(), Memory>
    ensures { OnOk result (row.new ≡ with_answers own.now asked.now row.old) }
{
    let places = places_of(alloc, own.bodies.as_slice())?;
    ask_each(own, &places, asked, row);
    Ok(())
}

// The number of the contract that a contract has to answer for, where that is below this number.
fn asked_below(own: &ContractCode, count: usize) -> Option<usize>
    ensures below { IfSome result (λ n. n < count) }
    ensures declared { IfSome result (λ n. own.now.implements ≡ n + 1) }
    ensures contract { OnSome result (is_interface own.now ≡ false) }
    ensures none { IfNone result ((n : ℕ) → n < count → is_asked own.now n ≡ false) }
{
    if is_interface(own) || own.implements == 0 {
        return None;
    }
    let number = (own.implements - 1) as usize;
    if number >= count {
        return None;
    }
    Some(number)
}

// Asks a contract for the transactions of the one that it implements, if it implements one.
#[tactic(auto, using(crate::proofs::SurveyLoops::asking_one))]
fn ask_for_declared(
    alloc: Global,
    own: &ContractCode,
    contracts: &[ContractCode],
    rows: &mut [Items<bool>],
) -> Result<(), Memory>
    ensures { OnOk result (rows.new ≡ with_answers_from own.now 0 contracts.now rows.old) }
{
    let count = contracts.len().min(rows.len());
    match asked_below(own, count) {
        Some(number) => ask(
            alloc,
            own,
            contracts[number].bodies.as_slice(),
            &mut rows[number],
        ),
        None => Ok(()),
    }
}

// Whether contracts answer for the transactions of the ones that they implement.
#[tactic(auto, using(crate::proofs::SurveyLoops::asking_all))]
fn all_answers(alloc: Global, contracts: &[ContractCode]) -> Result<Vec<Items<bool>>, Memory>
    ensures { IfOk result (λ rows. rows.items ≡ all_answers_by contracts.now 0 contracts.now) }
{
    let mut rows = unasked_all(alloc, contracts)?;
    for own in contracts {
        ask_for_declared(alloc, own, contracts, rows.as_mut_slice())?;
    }
    Ok(rows)
}

// Where each contract has its constructor.
#[tactic(auto, using(crate::proofs::SurveyLoops::mapped))]
fn constructor_places(
    alloc: Global,
    contracts: &[ContractCode],
) -> Result<Vec<Option<usize>>, Memory>
    ensures { IfOk result (λ places. places.items ≡ constructor_places contracts.now) }
{
    let mut places = Vec::with_capacity(alloc, contracts.len())?;
    for contract in contracts {
        places.push(constructor_place(contract.bodies.as_slice()))?;
    }
    Ok(places)
}

// What stands at a number of a contract and one of its transactions.
fn answer_at(rows: &Items<Items<bool>>, contract: usize, tx: usize) -> Option<bool>
    ensures { result ≡ option_and_then (λ row. slice_get row tx) (slice_get rows.now contract) }
{
    match rows.get(contract) {
        Some(row) => row.get(tx).copied(),
        None => None,
    }
}

// The place at the number of a contract.
fn place_at(places: &Items<Option<usize>>, contract: usize) -> Option<usize>
    ensures { result ≡ option_flatten (slice_get places.now contract) }
{
    match places.get(contract) {
        Some(place) => *place,
        None => None,
    }
}

impl<'a> Surveyed<'a> {
    /// The image, surveyed.
    pub fn of(alloc: Global, image: &'a Image) -> Result<Surveyed<'a>, Memory>
        ensures { IfOk result (λ surveyed. surveyed ≡ image.now) }
    {
        let answered = all_answers(alloc, image.contracts.as_slice())?;
        let constructors = constructor_places(alloc, image.contracts.as_slice())?;
        Ok(Surveyed {
            image,
            answered: Items::from_vec(answered),
            constructors: Items::from_vec(constructors),
        })
    }

    /// The contract or interface of a number.
    pub fn contract(&self, contract: ContractId) -> Option<&ContractCode>
        ensures { option_copied result ≡ contract_code self.now contract }
    {
        contract_code(self.image, contract)
    }

    /// The constructor or transaction of a contract, by its number there.
    pub fn body(&self, contract: ContractId, tx: TxId) -> Option<&BodyCode>
        ensures { option_copied result ≡ body_code self.now contract tx }
    {
        body_code(self.image, contract, tx)
    }

    /// The constructor of a contract, in a time that doesn't grow with the number of its bodies.
    pub fn constructor(&self, contract: ContractId) -> Option<&BodyCode>
        ensures { option_copied result ≡ constructor_code self.now contract }
    {
        match self.contract(contract) {
            Some(own) => match place_at(&self.constructors, contract.0 as usize) {
                Some(place) => own.bodies.get(place),
                None => None,
            },
            None => None,
        }
    }

    /// Whether each contract that implements one answers for its transaction of a number, in a time that doesn't grow with the
    /// number of contracts.
    pub fn all_answer(&self, contract: ContractId, tx: TxId) -> bool
        ensures { (asked : BodyCode) → body_code self.now contract tx ≡ Some asked
            → result ≡ list_all (answers_if_implemented contract asked) self.now.contracts }
    {
        match answer_at(&self.answered, contract.0 as usize, tx.0 as usize) {
            Some(answered) => answered,
            None => true,
        }
    }
}
