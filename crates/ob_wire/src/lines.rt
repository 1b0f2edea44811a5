//! What a line asks: a request, or a batch of them.
ghost use Rattle.std.specs.Prelude.{◌≡◌, ◌↔◌, ℕ, List, Ok, Err, Some, IfOk, IsErrOf};
ghost use Rattle.serde_json.specs.Data.{Data};
ghost use Rattle.serde_json.specs.View.{view, items_view};
ghost use Rattle.ob_wire.specs.Requests.{Asks, AsksIncoming, AsksNothing, AsksWrongCount, IsIncoming, IsNoJson, IsNoRequest, IsRequest, IsWrongCount};
ghost use Rattle.ob_wire.specs.Reading.{request_in, requests_in, batch_of, batch_in, one_in, incoming_in, Answers, Gives, Reads};

use crate::reading::{WireError, request_in};
use crate::request::{Incoming, Request};
use ob_base::{Items, MOST_REQUESTS};
use serde_json::Value;
use std::alloc::Global;

fn requests_in(alloc: Global, values: &[Value]) -> Result<Items<Request>, WireError>
    ensures { Answers result (requests_in (items_view values.now)) }
{
    let mut requests = Items::new(alloc);
    for value in values {
        requests.push(request_in(alloc, value)?)?;
    }
    Ok(requests)
}

// These requests as a batch, if there may be so many.
fn batch_of(requests: Items<Request>) -> Result<Incoming, WireError>
    ensures { result ≡ batch_of requests }
{
    if requests.is_empty() || requests.len() > MOST_REQUESTS {
        return Err(WireError::BatchSize);
    }
    Ok(Incoming::Batch(requests))
}

fn batch_in(alloc: Global, values: &[Value]) -> Result<Incoming, WireError>
    ensures { Gives result (batch_in (items_view values.now)) }
{
    let requests = requests_in(alloc, values)?;
    batch_of(requests)
}

fn one_in(alloc: Global, value: &Value) -> Result<Incoming, WireError>
    ensures { Gives result (one_in (view value.now)) }
{
    let request = request_in(alloc, value)?;
    Ok(Incoming::One(request))
}

fn incoming_in(alloc: Global, value: &Value) -> Result<Incoming, WireError>
    ensures { Gives result (incoming_in (view value.now)) }
{
    match value.as_array() {
        Some(values) => batch_in(alloc, values),
        None => one_in(alloc, value),
    }
}

fn find_incoming(alloc: Global, line: &[u8]) -> Result<Incoming, WireError>
    ensures { Reads result line.now }
{
    match Value::from_slice(alloc, line) {
        Ok(value) => incoming_in(alloc, &value),
        Err(error) => {
            if error.is_memory() {
                return Err(WireError::Memory);
            }
            Err(WireError::Json)
        }
    }
}

/// What a line asks. An array of which an item is no request is `Shape`, whatever its length.
pub fn read_request(alloc: Global, line: &[u8]) -> Result<Incoming, WireError>
    ensures asked { IfOk result (λ incoming. AsksIncoming line.now incoming) }
    ensures no_json { IsErrOf result WireError.Json → IsNoJson line.now }
    ensures no_request { IsErrOf result WireError.Shape → AsksNothing line.now }
    ensures batch_size { IsErrOf result WireError.BatchSize → AsksWrongCount line.now }
{
    find_incoming(alloc, line)
}

/// Laws: the request that a value asks can be worked out of it, and a line asks one request at most.
pub fn requests_are_asked()
    ensures worked_out { (value : Data) (request : Request) → request_in value ≡ Some request → IsRequest value request }
    ensures found { (value : Data) (request : Request) → IsRequest value request → request_in value ≡ Some request }
    ensures one { (line : List ℕ) (first second : Request) → Asks line first → Asks line second → first ≡ second }
{}

/// Laws: what a value asks, and why it asks nothing, can be worked out of it; and a line asks one thing at most.
pub fn incoming_is_asked()
    ensures worked_out { (value : Data) (incoming : Incoming) → incoming_in value ≡ Ok incoming → IsIncoming value incoming }
    ensures found { (value : Data) (incoming : Incoming) → IsIncoming value incoming → incoming_in value ≡ Ok incoming }
    ensures no_request { (value : Data) → (incoming_in value ≡ Err WireError.Shape) ↔ IsNoRequest value }
    ensures batch_size { (value : Data) → (incoming_in value ≡ Err WireError.BatchSize) ↔ IsWrongCount value }
    ensures one { (line : List ℕ) (first second : Incoming) → AsksIncoming line first → AsksIncoming line second → first ≡ second }
{}
