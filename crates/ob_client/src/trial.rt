//! The lines of the trial.
ghost use Rattle.std.specs.Prelude.{◌≡◌, ◌<◌, ◌++◌, codes, drop, false, option_map, string_bytes, IfOk, OnOk};
ghost use Rattle.serde_json.specs.View.{view, members_view};
ghost use Rattle.serde_json.specs.Written.{has_float, compact_text};
ghost use Rattle.ob_client.specs.RequestLines.{args_pairs, into_pairs, request_json, request_line, with_pairs};
ghost use Rattle.ob_client.specs.Trials.{nothing_held, oldest, restock_or_bake, buy_or_mint, wish_of, holding_after, coin_name, candy_name, handed, request_for, request_of, first_request, drawn_after, trial_lines};
ghost use Rattle.ob_client.specs.TrialView.{holding_view, wish_view};

use crate::requests::{common_map, put_text, value_bytes};
use ob_base::Memory;
use serde_json::{Map, Value, json, put};
use std::alloc::{AllocError, Global};
use std::collections::VecDeque;

// The one client of a trial: what it holds of what it got, by the numbers of the requests that gave it, the oldest first; and whether the
// machine is full.
#[derive(Drop)]
struct TrialClient {
    coins: VecDeque<u32>,
    candies: VecDeque<u32>,
    is_full: bool,
}

// What is asked of the machine.
#[derive(Clone, Copy)]
enum Wish {
    // A coin.
    Mint,
    // A candy.
    Bake,
    // That it takes this candy.
    Restock(u32),
    // That it sells its candy for this coin.
    Buy(u32),
}

fn oldest(numbers: &VecDeque<u32>) -> Option<u32>
    ensures { result ≡ oldest numbers.now.items }
{
    numbers.front().copied()
}

fn drop_oldest(numbers: &mut VecDeque<u32>)
    ensures { numbers.new.items ≡ drop 1 numbers.old.items }
{
    let _ = numbers.pop_front();
}

fn restock_or_bake(is_full: bool, candy: Option<u32>) -> Wish
    ensures { wish_view result ≡ restock_or_bake is_full candy }
{
    match candy {
        Some(candy) if !is_full => Wish::Restock(candy),
        _ => Wish::Bake,
    }
}

fn buy_or_mint(is_full: bool, coin: Option<u32>) -> Wish
    ensures { wish_view result ≡ buy_or_mint is_full coin }
{
    match coin {
        Some(coin) if is_full => Wish::Buy(coin),
        _ => Wish::Mint,
    }
}

impl TrialClient {
    fn new(alloc: Global) -> TrialClient
        ensures { holding_view result ≡ nothing_held }
    {
        TrialClient {
            coins: VecDeque::new(alloc),
            candies: VecDeque::new(alloc),
            is_full: false,
        }
    }

    // What is asked where a number from 0 to 3 was drawn.
    fn wish_of(&self, drawn: u32) -> Wish
        ensures { wish_view result ≡ wish_of drawn (holding_view self.now) }
    {
        match drawn {
            0 => Wish::Mint,
            1 => Wish::Bake,
            2 => restock_or_bake(self.is_full, oldest(&self.candies)),
            _ => buy_or_mint(self.is_full, oldest(&self.coins)),
        }
    }

    // Notes what is held after the request of this number.
    fn note(&mut self, number: u32, wish: Wish) -> Result<(), Memory>
        ensures { OnOk result (holding_view self.new ≡ holding_after number (wish_view wish) (holding_view self.old)) }
    {
        match wish {
            Wish::Mint => self.coins.push_back(number)?,
            Wish::Bake => self.candies.push_back(number)?,
            Wish::Restock(_) => {
                drop_oldest(&mut self.candies);
                self.is_full = true;
            }
            Wish::Buy(_) => {
                drop_oldest(&mut self.coins);
                self.is_full = false;
                self.candies.push_back(number)?;
            }
        }
        Ok(())
    }
}

fn coin_name(alloc: Global, number: u32) -> Result<String, AllocError>
    ensures { IfOk result (λ name. string_bytes name ≡ coin_name number) }
{
    format!(in alloc; "c{number}")
}

fn candy_name(alloc: Global, number: u32) -> Result<String, AllocError>
    ensures { IfOk result (λ name. string_bytes name ≡ candy_name number) }
{
    format!(in alloc; "d{number}")
}

// Puts the argument that is handed over, if there is one.
fn put_handed(
    map: &mut Map<String, Value>,
    alloc: Global,
    given: Option<&str>,
) -> Result<(), AllocError>
    ensures { OnOk result (members_view map.new.entries
        ≡ with_pairs (members_view map.old.entries) (args_pairs (handed (option_map (λ name. name.now) given.entry)))) }
{
    match given {
        Some(name) => {
            let args = json!(in alloc; [{"ref": name}])?;
            put(map, alloc, "args", args)
        }
        None => Ok(()),
    }
}

// Puts the name of the new handle, if there is one.
fn put_into_name(
    map: &mut Map<String, Value>,
    alloc: Global,
    into: Option<&str>,
) -> Result<(), AllocError>
    ensures { OnOk result (members_view map.new.entries
        ≡ with_pairs (members_view map.old.entries) (into_pairs (option_map (λ name. name.now) into.entry))) }
{
    match into {
        Some(name) => put_text(map, alloc, "into", name),
        None => Ok(()),
    }
}

// The JSON value of a request by the one client of the one machine.
fn call_value(
    alloc: Global,
    number: u32,
    tx: &str,
    given: Option<&str>,
    into: Option<&str>,
) -> Result<Value, AllocError>
    ensures { IfOk result (λ value. view value ≡ request_json (request_for number tx.now
        (option_map (λ name. name.now) given.entry) (option_map (λ name. name.now) into.entry))) }
{
    let mut map = common_map(alloc, i64::from(number), "call", "alice")?;
    put_text(&mut map, alloc, "on", "m")?;
    put_text(&mut map, alloc, "tx", tx)?;
    put_handed(&mut map, alloc, given)?;
    put_into_name(&mut map, alloc, into)?;
    Ok(Value::Object(map))
}

fn mint_value(alloc: Global, number: u32) -> Result<Value, AllocError>
    ensures { IfOk result (λ value. view value ≡ request_json (request_of number (wish_view Wish.Mint))) }
{
    let into = coin_name(alloc, number)?;
    call_value(alloc, number, "mint", None, Some(into.as_str()))
}

fn bake_value(alloc: Global, number: u32) -> Result<Value, AllocError>
    ensures { IfOk result (λ value. view value ≡ request_json (request_of number (wish_view Wish.Bake))) }
{
    let into = candy_name(alloc, number)?;
    call_value(alloc, number, "bake", None, Some(into.as_str()))
}

fn restock_value(alloc: Global, number: u32, candy: u32) -> Result<Value, AllocError>
    ensures { IfOk result (λ value. view value ≡ request_json (request_of number (wish_view (Wish.Restock candy)))) }
{
    let candy = candy_name(alloc, candy)?;
    call_value(alloc, number, "restock", Some(candy.as_str()), None)
}

fn buy_value(alloc: Global, number: u32, coin: u32) -> Result<Value, AllocError>
    ensures { IfOk result (λ value. view value ≡ request_json (request_of number (wish_view (Wish.Buy coin)))) }
{
    let coin = coin_name(alloc, coin)?;
    let into = candy_name(alloc, number)?;
    call_value(
        alloc,
        number,
        "buy",
        Some(coin.as_str()),
        Some(into.as_str()),
    )
}

// The JSON value of the request of this number for what is asked.
fn wish_value(alloc: Global, number: u32, wish: Wish) -> Result<Value, AllocError>
    ensures { IfOk result (λ value. view value ≡ request_json (request_of number (wish_view wish))) }
{
    match wish {
        Wish::Mint => mint_value(alloc, number),
        Wish::Bake => bake_value(alloc, number),
        Wish::Restock(candy) => restock_value(alloc, number, candy),
        Wish::Buy(coin) => buy_value(alloc, number, coin),
    }
}

// The JSON value of the first request, which makes the machine.
fn first_value(alloc: Global) -> Result<Value, AllocError>
    ensures { IfOk result (λ value. view value ≡ request_json first_request) }
{
    let mut map = common_map(alloc, 0, "new", "alice")?;
    put_text(&mut map, alloc, "contract", "Machine")?;
    put_text(&mut map, alloc, "into", "m")?;
    Ok(Value::Object(map))
}

// Puts the line of a JSON value, whose numbers are whole, with its newline.
fn put_line(lines: &mut Vec<u8>, alloc: Global, value: &Value) -> Result<(), Memory>
    ensures { OnOk result (has_float (view value.now) ≡ false
        → lines.new.items ≡ lines.old.items ++ (compact_text (view value.now) ++ codes "\n")) }
{
    let bytes = value_bytes(alloc, value)?;
    lines.extend_from_slice(&bytes)?;
    lines.push(b'\n')?;
    Ok(())
}

// The number that is drawn after another.
fn drawn_after(drawn: u32) -> u32
    requires { drawn < 256 }
    ensures drawn { result ≡ drawn_after drawn }
    ensures below { result < 256 }
{
    (5 * drawn + 3) % 256
}

/// The request lines of the trial of this length, each with its newline: line 0 makes a vending machine, and each of the lines 1 to
/// `length` asks it for a coin or a candy, hands it a candy, or buys one with a coin, as numbers are drawn (this project's own).
pub fn trial_lines(alloc: Global, length: u32) -> Result<Vec<u8>, Memory>
    ensures { IfOk result (λ lines. lines.items ≡ trial_lines length) }
{
    let mut lines = Vec::new(alloc);
    put_line(&mut lines, alloc, &first_value(alloc)?)?;
    let mut held = TrialClient::new(alloc);
    let mut drawn = length % 256;
    for done in 0..length {
        drawn = drawn_after(drawn);
        let wish = held.wish_of(drawn / 64);
        put_line(&mut lines, alloc, &wish_value(alloc, done + 1, wish)?)?;
        held.note(done + 1, wish)?;
    }
    Ok(lines)
}
