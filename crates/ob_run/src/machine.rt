//! The program of the trial.
ghost use Rattle.std.specs.Prelude.{◌≡◌};
ghost use Rattle.ob_run.specs.VendingMachine.{vending_machine};

/// The text of the vending machine of the language's article (Coblenz et al., TOPLAS 42(3), 2020), with transactions that make what it
/// takes.
const VENDING_MACHINE: &str = "\
asset contract Coin { }
asset contract Candy { }
main asset contract Machine {
  state Full { Candy@Owned candy; }
  state Empty;
  int sold;
  Machine@Empty() { sold = 0; ->Empty; }
  transaction mint(Machine@Unowned this) returns Coin@Owned { return new Coin(); }
  transaction bake(Machine@Unowned this) returns Candy@Owned { return new Candy(); }
  transaction restock(Machine@Empty >> Full this, Candy@Owned >> Unowned c) {
    ->Full(candy = c);
  }
  transaction buy(Machine@Full >> Empty this, Coin@Owned >> Unowned c) returns Candy@Owned {
    disown c;
    Candy r = candy;
    ->Empty;
    sold = sold + 1;
    return r;
  }
}
";

/// This text.
pub fn vending_machine() -> &'static str
    ensures { result.now ≡ vending_machine }
{
    VENDING_MACHINE
}
