//! What is said where a bracket is missing, or one is too many, of parts that stand in other brackets than here, or without, and of
//! what is asked of a state or of who calls: rules, as rules.rt says.

/// Of brackets, and of parts that stand in some or in none.
pub const BRACKETS: &str =
    "could if return & found state & next = => a change of state is written `->#after#;`.
could } & found #none transaction state contract private main asset interface => the `{` of line #line# isn't closed: a `}` is missing.
could contract & found } => this `}` is one too many.
first if => the condition of an `if` stands in parentheses.
first while => the condition of a `while` stands in parentheses.
could { & level body & first else => a branch stands in braces, also where it is one statement.
could { & alone & begin while & first ) => the block of a `while` stands in braces, also where it is one statement.
could { & alone & level body & first ) => a branch stands in braces, also where it is one statement.
could { & alone & level member & found returns -> => a constructor has no result: leave this and the type out.
could { & alone & level member & found ; => constructors and a contract's transactions have a body: `{ .. }`.
could returns & first ) & found { => an interface declares a transaction without a body: it ends with `;`.
could returns & first ) & found ; => a contract's transaction has a body: `{ .. }`.
could ; & alone & level member & second state & found { => a state of an interface has no fields: it ends with `;`.
could ; & alone & level member & begin transaction & found { => an interface declares a transaction without a body: it ends with `;`.
first void & second returns => a transaction without a result has no `returns`: leave `returns void` out.
second -> & found { => the fields of a change of state stand in parentheses, as in `->S(f = v);`.
second state & found , => each state has the word `state`: `state #first#; state #next#;`.
could >> & found -> = => what is held at the end stands after `>>`.
could if return & found else => `else` stands directly behind the `}` of an `if`.
begin for foreach do loop => #loops#
first disown & found this & next . => a field of `this` is written by its name alone: `disown #after#;`.
first disown => `disown` takes a name: put the object into a local variable first.
could ) & found ; { => a `)` is missing before this.
third -> & first ( => a field of the new state is given by its name: `->#second#(f = ..);`.
could @ & level member & first constructor init __init__ & found ( => a constructor has the contract's name, and behind `@` what it gives: `#own#@Owned(..) { .. }`.
could implements & found is extends => a contract inherits nothing: `implements` names an interface that it meets.
could if return & found ( => no statement begins with `(`: the one result of a call goes into a variable, as in `int n = f();`.
could if return & found + & next + => write `#after# = #after# + 1;`: there is no `++`.
could if return & found - & next - => write `#after# = #after# - 1;`: there is no `--`.";

/// Of what is asked of a state, of the caller and of the time.
pub const QUESTIONS: &str = "third msg tx & second . & first sender origin => #caller#
third msg & second . & first value => #sent#
third block & second . & first timestamp number => #time#
could ( & alone & third msg block & second . => a transaction knows its own object and its parameters alone: ask for what it needs by a parameter.
could ) & alone & second in => a test asks for one state and stands alone: write `if (#third# in #first#)`, and another `if` inside it or after its `else`.
third ! & second ( & first #name & found in => for 'not in' take the `else`: `if (#first# in #next#) { } else { .. }`.
second ! & first #name & found in => for 'not in' take the `else`: `if (#first# in #next#) { } else { .. }`.
first #name & found not & next in => for 'not in' take the `else`: `if (#first# in #after#) { } else { .. }`.
could * & begin while & first #name & found in is => a `while` tests no state: take a `bool` as its condition, and set it in the block by `if (#first# in #next#) { .. } else { .. }`.
could in & first #name & found is & next not => for 'not in' take the `else`: `if (#first# in #after#) { } else { .. }`.
could in & first #name & found is => a state is tested by `in`: `if (#first# in #next#)`.
could * & first #name & found in is => a test of a state stands alone between the parentheses of an `if`: `if (#first# in #next#) { .. }`.
could * & first #other & found in => the state of a name is tested: put what stands before `in` into a local variable first.";
