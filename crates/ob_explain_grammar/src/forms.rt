//! What is said of a form that the language doesn't have, or that is written otherwise: rules, as rules.rt says.

/// In statements and expressions.
pub const IN_BODIES: &str =
    "joined & first #number & found #name => numbers are written in decimal digits#decimal#.
found . & next #number => #fractions#
could @ & begin [ & found ] => an assertion says what is held: `[#first# @ Owned];`.
first int bool string & found [ => #arrays#
level body & begin [ & first [ => an assertion says what is held of a name: `[x @ Owned];`.
level member state body & first [ & found ] #number => #arrays#
named contract interface & second [ & found ] => a type argument has a permission: write `#third#[#first#@Owned]`, or with another permission.
typed contract interface & second [ & found ] => a type argument has a permission: write `#third#[#first#@Owned]`, or with another permission. There are no arrays.
level program & named contract interface & found < => a type parameter stands in brackets, with a name for its permission: write `#first#[T@s]`.
named contract interface & found < => type arguments stand in brackets, each with a permission: write `#first#[#next#@Owned]`.
first [ & found int bool string => a type argument is a contract or an interface, with a permission: an object can hold the value in a field.
level program & second [ asset & found ] => a type parameter has a name for its permission too: write `#first#@s`.
level program & first @ & found Owned Shared Unowned => a name for the permission stands here, and what it may be behind `where`: write `#second#@s where s is #found#`.
level program & found is => a bound begins with `where`: write `where #first# is #next#`.
level program & first is & found #name => a bound is `Owned`, `Shared` or `Unowned`: `Owned` takes states too.
level program & second is & found | => a bound is one of `Owned`, `Shared` and `Unowned`: `Owned` takes states too.
begin [ & could ] & found , => an assertion is of one name: each stands in brackets of its own.
could ] & found , => there is one type parameter, and one argument for it: a contract of its own can hold both.
second transaction & found [ => a transaction has no type parameter of its own: its contract has one.
level body & first ] & found @ => leave the permission behind the brackets out: that of a local variable follows from its use, and that of a new object from its constructor.
level member state body & second [ & found ] => #arrays#
could * & found [ => #arrays#
could true & found [ => #arrays#
second @ & found [ => #arrays#
first new & next [ => #arrays#
begin return & found , => #results#
could ; & level body & begin int bool string & found , => each variable has a statement of its own: `#begin# #next# = ..;`.
could ; & alone & first ) & found { => a call ends with `;`.
could :: & found + - * / % && || & next = => write `#first# = #first# #found# ..;`: there is no `#found#=`.
could :: & found + & next + => write `#first# = #first# + 1;`: there is no `++`.
could :: & found - & next - => write `#first# = #first# - 1;`: there is no `--`.
joined & second #name & first + & found + => write `#second# = #second# + 1;` as a statement of its own: there is no `++`.
third #name & second - & first - & found ; , ) => write `#third# = #third# - 1;` as a statement of its own: there is no `--`.
could :: & found @ => leave the permission out: what a local variable holds follows from its use. Write `#first# x = ..;`.
second new & found @ => leave the permission out: the constructor says what is held of a new object. Write `new #first#(..)`.
could :: & named state & found ; } => a change of state is written `->#first#;`.
could :: & named transaction & found ; } => a call has parentheses: `#first#();`.
could :: & found ; } => a name alone is no statement: assign to it, as in `#first# = ..;`.
could = & alone & second ( , & found ) , => a field of the new state is given by its name, as in `f = #first#`.
second :: & found ; => a field of another state gets a value: `#third#::#first# = ..;`.
could = & alone & second #name & found ; => a local variable gets its value where it is declared: `#second# #first# = ..;`.
could ( & alone & third this self & second . => after a dot stands a call; a field of `this` is written by its name alone: `#first#`.
could ( & alone & second . => another object's fields aren't visible: call a transaction of it that returns `#first#`.
first #string & found . => a string has no transactions and no length: it is compared by `==` and `!=` alone.
could * & found . => a call is made on a name: put what stands before the dot into a local variable first.
first ) & found . => a call is made on a name: put what stands before the dot into a local variable first.
second = & first #name & found = => a statement assigns once: write `#first# = ..;`, and then `#third# = #first#;`.
first == != & found = => two values are compared by `#first#`: there is no `#first#=`.
could * & found = => `==` compares two values, and `=` assigns.
could && & could_not < & found < <= > >= => comparisons are joined by `&&`, as in `0 < n && n < 9`.
could && & could_not == & found == != => one of the two comparisons stands in parentheses, as in `(a == b) == c`.";

/// In heads, types and members.
pub const IN_MEMBERS: &str =
    "could int & could_not true & begin transaction private & first ( & found this => write `#own#@S this`, where S is a state of `#own#`, or `Owned`, `Shared` or `Unowned`.
could int & could_not true & begin transaction private & first , & found this => `this` is the first parameter, with a type: write `#own#@S this`, where S is a state of `#own#`, or `Owned`, `Shared` or `Unowned`.
could int & could_not true & level member & first ( , & found this => a constructor has no `this`: leave it out.
could @ & first self & found ) , => the contract's own object is `this`: write `#own#@S this`, where S is a state of `#own#`, or `Owned`, `Shared` or `Unowned`.
first transaction & found int bool string => the type of the result comes last: `transaction #next#(..) returns #found#`.
first returns & found ( => #results#
could { & level member & begin transaction private & found , => #results#
could available & second int bool string & found , => each field is declared by itself: `#second# #first#; #second# #next#;`.
could available & found , => each field is declared by itself, with its type.
first int bool string & found @ => a value has no permission: leave `@` and what stands behind it out.
could @ & named contract interface & found ) , => a parameter is a type with what is held, and a name: `#first#@Owned x`.
could @ & found ) , => a parameter is a type and a name: `int #first#`, or with a permission `C@Owned #first#`.
could available & second int bool string & found ( => a transaction begins with its word, and its result comes last: `transaction #first#(..) returns #second#`.
could available & third @ & found ( => a transaction begins with its word, and its result comes last: `transaction #first#(..) returns #begin#@#second#`.
could available & found ( => a transaction begins with its word, and its result comes last, behind `returns`: `transaction #first#(..)`.
could @ & first #other => a type of references has a permission after `@`.
could @ & first #own & found ( => a constructor names what it gives, as `#first#@Owned(..)` or `#first#@S(..)` with a state S; any other begins with `transaction`.
could @ & level member & found ( => a transaction begins with its word: `transaction #first#(..)`.
could @ & level member & named contract interface & found #name & next ( => a transaction begins with its word, and its result comes last: `transaction #found#(..) returns #first#@Owned`.
could @ & level member & begin #name & second } ; { & found #name & next ( => a transaction begins with its word: `transaction #found#(..)`.
could @ & found #name ; ) , { => a type of references has a permission: `#first#@Owned`, `#first#@Shared`, `#first#@Unowned`, or states of #first# as in `#first#@S|T`.
could available & found = => a field gets its first value in the constructor: `#first# = ..;` there.
could x & could_not if state true & found #name => `#found#` is a word of the language, and can't be a name.
could returns & found #name -> : => the type of the result stands after `returns`, as in `returns int`.";
