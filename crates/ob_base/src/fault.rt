//! Faults of a program's text, and where they stand.
ghost use Rattle.std.specs.Prelude.{◌≡◌};
ghost use Rattle.ob_base.specs.Faults.{fault_name};

/// A stretch of a program's text.
#[derive(Clone, Copy, PartialEq, Eq, Debug)]
pub struct Span {
    /// The number of bytes before it.
    pub start: u32,
    /// The number of bytes up to its end.
    pub end: u32,
    /// The line on which it begins, from 1.
    pub line: u32,
    /// The place on that line, in characters, from 1.
    pub column: u32,
}

/// Why a text is no program: the fault's number and the place where it stands.
#[derive(Clone, Copy, PartialEq, Eq)]
pub struct ProgramFault {
    /// Which fault it is: one of the numbers below.
    pub number: u16,
    /// Where it stands in the text.
    pub span: Span,
}

/// The text isn't UTF-8.
pub const NOT_UTF8: u16 = 101;
/// No token begins with this character.
pub const BAD_CHARACTER: u16 = 102;
/// A comment `/*` without `*/`.
pub const OPEN_COMMENT: u16 = 103;
/// A string without its closing quote on the same line.
pub const OPEN_STRING: u16 = 104;
/// A number above 2^63 - 1.
pub const BIG_NUMBER: u16 = 105;
/// A name of more than 64 bytes.
pub const LONG_NAME: u16 = 106;
/// A string of more than 1,024 bytes.
pub const LONG_STRING: u16 = 107;
/// A backslash in a string that begins no escape.
pub const BAD_ESCAPE: u16 = 108;
/// A text of more than 1,048,576 bytes.
pub const LONG_PROGRAM: u16 = 109;
/// Another token was expected, or one more.
pub const EXPECTED: u16 = 201;
/// Parts are nested too deep.
pub const TOO_DEEP: u16 = 202;
/// The name denotes nothing that is visible.
pub const UNKNOWN_NAME: u16 = 301;
/// A second thing of one name.
pub const DUPLICATE: u16 = 302;
/// The name denotes a thing of another kind.
pub const WRONG_KIND: u16 = 303;
/// The contract has no such state.
pub const NO_STATE: u16 = 304;
/// The contract has no such field.
pub const NOT_FIELD: u16 = 305;
/// A value of another type is needed.
pub const TYPE_MISMATCH: u16 = 306;
/// Another number of arguments is needed.
pub const ARG_COUNT: u16 = 307;
/// What is held at the end doesn't go with what was held at the start.
pub const BAD_EXIT: u16 = 308;
/// A contract that is no asset owns one.
pub const NON_ASSET_OWNER: u16 = 309;
/// The contract doesn't have what its interface asks.
pub const INTERFACE_MISMATCH: u16 = 310;
/// A number passes its limit.
pub const LIMIT: u16 = 311;
/// The end of a transaction with a result can be reached.
pub const MISSING_RETURN: u16 = 312;
/// A statement that is never reached.
pub const UNREACHABLE: u16 = 313;
/// A second main contract.
pub const TWO_MAINS: u16 = 314;
/// A parameter is assigned.
pub const ASSIGN_PARAMETER: u16 = 315;
/// The argument isn't one that the parameter takes.
pub const BOUND: u16 = 321;
/// Too many instances of generic contracts, or one of too long a name.
pub const TOO_MANY_INSTANCES: u16 = 322;
/// An argument is missing, or stands where none is taken.
pub const PARAM_COUNT: u16 = 323;
/// The reference doesn't own its object.
pub const NOT_OWNING: u16 = 401;
/// The object may be in another state.
pub const WRONG_STATE: u16 = 402;
/// A shared reference is wanted, and this one is Unowned.
pub const NOT_SHARED: u16 = 403;
/// An asset would be lost.
pub const ASSET_LOST: u16 = 404;
/// An asset would be overwritten.
pub const ASSET_OVERWRITTEN: u16 = 405;
/// An asset is kept by one branch and not by the other.
pub const BRANCH_LOSES: u16 = 406;
/// What is held of `this` differs between branches.
pub const THIS_DIFFERS: u16 = 407;
/// The field may not be there in this state.
pub const NOT_ACCESSIBLE: u16 = 408;
/// The field isn't as it is declared.
pub const FIELD_MISMATCH: u16 = 409;
/// A place has no value where one is needed.
pub const UNSET: u16 = 410;
/// What is held at the end isn't what was promised.
pub const EXIT_MISMATCH: u16 = 411;
/// The state of an unowned reference is tested.
pub const TEST_UNOWNED: u16 = 412;
/// What is under test is tested again.
pub const TEST_TWICE: u16 = 413;
/// What is under test would be handed on or changed.
pub const UNDER_TEST: u16 = 414;
/// What is changed is of an Unowned `this`.
pub const VIEW_CHANGES: u16 = 415;
/// A reference is used twice where one use takes it, `this` would own itself by a field, or a field is lent to a call on `this`.
pub const USED_TWICE: u16 = 416;
/// A constructor uses `this`.
pub const THIS_IN_CONSTRUCTOR: u16 = 417;
/// What is asserted isn't so.
pub const ASSERT_FAILS: u16 = 418;
/// A staged field without its change of state after it.
pub const BAD_TRANSITION: u16 = 419;
/// A loop changes what is held.
pub const LOOP_CHANGES: u16 = 420;

/// The name of a fault, by its number. It is empty for a number that no fault has.
pub fn fault_name(number: u16) -> &'static str
    ensures { result.now ≡ fault_name number }
{
    match number {
        NOT_UTF8 => "NotUtf8",
        BAD_CHARACTER => "BadCharacter",
        OPEN_COMMENT => "OpenComment",
        OPEN_STRING => "OpenString",
        BIG_NUMBER => "BigNumber",
        LONG_NAME => "LongName",
        LONG_STRING => "LongString",
        BAD_ESCAPE => "BadEscape",
        LONG_PROGRAM => "LongProgram",
        EXPECTED => "Expected",
        TOO_DEEP => "TooDeep",
        UNKNOWN_NAME => "UnknownName",
        DUPLICATE => "Duplicate",
        WRONG_KIND => "WrongKind",
        NO_STATE => "NoState",
        NOT_FIELD => "NotField",
        TYPE_MISMATCH => "TypeMismatch",
        ARG_COUNT => "ArgCount",
        BAD_EXIT => "BadExit",
        NON_ASSET_OWNER => "NonAssetOwner",
        INTERFACE_MISMATCH => "InterfaceMismatch",
        LIMIT => "Limit",
        MISSING_RETURN => "MissingReturn",
        UNREACHABLE => "Unreachable",
        TWO_MAINS => "TwoMains",
        ASSIGN_PARAMETER => "AssignParameter",
        BOUND => "Bound",
        TOO_MANY_INSTANCES => "TooManyInstances",
        PARAM_COUNT => "ParamCount",
        NOT_OWNING => "NotOwning",
        WRONG_STATE => "WrongState",
        NOT_SHARED => "NotShared",
        ASSET_LOST => "AssetLost",
        ASSET_OVERWRITTEN => "AssetOverwritten",
        BRANCH_LOSES => "BranchLoses",
        THIS_DIFFERS => "ThisDiffers",
        NOT_ACCESSIBLE => "NotAccessible",
        FIELD_MISMATCH => "FieldMismatch",
        UNSET => "Unset",
        EXIT_MISMATCH => "ExitMismatch",
        TEST_UNOWNED => "TestUnowned",
        TEST_TWICE => "TestTwice",
        UNDER_TEST => "UnderTest",
        VIEW_CHANGES => "ViewChanges",
        USED_TWICE => "UsedTwice",
        THIS_IN_CONSTRUCTOR => "ThisInConstructor",
        ASSERT_FAILS => "AssertFails",
        BAD_TRANSITION => "BadTransition",
        LOOP_CHANGES => "LoopChanges",
        _ => "",
    }
}
