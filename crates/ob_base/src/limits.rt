//! How much of each thing there may be (this project's own).
ghost use Rattle.std.specs.Prelude.{◌≡◌};
ghost use Rattle.ob_base.specs.Limits.{longest_name, longest_string, longest_program, most_open, most_contracts, most_states, most_fields, most_transactions, most_params, most_slots, most_weight, most_instances, most_noted, most_copied, most_walked, most_objects, most_handles, longest_line, most_requests, most_taken};
ghost use Rattle.ob_base.specs.Limits.{area_bytes, most_fuel, default_fuel, most_lanes, default_lanes, most_slice, default_slice, longest_trial};

/// The most bytes of a name or a label.
pub const LONGEST_NAME: usize = 64;

/// The most bytes of a value of the type `string`.
pub const LONGEST_STRING: usize = 1024;

/// The most bytes of a program's text.
pub const LONGEST_PROGRAM: usize = 1_048_576;

/// The most parts of a program that may be open inside one another.
pub const MOST_OPEN: u8 = 64;

/// The most contracts and interfaces of a program.
pub const MOST_CONTRACTS: usize = 1024;

/// The most states of a contract.
pub const MOST_STATES: usize = 32;

/// The most fields of a contract, those inside its states too.
pub const MOST_FIELDS: usize = 64;

/// The most transactions of a contract, without the constructor.
pub const MOST_TRANSACTIONS: usize = 256;

/// The most parameters of a transaction or constructor, beside `this`.
pub const MOST_PARAMS: usize = 16;

/// The most slots of a body, that of `this` among them.
pub const MOST_SLOTS: u8 = 128;

/// The most that a program may weigh, in bytes, and so the most bytes of its image.
pub const MOST_WEIGHT: usize = 16_777_216;

/// The most instances of a program.
pub const MOST_INSTANCES: usize = 256;

/// So many instances are noted: one more shows that there are too many.
pub const MOST_NOTED: usize = MOST_INSTANCES + 1;

/// The most bytes of text that the tree of the instances may be made of: four times the longest program.
pub const MOST_COPIED: usize = 4_194_304;

/// The most bytes of text in which types are looked for, instance by instance: more than a tree may be made of, so that a
/// program with a fault of types gets it, as one that needs ever more instances.
pub const MOST_WALKED: usize = 62_914_560;

/// The most objects of a store.
pub const MOST_OBJECTS: usize = 1_048_576;

/// The most handles of a store, of all clients together.
pub const MOST_HANDLES: usize = 65_536;

/// The most bytes of a line that is taken up, without its newline.
pub const LONGEST_LINE: usize = 65_536;

/// The most requests of a batch.
pub const MOST_REQUESTS: usize = 64;

/// The most bytes that are taken of an input.
pub const MOST_TAKEN: u64 = 1 << 40;

/// How many bytes each of the two areas of a store has on a disk.
pub const AREA_BYTES: u64 = 67_108_864;

/// The most units of fuel that a request may be given. The least of each setting is 1.
pub const MOST_FUEL: u32 = 200_000;

/// The units of fuel that a request has where none are given.
pub const DEFAULT_FUEL: u32 = 100_000;

/// The most lanes.
pub const MOST_LANES: u32 = 8;

/// The lanes where none are given.
pub const DEFAULT_LANES: u32 = 1;

/// The most units of a slice.
pub const MOST_SLICE: u32 = 1_000_000;

/// The units of a slice where none are given.
pub const DEFAULT_SLICE: u32 = 1_000;

/// The greatest length of a trial.
pub const LONGEST_TRIAL: u32 = 20_000;

/// Each limit of the code is that of the definitions.
pub fn limits_are_defined()
    ensures name { LONGEST_NAME ≡ longest_name }
    ensures string { LONGEST_STRING ≡ longest_string }
    ensures program { LONGEST_PROGRAM ≡ longest_program }
    ensures open_parts { MOST_OPEN ≡ most_open }
    ensures contracts { MOST_CONTRACTS ≡ most_contracts }
    ensures states { MOST_STATES ≡ most_states }
    ensures fields { MOST_FIELDS ≡ most_fields }
    ensures transactions { MOST_TRANSACTIONS ≡ most_transactions }
    ensures params { MOST_PARAMS ≡ most_params }
    ensures slots { MOST_SLOTS ≡ most_slots }
    ensures weight { MOST_WEIGHT ≡ most_weight }
    ensures instances { MOST_INSTANCES ≡ most_instances }
    ensures noted { MOST_NOTED ≡ most_noted }
    ensures copied { MOST_COPIED ≡ most_copied }
    ensures walked { MOST_WALKED ≡ most_walked }
    ensures objects { MOST_OBJECTS ≡ most_objects }
    ensures handles { MOST_HANDLES ≡ most_handles }
    ensures line { LONGEST_LINE ≡ longest_line }
    ensures requests { MOST_REQUESTS ≡ most_requests }
    ensures taken { MOST_TAKEN ≡ most_taken }
    ensures area { AREA_BYTES ≡ area_bytes }
    ensures fuel { MOST_FUEL ≡ most_fuel }
    ensures no_fuel { DEFAULT_FUEL ≡ default_fuel }
    ensures lanes { MOST_LANES ≡ most_lanes }
    ensures no_lanes { DEFAULT_LANES ≡ default_lanes }
    ensures slice { MOST_SLICE ≡ most_slice }
    ensures no_slice { DEFAULT_SLICE ≡ default_slice }
    ensures trial { LONGEST_TRIAL ≡ longest_trial }
{}
