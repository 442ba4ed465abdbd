//! The rules that a checked program keeps, 20 to 59, by the names under which docs/use/REFUSALS.md tells them, with the
//! sections of ISO/IEC 1539-1:2018 that they are of.

/// UnknownName (8.7, 14.2.2, 19.3).
pub const UNKNOWN_NAME: u8 = 20;
/// DeclaredTwice (19.3).
pub const DECLARED_TWICE: u8 = 21;
/// InitialValue (8.4, 8.5.13, 10.1.12).
pub const INITIAL_VALUE: u8 = 22;
/// Kind (7.4.3.1, 7.4.5).
pub const KIND: u8 = 23;
/// Rank (5.4.6, 5.4.7).
pub const RANK: u8 = 24;
/// Bound (8.5.6.3, 8.5.8.2).
pub const BOUND: u8 = 25;
/// DeferredShape (8.5.3, 8.5.6.2, 8.5.8.4).
pub const DEFERRED_SHAPE: u8 = 26;
/// SpecialType (16.10.2).
pub const SPECIAL_TYPE: u8 = 27;
/// InProcedure (8.4, 8.5.3, 8.5.6, 8.5.16).
pub const IN_PROCEDURE: u8 = 28;
/// Intent (8.5.10, 8.7).
pub const INTENT: u8 = 29;
/// TooManyCells (a limit of `caf`).
pub const TOO_MANY_CELLS: u8 = 30;
/// Operand (9.5.3, 9.6, 10.1.5).
pub const OPERAND: u8 = 31;
/// Assignment (8.5.10, 10.2.1.2, 11.1.7.4, 16.10.2).
pub const ASSIGNMENT: u8 = 32;
/// SubscriptCount (9.5.3, 9.6).
pub const SUBSCRIPT_COUNT: u8 = 33;
/// NoCoarray (9.6).
pub const NO_COARRAY: u8 = 34;
/// Specifier (9.6, 11.6.11).
pub const SPECIFIER: u8 = 35;
/// ResultVariable (9.7.4, 11.6.10, 11.6.11, 16.5).
pub const RESULT_VARIABLE: u8 = 36;
/// ArrayForScalar (10.2.1.2).
pub const ARRAY_FOR_SCALAR: u8 = 37;
/// ArrayAssignment (10.2.1.2).
pub const ARRAY_ASSIGNMENT: u8 = 38;
/// Condition (11.1.7.2, 11.1.8, 11.4).
pub const CONDITION: u8 = 39;
/// DoVariable (11.1.7.2).
pub const DO_VARIABLE: u8 = 40;
/// ConstructName (11.1.7.2, 11.1.7.4, 11.1.12, 14.1, 15.6.2).
pub const CONSTRUCT_NAME: u8 = 41;
/// LeavesConstruct (11.1.5, 11.1.6).
pub const LEAVES_CONSTRUCT: u8 = 42;
/// InCritical (11.1.6).
pub const IN_CRITICAL: u8 = 43;
/// CaseValue (11.1.9).
pub const CASE_VALUE: u8 = 44;
/// Argument (15.5.2).
pub const ARGUMENT: u8 = 45;
/// OutArgument (8.5.10, 15.5.2.4).
pub const OUT_ARGUMENT: u8 = 46;
/// ProcedureName (15.5.1).
pub const PROCEDURE_NAME: u8 = 47;
/// Lock (11.6.10).
pub const LOCK: u8 = 48;
/// Event (11.6.7, 11.6.8, 16.9.72).
pub const EVENT: u8 = 49;
/// CoindexedEvent (11.6.8, 16.9.72).
pub const COINDEXED_EVENT: u8 = 50;
/// Team (11.1.5, 11.6.6, 11.6.9).
pub const TEAM: u8 = 51;
/// ImageSet (11.6.4).
pub const IMAGE_SET: u8 = 52;
/// Atom (16.5).
pub const ATOM: u8 = 53;
/// CollectiveArgument (16.6).
pub const COLLECTIVE_ARGUMENT: u8 = 54;
/// Allocate (9.7.1, 9.7.3).
pub const ALLOCATE: u8 = 55;
/// ImageList (16.9.77).
pub const IMAGE_LIST: u8 = 56;
/// Format (13.3, 13.4).
pub const FORMAT: u8 = 57;
/// PrintedType (12.6.3).
pub const PRINTED_TYPE: u8 = 58;
/// IntrinsicArgument (16.2, 16.9).
pub const INTRINSIC_ARGUMENT: u8 = 59;
