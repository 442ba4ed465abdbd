//! The words of asks, operators, kinds and faults. Of a text that isn't one the answer may be any.

ghost use Rattle.std.specs.Prelude.{◌≡◌};
ghost use Rattle.trace_fields.specs.Words as words;

use caf_base::value::{AtomicOp, Kind};
use caf_events::fault::FaultKind;
use caf_events::round::GatherOp;

/// The first word of an ask at a memory.
#[derive(Clone, Copy)]
pub enum MemoryWord {
    Read,
    Write,
    Create,
    Delete,
    Atomic,
    Lock,
    TryLock,
    Unlock,
    Post,
    Wait,
    Query,
    Free,
    Mark,
}

/// The first word of an ask at the control board.
#[derive(Clone, Copy)]
pub enum BoardWord {
    Arrive,
    Leave,
    Gather,
    Take,
    Pair,
    Unpair,
    Enter,
    Exit,
    Gone,
    Stop,
    Failed,
    Stopped,
    Status,
}

/// The first word of a step of the image alone.
#[derive(Clone, Copy)]
pub enum OwnWord {
    Print,
    Memory,
    Fail,
    ErrorStop,
    Fault,
    Limit,
}

/// What an image brings to a round.
#[derive(Clone, Copy)]
pub(crate) enum RoundWord {
    Sync,
    Form,
    Change,
    End,
    Allocate,
    Deallocate,
}

/// What a limit is of.
#[derive(Clone, Copy)]
pub enum LimitWord {
    Statements,
    Words,
    Stamp,
}

/// The word of an ask at a memory.
pub fn memory_word(word: &[u8]) -> MemoryWord
    ensures { result ≡ words.memory_by word.now }
{
    if word == b"read".as_slice() {
        MemoryWord::Read
    } else if word == b"write".as_slice() {
        MemoryWord::Write
    } else if word == b"create".as_slice() {
        MemoryWord::Create
    } else if word == b"delete".as_slice() {
        MemoryWord::Delete
    } else if word == b"atomic".as_slice() {
        MemoryWord::Atomic
    } else if word == b"lock".as_slice() {
        MemoryWord::Lock
    } else {
        event_word(word)
    }
}

// The rest of them.
fn event_word(word: &[u8]) -> MemoryWord
    ensures { result ≡ words.event_by word.now }
{
    if word == b"trylock".as_slice() {
        MemoryWord::TryLock
    } else if word == b"unlock".as_slice() {
        MemoryWord::Unlock
    } else if word == b"post".as_slice() {
        MemoryWord::Post
    } else if word == b"wait".as_slice() {
        MemoryWord::Wait
    } else if word == b"query".as_slice() {
        MemoryWord::Query
    } else if word == b"free".as_slice() {
        MemoryWord::Free
    } else {
        MemoryWord::Mark
    }
}

/// The word of an ask at the control board.
pub fn board_word(word: &[u8]) -> BoardWord
    ensures { result ≡ words.board_by word.now }
{
    if word == b"arrive".as_slice() {
        BoardWord::Arrive
    } else if word == b"leave".as_slice() {
        BoardWord::Leave
    } else if word == b"gather".as_slice() {
        BoardWord::Gather
    } else if word == b"take".as_slice() {
        BoardWord::Take
    } else if word == b"pair".as_slice() {
        BoardWord::Pair
    } else if word == b"unpair".as_slice() {
        BoardWord::Unpair
    } else {
        control_word(word)
    }
}

// The rest of them.
fn control_word(word: &[u8]) -> BoardWord
    ensures { result ≡ words.control_by word.now }
{
    if word == b"enter".as_slice() {
        BoardWord::Enter
    } else if word == b"exit".as_slice() {
        BoardWord::Exit
    } else if word == b"gone".as_slice() {
        BoardWord::Gone
    } else if word == b"stop".as_slice() {
        BoardWord::Stop
    } else if word == b"failed".as_slice() {
        BoardWord::Failed
    } else if word == b"stopped".as_slice() {
        BoardWord::Stopped
    } else {
        BoardWord::Status
    }
}

/// The word of a step of the image alone.
pub fn own_word(word: &[u8]) -> OwnWord
    ensures { result ≡ words.own_by word.now }
{
    if word == b"print".as_slice() {
        OwnWord::Print
    } else if word == b"memory".as_slice() {
        OwnWord::Memory
    } else if word == b"fail".as_slice() {
        OwnWord::Fail
    } else if word == b"errorstop".as_slice() {
        OwnWord::ErrorStop
    } else if word == b"fault".as_slice() {
        OwnWord::Fault
    } else {
        OwnWord::Limit
    }
}

/// The word of an arrival.
pub(crate) fn round_word(word: &[u8]) -> RoundWord
    ensures { result ≡ words.round_by word.now }
{
    if word == b"sync".as_slice() {
        RoundWord::Sync
    } else if word == b"form".as_slice() {
        RoundWord::Form
    } else if word == b"change".as_slice() {
        RoundWord::Change
    } else if word == b"end".as_slice() {
        RoundWord::End
    } else if word == b"allocate".as_slice() {
        RoundWord::Allocate
    } else {
        RoundWord::Deallocate
    }
}

/// The word of a limit.
pub fn limit_word(word: &[u8]) -> LimitWord
    ensures { result ≡ words.limit_by word.now }
{
    if word == b"statements".as_slice() {
        LimitWord::Statements
    } else if word == b"words".as_slice() {
        LimitWord::Words
    } else {
        LimitWord::Stamp
    }
}

/// The atomic action with this name.
pub fn operator_named(word: &[u8]) -> AtomicOp
    ensures { result ≡ words.operator_by word.now }
{
    if word == b"define".as_slice() {
        AtomicOp::Define
    } else if word == b"ref".as_slice() {
        AtomicOp::Ref
    } else if word == b"add".as_slice() {
        AtomicOp::Add
    } else if word == b"and".as_slice() {
        AtomicOp::And
    } else if word == b"or".as_slice() {
        AtomicOp::Or
    } else if word == b"xor".as_slice() {
        AtomicOp::Xor
    } else {
        AtomicOp::Cas
    }
}

/// The collective operation with this name.
pub fn gather_named(word: &[u8]) -> GatherOp
    ensures { result ≡ words.gather_by word.now }
{
    if word == b"sum".as_slice() {
        GatherOp::Sum
    } else if word == b"min".as_slice() {
        GatherOp::Min
    } else if word == b"max".as_slice() {
        GatherOp::Max
    } else {
        GatherOp::Broadcast
    }
}

/// The kind with this name.
pub fn kind_named(word: &[u8]) -> Kind
    ensures { result ≡ words.kind_by word.now }
{
    if word == b"I4".as_slice() {
        Kind::I4
    } else if word == b"I8".as_slice() {
        Kind::I8
    } else {
        Kind::L4
    }
}

/// The run fault with this name.
pub fn fault_named(word: &[u8]) -> FaultKind
    ensures { result ≡ words.fault_by word.now }
{
    if word == b"Overflow".as_slice() {
        FaultKind::Overflow
    } else if word == b"DivideByZero".as_slice() {
        FaultKind::DivideByZero
    } else if word == b"Bounds".as_slice() {
        FaultKind::Bounds
    } else if word == b"ZeroStep".as_slice() {
        FaultKind::ZeroStep
    } else if word == b"CoBounds".as_slice() {
        FaultKind::CoBounds
    } else if word == b"NotAllocated".as_slice() {
        FaultKind::NotAllocated
    } else {
        further_fault(word)
    }
}

// The rest of them.
fn further_fault(word: &[u8]) -> FaultKind
    ensures { result ≡ words.further_fault_by word.now }
{
    if word == b"NotEstablished".as_slice() {
        FaultKind::NotEstablished
    } else if word == b"NoTeam".as_slice() {
        FaultKind::NoTeam
    } else if word == b"Cells".as_slice() {
        FaultKind::Cells
    } else if word == b"Depth".as_slice() {
        FaultKind::Depth
    } else if word == b"Room".as_slice() {
        FaultKind::Room
    } else if word == b"Shape".as_slice() {
        FaultKind::Shape
    } else {
        FaultKind::Format
    }
}
