// What a call answers: a fault, and with success a value; and 01's numbers R3, R4 and R5 for it.
#![tactic(auto)]

ghost use Rattle.std.specs.Prelude.{◌≡◌};
ghost use Rattle.answer.specs.Answer.{answer_of, bad_number, buffer_number, place_shown, with_place, told};

// What is wrong with an element.
#[derive(Clone, Copy)]
pub enum Bad {
    Id,
    Size,
    Value,
}

// Where an element stands: its array index, and the offset of its first byte.
#[derive(Clone, Copy)]
pub struct Place {
    pub index: usize,
    pub offset: usize,
}

// The two buffers that are registered for runs.
#[derive(Clone, Copy)]
pub enum RunBuffer {
    Input,
    Output,
}

// The rows of 01's table, in its order; 3 has a variant for each of its three causes. `Flag` holds the lowest-numbered bad bit, `Record`
// the byte offset of a bad call record, `Missing` the smallest missing ID.
#[derive(Clone, Copy)]
pub enum Fault {
    None,
    Store,
    Flag(u64),
    Guest,
    Token,
    Capability,
    Vcpu,
    Length,
    Element(Bad, Place),
    Room,
    Exists,
    Unregistered(RunBuffer),
    Short(RunBuffer),
    Exit,
    Effect(Place),
    Cache,
    Taken,
    Form,
    Records,
    Record(u64),
    Missing(u64),
    InUse,
}

// `value` is what a success tells; it is 0 where nothing is said, and in a refusal.
#[derive(Clone, Copy)]
pub struct Answer {
    pub fault: Fault,
    pub value: u64,
}

// Which entry point answers.
#[derive(Clone, Copy)]
pub enum Call {
    FreshStore,
    GetCapabilities,
    SetCapabilities,
    CreateGuest,
    CreateVcpu,
    GetState,
    SetState,
    RunVcpu,
    DeleteGuest,
    GuestClock,
    Convert,
    Lookup,
    Join,
    WriteRecord,
    JudgeOutput,
    CacheWrite,
    CacheRead,
    CacheRun,
}

// What R4 and R5 show of a place.
#[derive(Clone, Copy)]
pub struct Shown {
    pub r4: u64,
    pub r5: u64,
}

#[repr(C)]
#[derive(Clone, Copy)]
pub struct Registers {
    pub r3: u64,
    pub r4: u64,
    pub r5: u64,
}

// A success that tells a value.
pub fn success(value: u64) -> Answer
    ensures { result ≡ record { fault = Fault.None; value = value } }
{
    Answer {
        fault: Fault::None,
        value,
    }
}

pub fn refusal(fault: Fault) -> Answer
    ensures { result ≡ record { fault = fault; value = 0 } }
{
    Answer { fault, value: 0 }
}

// What a call tells or the fault that it met: inside a call tests are left by `?`, and its entry makes the answer.
impl From<Result<u64, Fault>> for Answer {
    ghost from_gives = { λ told a. a ≡ answer_of told };

    fn from(told: Result<u64, Fault>) -> Answer {
        match told {
            Ok(value) => success(value),
            Err(fault) => refusal(fault),
        }
    }
}

impl From<Bad> for u64 {
    ghost from_gives = { λ bad n. n ≡ bad_number bad };

    fn from(bad: Bad) -> u64 {
        match bad {
            Bad::Id => 6,
            Bad::Size => 7,
            Bad::Value => 8,
        }
    }
}

impl From<RunBuffer> for u64 {
    ghost from_gives = { λ buffer n. n ≡ buffer_number buffer };

    fn from(buffer: RunBuffer) -> u64 {
        match buffer {
            RunBuffer::Input => 0,
            RunBuffer::Output => 1,
        }
    }
}

// Which numbers of a place the call shows.
fn place_shown(c: Call, p: Place) -> Shown
    ensures { result ≡ place_shown c p }
{
    let index = p.index as u64;
    let offset = p.offset as u64;
    let index_first = Shown {
        r4: index,
        r5: offset,
    };
    let offset_first = Shown {
        r4: offset,
        r5: index,
    };
    let no_place = Shown { r4: 0, r5: 0 };
    match c {
        Call::GetState | Call::SetState | Call::Lookup | Call::Join | Call::JudgeOutput =>
            index_first,
        Call::RunVcpu | Call::CacheRun => offset_first,
        _ => no_place,
    }
}

fn three(r3: u64, r4: u64, r5: u64) -> Registers
    ensures { result ≡ record { r3 = r3; r4 = r4; r5 = r5 } }
{
    Registers { r3, r4, r5 }
}

fn with_place(r3: u64, place: Shown) -> Registers
    ensures { result ≡ with_place r3 place }
{
    three(r3, place.r4, place.r5)
}

// 01's three numbers for an answer.
pub fn registers_of(c: Call, a: Answer) -> Registers
    ensures { result ≡ told c a.fault a.value }
{
    match a.fault {
        Fault::None => three(0, a.value, 0),
        Fault::Store => three(1, 0, 0),
        Fault::Flag(bit) => three(2, bit, 0),
        Fault::Guest | Fault::Token => three(3, 0, 0),
        Fault::Capability => three(3, 1, 0),
        Fault::Vcpu => three(4, 0, 0),
        Fault::Length => three(5, 0, 0),
        Fault::Element(bad, place) => with_place(u64::from(bad), place_shown(c, place)),
        Fault::Room => three(9, 0, 0),
        Fault::Exists => three(10, 0, 0),
        Fault::Unregistered(buffer) => three(11, u64::from(buffer), 0),
        Fault::Short(buffer) => three(12, u64::from(buffer), 0),
        Fault::Exit => three(13, 0, 0),
        Fault::Effect(place) => with_place(14, place_shown(c, place)),
        Fault::Cache => three(15, 0, 0),
        Fault::Taken => three(16, 0, 0),
        Fault::Form => three(17, 0, 0),
        Fault::Records => three(18, 0, 0),
        Fault::Record(offset) => three(19, offset, 0),
        Fault::Missing(id) => three(20, id, 0),
        Fault::InUse => three(21, 0, 0),
    }
}
