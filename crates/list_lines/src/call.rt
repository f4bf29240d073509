// The calls of a list by their numbers, each with its arguments as the port takes them; oracle/README.md has the table.
ghost use Rattle.std.specs.Prelude.{◌≡◌, ◌≤◌, ◌<◌, ◌%◌, ◌↔◌, IsSome, IsErr, slice_index};

use machine_types::{PixelPlace, PlaneOffset};
use std::fmt;

#[derive(Clone, Copy)]
pub enum Call {
    Digest,
    Vram(VramCall),
    Sequencer(SequencerCall),
    Direct(DirectCall),
    Graphics(GraphicsCall),
    Cpu(CpuCall),
    Set(Setting),
}

// On memory alone: a plane, an offset and a byte; an offset; a place.
#[derive(Clone, Copy)]
pub enum VramCall {
    ReadU8(usize, PlaneOffset),
    PeekU8(usize, PlaneOffset),
    ReadGlyph(PlaneOffset),
    ReadLinear(PixelPlace),
    SerializeLinear(PlaneOffset),
    WriteU8(usize, PlaneOffset, u8),
    PlaneSet(usize, PlaneOffset, u8),
    PlaneAnd(usize, PlaneOffset, u8),
    PlaneOr(usize, PlaneOffset, u8),
    Deplane(PlaneOffset),
}

// On the sequencer's record.
#[derive(Clone, Copy)]
pub enum SequencerCall {
    Reset,
    Clock,
    SetClockChangePending,
    PollClockChange,
    ReadAddress,
    ReadData,
    WriteAddress(u8),
    WriteData(u8),
}

// The sequencer's on memory: a plane, an offset, a0 and a byte; a place; an offset.
#[derive(Clone, Copy)]
pub enum DirectCall {
    CpuReadU8(usize, PlaneOffset, bool),
    PeekU8(usize, PlaneOffset, bool),
    GcReadU8(usize, PlaneOffset, bool),
    ReadLinear(PixelPlace),
    SerializeLinear(PlaneOffset),
    PlaneSet(usize, PlaneOffset, bool, u8),
    PlaneAnd(usize, PlaneOffset, bool, u8),
    PlaneOr(usize, PlaneOffset, bool, u8),
}

// On the controller's record; an address is mapped with its page.
#[derive(Clone, Copy)]
pub enum GraphicsCall {
    Reset,
    Chain,
    Chain4,
    MemoryMap,
    OddEven,
    ShiftMode,
    ReadAddress,
    ReadData,
    WriteAddress(u8),
    WriteData(u8),
    MapAddress(usize, bool),
}

// The controller's on memory: an address, its page and a byte; an offset.
#[derive(Clone, Copy)]
pub enum CpuCall {
    CpuReadU8(usize, bool),
    CpuPeekU8(usize, bool),
    CpuWriteU8(usize, bool, u8),
    Serialize(PlaneOffset),
    ShowPixels(PlaneOffset),
}

// What no port reaches: a field and its value, of the controller's record or of the sequencer's; which slice, a place in it and a byte; which slice, and how much of it is lent.
#[derive(Clone, Copy)]
pub enum Setting {
    Controller(usize, usize),
    Sequencer(usize, usize),
    Byte(usize, usize, u8),
    Length(usize, usize),
}

// Why a line is no call.
#[derive(Clone, Copy)]
pub enum NoCall {
    // no operation has its number
    Unknown,
    // it has more numbers than a call
    Overlong,
}

impl fmt::Display for NoCall {
    fn fmt<W: fmt::Write>(&self, f: &mut fmt::Formatter<W>) -> fmt::Result {
        f.write_str(match self {
            NoCall::Unknown => "unknown",
            NoCall::Overlong => "overlong",
        })
    }
}

// An operation's number and its arguments; those that are left out are 0.
impl TryFrom<[usize; 5]> for Call {
    type Error = NoCall;

    // The operations are 0 to 46.
    ghost try_from_gives = { λ numbers call. IsErr call ↔ (46 < slice_index numbers 0) };

    fn try_from(numbers: [usize; 5]) -> Result<Call, NoCall> {
        let digest = (numbers[0] == 0).then_some(Call::Digest);
        digest
            .or_else(|| vram_call(numbers).map(Call::Vram))
            .or_else(|| sequencer_call(numbers).map(Call::Sequencer))
            .or_else(|| direct_call(numbers).map(Call::Direct))
            .or_else(|| graphics_call(numbers).map(Call::Graphics))
            .or_else(|| cpu_call(numbers).map(Call::Cpu))
            .or_else(|| setting_call(numbers).map(Call::Set))
            .ok_or(NoCall::Unknown)
    }
}

fn vram_call(numbers: [usize; 5]) -> Option<VramCall>
    ensures { IsSome result ↔ ((1 ≤ slice_index numbers 0) × (slice_index numbers 0 ≤ 10)) }
{
    let [operation, first, second, third, _] = numbers;
    let at = PlaneOffset(second);
    let byte = low_byte(third);
    Some(match operation {
        1 => VramCall::ReadU8(first, at),
        2 => VramCall::PeekU8(first, at),
        3 => VramCall::ReadGlyph(PlaneOffset(first)),
        4 => VramCall::ReadLinear(PixelPlace(first)),
        5 => VramCall::SerializeLinear(PlaneOffset(first)),
        6 => VramCall::WriteU8(first, at, byte),
        7 => VramCall::PlaneSet(first, at, byte),
        8 => VramCall::PlaneAnd(first, at, byte),
        9 => VramCall::PlaneOr(first, at, byte),
        10 => VramCall::Deplane(PlaneOffset(first)),
        _ => return None,
    })
}

fn sequencer_call(numbers: [usize; 5]) -> Option<SequencerCall>
    ensures { IsSome result ↔ ((11 ≤ slice_index numbers 0) × (slice_index numbers 0 ≤ 18)) }
{
    let [operation, first, ..] = numbers;
    let byte = low_byte(first);
    Some(match operation {
        11 => SequencerCall::Reset,
        12 => SequencerCall::Clock,
        13 => SequencerCall::SetClockChangePending,
        14 => SequencerCall::PollClockChange,
        15 => SequencerCall::ReadAddress,
        16 => SequencerCall::ReadData,
        17 => SequencerCall::WriteAddress(byte),
        18 => SequencerCall::WriteData(byte),
        _ => return None,
    })
}

fn direct_call(numbers: [usize; 5]) -> Option<DirectCall>
    ensures { IsSome result ↔ ((19 ≤ slice_index numbers 0) × (slice_index numbers 0 ≤ 26)) }
{
    let [operation, first, second, third, fourth] = numbers;
    let at = PlaneOffset(second);
    let a0 = third == 1;
    let byte = low_byte(fourth);
    Some(match operation {
        19 => DirectCall::CpuReadU8(first, at, a0),
        20 => DirectCall::PeekU8(first, at, a0),
        21 => DirectCall::GcReadU8(first, at, a0),
        22 => DirectCall::ReadLinear(PixelPlace(first)),
        23 => DirectCall::SerializeLinear(PlaneOffset(first)),
        24 => DirectCall::PlaneSet(first, at, a0, byte),
        25 => DirectCall::PlaneAnd(first, at, a0, byte),
        26 => DirectCall::PlaneOr(first, at, a0, byte),
        _ => return None,
    })
}

fn graphics_call(numbers: [usize; 5]) -> Option<GraphicsCall>
    ensures { IsSome result ↔ ((27 ≤ slice_index numbers 0) × (slice_index numbers 0 ≤ 37)) }
{
    let [operation, first, second, ..] = numbers;
    let byte = low_byte(first);
    Some(match operation {
        27 => GraphicsCall::Reset,
        28 => GraphicsCall::Chain,
        29 => GraphicsCall::Chain4,
        30 => GraphicsCall::MemoryMap,
        31 => GraphicsCall::OddEven,
        32 => GraphicsCall::ShiftMode,
        33 => GraphicsCall::ReadAddress,
        34 => GraphicsCall::ReadData,
        35 => GraphicsCall::WriteAddress(byte),
        36 => GraphicsCall::WriteData(byte),
        37 => GraphicsCall::MapAddress(first, second == 1),
        _ => return None,
    })
}

fn cpu_call(numbers: [usize; 5]) -> Option<CpuCall>
    ensures low { (38 ≤ slice_index numbers 0) × (slice_index numbers 0 ≤ 41) → IsSome result }
    ensures last { slice_index numbers 0 ≡ 46 → IsSome result }
    ensures no_more { IsSome result → (38 ≤ slice_index numbers 0) × (slice_index numbers 0 ≤ 46) }
{
    let [operation, first, second, third, _] = numbers;
    let page = second == 1;
    Some(match operation {
        38 => CpuCall::CpuReadU8(first, page),
        39 => CpuCall::CpuPeekU8(first, page),
        40 => CpuCall::CpuWriteU8(first, page, low_byte(third)),
        41 => CpuCall::Serialize(PlaneOffset(first)),
        46 => CpuCall::ShowPixels(PlaneOffset(first)),
        _ => return None,
    })
}

fn setting_call(numbers: [usize; 5]) -> Option<Setting>
    ensures { IsSome result ↔ ((42 ≤ slice_index numbers 0) × (slice_index numbers 0 ≤ 45)) }
{
    let [operation, first, second, third, _] = numbers;
    Some(match operation {
        42 => Setting::Controller(first, second),
        43 => Setting::Sequencer(first, second),
        44 => Setting::Byte(first, second, low_byte(third)),
        45 => Setting::Length(first, second),
        _ => return None,
    })
}

// A number as a byte: its low eight bits.
pub fn low_byte(number: usize) -> u8
    ensures { result ≡ number % 256 }
{
    (number % 256) as u8
}
