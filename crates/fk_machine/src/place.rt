//! The places that addresses name.

ghost use Rattle.std.specs.Prelude.{◌≡◌, ◌+◌, ◌-◌, ◌*◌, ◌/◌, ◌<◌, ◌^◌, if◌then◌else◌};
ghost use Rattle.fk_machine.specs.Place.{is_in, place_of, device_at};
ghost use Rattle.fk_machine.specs.Fits.{IsInMachine};

/// The address of the first word of shared data.
pub const SHARED_START: u32 = 0x1000_0000;

/// The number of words of shared data.
pub const SHARED_WORDS: u32 = 1 << 20;

/// The address of the first word of shared control.
pub const CONTROL_START: u32 = 0x1800_0000;

/// The number of words of shared control.
pub const CONTROL_WORDS: u32 = (1 << 20) + 64;

/// The address of the first word of each hart's local memory.
pub const LOCAL_START: u32 = 0x2000_0000;

/// The number of words of a hart's local memory.
pub const LOCAL_WORDS: u32 = 32768;

/// A device: one word of the map that is no memory.
#[derive(Clone, Copy)]
pub enum Device {
    /// A store prints the word as a signed decimal and a newline.
    OutInt,
    /// A store prints the low byte.
    OutChar,
    /// A store ends the machine with the word as its site.
    Fault,
    /// A store ends this hart.
    Halt,
    /// A load gives the cycles finished before this one.
    Cycle,
    /// A load gives the hart's number.
    HartId,
    /// A load gives the number of harts.
    Harts,
    /// A load gives the number of input numbers.
    Inputs,
}

/// The place that an address names. A word of a memory is given by its index.
#[derive(Clone, Copy)]
pub enum Location {
    SharedWord(u32),
    ControlWord(u32),
    LocalWord(u32),
    DeviceWord(Device),
    /// Outside the map, or code.
    Nowhere,
}

// The index of an address in a memory of `words` words from `start` on, if it is there.
fn index_in(address: u32, start: u32, words: u32) -> Option<u32>
    requires { start + 4 * words < 2 ^ 32 }
    ensures { result ≡ (if is_in address start words then Some ((address - start) / 4) else None) }
{
    if start <= address && address < start + 4 * words {
        Some((address - start) / 4)
    } else {
        None
    }
}

/// The place that an address names.
#[tactic(auto, unfolding(crate::specs::Place::place_of))]
pub fn place_at(address: u32) -> Location
    ensures place { result ≡ place_of address }
    ensures within { IsInMachine result }
{
    if let Some(index) = index_in(address, LOCAL_START, LOCAL_WORDS) {
        Location::LocalWord(index)
    } else if let Some(index) = index_in(address, SHARED_START, SHARED_WORDS) {
        Location::SharedWord(index)
    } else if let Some(index) = index_in(address, CONTROL_START, CONTROL_WORDS) {
        Location::ControlWord(index)
    } else {
        device_at(address)
    }
}

#[tactic(auto, unfolding(crate::specs::Place::device_at))]
fn device_at(address: u32) -> Location
    ensures place { result ≡ device_at address }
    ensures within { IsInMachine result }
{
    match address {
        0x3000_0000 => Location::DeviceWord(Device::OutInt),
        0x3000_0004 => Location::DeviceWord(Device::OutChar),
        0x3000_0008 => Location::DeviceWord(Device::Fault),
        0x3000_000c => Location::DeviceWord(Device::Halt),
        0x3000_0010 => Location::DeviceWord(Device::Cycle),
        0x3000_0014 => Location::DeviceWord(Device::HartId),
        0x3000_0018 => Location::DeviceWord(Device::Harts),
        0x3000_001c => Location::DeviceWord(Device::Inputs),
        _ => Location::Nowhere,
    }
}
