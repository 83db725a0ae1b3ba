//! Why a call is refused: its code, and the two numbers that it names.
ghost use Rattle.std.specs.Prelude.{◌≡◌, ◌≢◌, ◌≤◌};
ghost use Rattle.octofix.specs.Codes.{field_number, in_64_bits};
ghost use Rattle.octofix.specs.Codes.{file_code, file_details, map_code, map_details};
ghost use Rattle.octofix.specs.Codes.{refusal_at, refusal_code, refusal_details, word_number};
ghost use Rattle.octofix.specs.Codes.{details, no_details};
ghost use Rattle.octofix.specs.declared.refusal.Refusal.TheVariants as refusal;
ghost use Rattle.oct_map.specs.declared.fault.MapFault.TheVariants as fault;

use crate::types::Details;
use oct_bt::{BtFault, HeaderWord};
use oct_key::BadResolution;
use oct_map::MapFault;
use oct_num::Memory;
use oct_odds::{BadModel, OddsField};
use oct_pose::ZeroQuaternion;

/// All was done.
pub const DONE: u32 = 0;

/// The handle has no map.
pub const CLOSED: u32 = 40;

/// The handle has a map already.
pub const OPEN: u32 = 41;

/// Nothing is known of what was asked for.
pub const UNKNOWN: u32 = 42;

/// No voxel stops the cast.
pub const CLEAR: u32 = 43;

/// There is nothing of what was asked for.
pub const NONE: u32 = 44;

/// Memory ran out.
pub const MEMORY: u32 = 45;

/// The buffer is too small.
pub const SMALL_BUFFER: u32 = 46;

/// A number that was passed is out of its range.
pub const BAD_ARGUMENT: u32 = 47;

/// The log-odds of the two maps aren't the same.
pub const OTHER_ODDS: u32 = 48;

/// Why a call is refused.
#[derive(Clone, Copy, Debug, PartialEq, Eq)]
pub enum Refusal {
    /// The handle has no map.
    Closed,
    /// The handle has a map already.
    Open,
    /// A number that was passed is out of its range; in an array, that of this index.
    BadArgument { index: u64 },
    /// The edge of a voxel isn't from 0.1 mm to 100 m.
    BadResolution,
    /// This one of the log-odds is out of its range.
    BadModel { which: OddsField },
    /// The quaternion of a pose is 0.
    ZeroQuaternion,
    /// The log-odds of the two maps aren't the same.
    OtherOdds,
    /// A grid has more than 2^26 columns.
    WideGrid { count: u64 },
    /// The map refuses the call.
    Map(MapFault),
    /// The bytes aren't a file of a map.
    File(BtFault),
}

impl From<MapFault> for Refusal {
    ghost from_gives = { λ fault e. e ≡ refusal.Map fault };

    fn from(fault: MapFault) -> Self {
        Refusal::Map(fault)
    }
}

impl From<Memory> for Refusal {
    ghost from_gives = { λ _ e. e ≡ refusal.Map fault.Memory };

    fn from(_: Memory) -> Self {
        Refusal::Map(MapFault::Memory)
    }
}

impl From<BadResolution> for Refusal {
    ghost from_gives = { λ _ e. e ≡ refusal.BadResolution };

    fn from(_: BadResolution) -> Self {
        Refusal::BadResolution
    }
}

impl From<BadModel> for Refusal {
    ghost from_gives = { λ bad e. e ≡ refusal.BadModel bad.which };

    fn from(bad: BadModel) -> Self {
        Refusal::BadModel { which: bad.which }
    }
}

impl From<ZeroQuaternion> for Refusal {
    ghost from_gives = { λ _ e. e ≡ refusal.ZeroQuaternion };

    fn from(_: ZeroQuaternion) -> Self {
        Refusal::ZeroQuaternion
    }
}

impl Refusal {
    /// Its number.
    pub fn code(self) -> u32
        ensures code { result ≡ refusal_code self }
        ensures refused { result ≢ DONE }
        ensures small { result ≤ 48 }
    {
        match self {
            Refusal::Closed => CLOSED,
            Refusal::Open => OPEN,
            Refusal::BadArgument { .. } => BAD_ARGUMENT,
            Refusal::BadResolution => 3,
            Refusal::BadModel { .. } => 4,
            Refusal::ZeroQuaternion => 5,
            Refusal::OtherOdds => OTHER_ODDS,
            Refusal::WideGrid { .. } => 38,
            Refusal::Map(fault) => map_code(fault),
            Refusal::File(fault) => file_code(fault),
        }
    }

    /// The same, of the element of an array that has this index.
    pub fn at(self, index: usize) -> Refusal
        ensures { result ≡ refusal_at index self }
    {
        match self {
            Refusal::BadArgument { .. } => Refusal::BadArgument {
                index: index as u64,
            },
            _ => self,
        }
    }

    /// Tells what it names, and answers its number.
    pub fn tell(self, details: &mut Details) -> u32
        ensures code { result ≡ refusal_code self }
        ensures details { details.new ≡ refusal_details self }
    {
        *details = self.details();
        self.code()
    }

    /// What it names.
    pub fn details(self) -> Details
        ensures { result ≡ refusal_details self }
    {
        match self {
            Refusal::BadArgument { index } => Details::one(index),
            Refusal::BadModel { which } => Details::one(field_number(which)),
            Refusal::WideGrid { count } => Details::one(count),
            Refusal::Map(fault) => map_details(fault),
            Refusal::File(fault) => file_details(fault),
            _ => Details::none(),
        }
    }
}

impl Details {
    /// Nothing.
    pub fn none() -> Details
        ensures { result ≡ no_details }
    {
        Details::two(0, 0)
    }

    /// One number.
    fn one(first: u64) -> Details
        ensures { result ≡ details first 0 }
    {
        Details::two(first, 0)
    }

    /// Two numbers.
    fn two(first: u64, second: u64) -> Details
        ensures { result ≡ details first second }
    {
        Details { first, second }
    }
}

/// The code of a refusal of the map.
fn map_code(fault: MapFault) -> u32
    ensures code { result ≡ map_code fault }
    ensures refused { result ≢ DONE }
    ensures small { result ≤ 48 }
{
    match fault {
        MapFault::OriginOutside => 6,
        MapFault::PointOutside { .. } => 7,
        MapFault::TooManyCells { .. } => 8,
        MapFault::TooManyBlocks { .. } => 9,
        MapFault::Truncated { .. } => 17,
        MapFault::TrailingBytes { .. } => 18,
        MapFault::BadMagic => 20,
        MapFault::BadSnapshot { .. } => 21,
        MapFault::Stale => 22,
        MapFault::Full { .. } => 23,
        MapFault::Outside { .. } => 24,
        MapFault::BadDepth => 25,
        MapFault::BadBox => 26,
        MapFault::WideWhileTracked { .. } => 27,
        MapFault::NotTracked => 28,
        MapFault::OtherResolution { .. } => 35,
        MapFault::Memory => MEMORY,
    }
}

/// What a refusal of the map names.
fn map_details(fault: MapFault) -> Details
    ensures { result ≡ map_details fault }
{
    match fault {
        MapFault::PointOutside { index } => Details::one(index),
        MapFault::TooManyCells { index, cells } => Details::two(index, cells),
        MapFault::TooManyBlocks { count } => Details::one(count),
        MapFault::Truncated { at } => Details::one(at),
        MapFault::TrailingBytes { at } => Details::one(at),
        MapFault::BadSnapshot { at } => Details::one(at),
        MapFault::Full { groups, need } => Details::two(groups, in_64_bits(need)),
        MapFault::Outside { point } => Details::one(u64::from(point)),
        MapFault::WideWhileTracked { count } => Details::one(count),
        MapFault::OtherResolution { file, session } => {
            Details::two(file.unsigned_abs(), session.unsigned_abs())
        }
        _ => Details::none(),
    }
}

/// The number, or the greatest one of 64 bits where it is greater.
fn in_64_bits(number: u128) -> u64
    ensures { result ≡ in_64_bits number }
{
    u64::try_from(number).unwrap_or(u64::MAX)
}

/// The code of what is wrong with a file.
fn file_code(fault: BtFault) -> u32
    ensures code { result ≡ file_code fault }
    ensures refused { result ≢ DONE }
    ensures small { result ≤ 48 }
{
    match fault {
        BtFault::NotOctomap => 10,
        BtFault::FloatTree => 11,
        BtFault::WrongId => 12,
        BtFault::MissingField { .. } => 13,
        BtFault::BadField { .. } => 14,
        BtFault::HeaderTooLong => 15,
        BtFault::TooDeep { .. } => 16,
        BtFault::Truncated { .. } => 17,
        BtFault::TrailingBytes { .. } => 18,
        BtFault::SizeMismatch { .. } => 19,
        BtFault::Memory => MEMORY,
    }
}

/// What the fault of a file names.
fn file_details(fault: BtFault) -> Details
    ensures { result ≡ file_details fault }
{
    match fault {
        BtFault::MissingField { word } | BtFault::BadField { word } => {
            Details::one(word_number(word))
        }
        BtFault::TooDeep { at } | BtFault::Truncated { at } | BtFault::TrailingBytes { at } => {
            Details::one(at)
        }
        BtFault::SizeMismatch { said, found } => Details::two(said, found),
        _ => Details::none(),
    }
}

/// The number of a field of the log-odds.
fn field_number(field: OddsField) -> u64
    ensures { result ≡ field_number field }
{
    match field {
        OddsField::Hit => 0,
        OddsField::Miss => 1,
        OddsField::Min => 2,
        OddsField::Max => 3,
        OddsField::Thr => 4,
    }
}

/// The number of a word of a header.
fn word_number(word: HeaderWord) -> u64
    ensures { result ≡ word_number word }
{
    match word {
        HeaderWord::Id => 0,
        HeaderWord::Res => 1,
        HeaderWord::Size => 2,
        HeaderWord::Data => 3,
    }
}
