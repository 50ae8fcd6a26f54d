// The calls of the file (compare/RECORDED.md, 'The calls'): their numbers and their names.
ghost use Rattle.std.specs.Prelude.{◌≡◌};
ghost use Rattle.recorded_calls.specs.Calls.{call_of};

use recorded_file::error::ReplayError;
use std::fmt;

// None has the number 12, opening: the Rust has no such call.
#[derive(Clone, Copy)]
pub enum Call {
    Crc32,
    ItemCrc,
    HeaderCrc,
    Hash,
    TypeByte,
    Width,
    Load,
    RawRead,
    LoadData,
    EntryState,
    Statistics,
    HashBound,
    Initialise = 13,
    MarkFull,
    AppendSingle,
    AppendNamespace,
    AppendVariable,
    CopyIn,
    Erase,
    Purge,
    PurgeNamespace,
}

impl TryFrom<u8> for Call {
    type Error = ReplayError;

    ghost try_from_gives = { λ number r. r ≡ call_of number };

    fn try_from(number: u8) -> Result<Self, ReplayError> {
        match number {
            0 => Ok(Call::Crc32),
            1 => Ok(Call::ItemCrc),
            2 => Ok(Call::HeaderCrc),
            3 => Ok(Call::Hash),
            4 => Ok(Call::TypeByte),
            5 => Ok(Call::Width),
            6 => Ok(Call::Load),
            7 => Ok(Call::RawRead),
            8 => Ok(Call::LoadData),
            9 => Ok(Call::EntryState),
            10 => Ok(Call::Statistics),
            11 => Ok(Call::HashBound),
            13 => Ok(Call::Initialise),
            14 => Ok(Call::MarkFull),
            15 => Ok(Call::AppendSingle),
            16 => Ok(Call::AppendNamespace),
            17 => Ok(Call::AppendVariable),
            18 => Ok(Call::CopyIn),
            19 => Ok(Call::Erase),
            20 => Ok(Call::Purge),
            21 => Ok(Call::PurgeNamespace),
            _ => Err(ReplayError::NoCall),
        }
    }
}

impl fmt::Display for Call {
    fn fmt<W: fmt::Write>(&self, f: &mut fmt::Formatter<W>) -> fmt::Result {
        f.pad(match self {
            Call::Crc32 => "crc32",
            Call::ItemCrc => "item CRC",
            Call::HeaderCrc => "header CRC",
            Call::Hash => "hash",
            Call::TypeByte => "type byte",
            Call::Width => "width",
            Call::Load => "load",
            Call::RawRead => "raw read",
            Call::LoadData => "load data",
            Call::EntryState => "entry state",
            Call::Statistics => "statistics",
            Call::HashBound => "hash bound",
            Call::Initialise => "initialise",
            Call::MarkFull => "mark full",
            Call::AppendSingle => "append single",
            Call::AppendNamespace => "append namespace",
            Call::AppendVariable => "append variable",
            Call::CopyIn => "copy in",
            Call::Erase => "erase",
            Call::Purge => "purge",
            Call::PurgeNamespace => "purge by namespace",
        })
    }
}

impl Call {
    pub const ALL: [Call; 21] = [
        Call::Crc32,
        Call::ItemCrc,
        Call::HeaderCrc,
        Call::Hash,
        Call::TypeByte,
        Call::Width,
        Call::Load,
        Call::RawRead,
        Call::LoadData,
        Call::EntryState,
        Call::Statistics,
        Call::HashBound,
        Call::Initialise,
        Call::MarkFull,
        Call::AppendSingle,
        Call::AppendNamespace,
        Call::AppendVariable,
        Call::CopyIn,
        Call::Erase,
        Call::Purge,
        Call::PurgeNamespace,
    ];
}
