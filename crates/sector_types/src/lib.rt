// Item types (raw.rs `ItemType`): what a type byte decides.
#![tactic(auto)]

ghost use Rattle.std.specs.Prelude.{◌≡◌};
ghost use Rattle.sector.specs.Answers.{value_where_done};
ghost use Rattle.sector.specs.Types.{kind_of, type_byte, is_known, primitive_width};

use sector::{ItemType, Kind, Refusal};

// All that a type byte decides (`ItemType::from_repr` and `get_primitive_bytes_width` in one): the type, a
// primitive's width, and whether a payload lies after the header. A byte that is none of the thirteen is Any.
#[tactic(auto, unfolding(sector::specs::Types::kind_of, sector::specs::Types::item_type))]
pub fn kind_of(byte: u8) -> Kind
    ensures { result ≡ kind_of byte }
{
    let (named, width, payload) = match byte {
        0x01 => (ItemType::U8, 1, false),
        0x11 => (ItemType::I8, 1, false),
        0x02 => (ItemType::U16, 2, false),
        0x12 => (ItemType::I16, 2, false),
        0x04 => (ItemType::U32, 4, false),
        0x14 => (ItemType::I32, 4, false),
        0x08 => (ItemType::U64, 8, false),
        0x18 => (ItemType::I64, 8, false),
        0x21 => (ItemType::Sized, 0, true),
        0x41 => (ItemType::Blob, 0, true),
        0x42 => (ItemType::BlobData, 0, true),
        0x48 => (ItemType::BlobIndex, 0, false),
        _ => (ItemType::Any, 0, false),
    };
    Kind {
        named,
        width,
        payload,
    }
}

// A byte that is none of the thirteen becomes 0xFF (`sanitize_item_type`).
#[tactic(auto, unfolding(sector::specs::Types::kind_of, sector::specs::Types::item_type))]
pub fn type_byte(byte: u8) -> u8
    ensures { result ≡ type_byte byte }
{
    kind_of(byte).named as u8
}

// Whether a byte is one of the thirteen. The Rust does not ask: `load_item` takes any other byte as 0xFF.
pub fn is_known(byte: u8) -> bool
    ensures { result ≡ is_known byte }
{
    type_byte(byte) == byte
}

// A primitive's width: 1, 2, 4 or 8 (`ItemType::get_primitive_bytes_width`).
//
// Any other type is ItemTypeMismatch, with its byte: 0xFF for one that is none of the thirteen. The Rust is
// handed the type and not its byte.
#[tactic(auto, unfolding(sector::specs::Types::kind_of, sector::specs::Types::primitive_width))]
pub fn get_primitive_bytes_width(byte: u8) -> Result<u8, Refusal>
    ensures { result ≡ value_where_done (primitive_width byte).answer (primitive_width byte).width }
{
    let width = kind_of(byte).width;
    if width == 0 {
        return Err(Refusal::ItemTypeMismatch(type_byte(byte)));
    }
    Ok(width)
}
