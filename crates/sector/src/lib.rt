// The sector's layout (raw.rs): its sizes and offsets, its types, what a call answers, and bytes at offsets.
//
// The definitions of all of it are in specs/. The functions of the header, of the map, of the item types and of items are
// the crates `sector_header`, `sector_map`, `sector_types`, `sector_item` and `sector_hash`.
#![tactic(auto)]

pub mod answers;
pub mod bytes;
pub mod counts;
pub mod layout;
pub mod states;

pub const SECTOR_SIZE: usize = 4096;

pub const ENTRIES_PER_PAGE: usize = 126;

// An item's header is an entry of this size, and so is a page's header.
pub const ENTRY_SIZE: usize = 32;

// The map's first byte.
pub const MAP_OFFSET: usize = 32;

// The first byte of entry 0.
pub const ITEMS_OFFSET: usize = 64;

// The version byte of a page that this port initialises.
pub const VERSION: u8 = 0xFE;

// The value that every CRC of a page starts from.
pub const CRC_START: u32 = 0xFFFFFFFF;

// The states' words. They are constants and no discriminants of `PageState`, since a `match` takes no cast as a pattern.
pub const PAGE_STATE_UNINITIALIZED: u32 = 0xFFFFFFFF;

pub const PAGE_STATE_ACTIVE: u32 = 0xFFFFFFFE;

pub const PAGE_STATE_FULL: u32 = 0xFFFFFFFC;

pub const PAGE_STATE_FREEING: u32 = 0xFFFFFFF8;

pub const PAGE_STATE_INVALID: u32 = 0;

// What a page is for; Corrupt also for any word that is none of these.
#[derive(Clone, Copy, PartialEq, Eq)]
pub enum PageState {
    Uninitialized,
    Active,
    Full,
    Freeing,
    Corrupt,
    Invalid,
}

// What an entry is in the map, each with its two bits.
#[derive(Clone, Copy, PartialEq, Eq)]
pub enum EntryMapState {
    Empty = 0b11,
    Written = 0b10,
    Erased = 0b00,
    Illegal = 0b01,
}

// The thirteen types, each with its byte. Any also stands for a byte that is none of them.
#[derive(Clone, Copy, PartialEq, Eq)]
pub enum ItemType {
    U8 = 0x01,
    I8 = 0x11,
    U16 = 0x02,
    I16 = 0x12,
    U32 = 0x04,
    I32 = 0x14,
    U64 = 0x08,
    I64 = 0x18,
    Sized = 0x21,
    Blob = 0x41,
    BlobData = 0x42,
    BlobIndex = 0x48,
    Any = 0xFF,
}

// What a type byte decides: the type that it names, a primitive's width, and whether a payload lies after the
// item's header. The width of other types is 0 and no `None`: `width_of` and `kind_of` of specs/ have it so.
#[derive(Clone, Copy, PartialEq, Eq)]
pub struct Kind {
    pub named: ItemType,
    pub width: u8,
    pub payload: bool,
}

// Why a call refuses, or that it was told to stop: `refusal_number` of specs/ has document 01's numbers.
#[derive(Clone, Copy, PartialEq, Eq)]
pub enum Refusal {
    // The image is not 4,096 bytes.
    BadImage,
    // The record is not fit to use.
    BadRecord,
    // The page's state does not allow the call.
    WrongState,
    // The type is not one of the call's, a single's span is not 1, or a variable item is in namespace 0.
    BadRequest,
    // The span is over 126.
    ValueTooLong,
    // The span is over the free entries.
    PageFull,
    // The entry is all 0xFF, or its CRC is wrong.
    KeyNotFound,
    // Data or width was asked of another type; with the type byte, 0xFF for one that is none of the thirteen.
    ItemTypeMismatch(u8),
    // An index, a span, a size or an image that cannot be.
    CorruptedData,
    // Erasing names an entry that is not Written in the record.
    NotWritten,
    // The call was told to stop before its last unit, and did.
    Stopped,
}

// How many of the 126 entries are in each state.
#[derive(Clone, Copy, PartialEq, Eq)]
pub struct Statistics {
    pub empty: u32,
    pub written: u32,
    pub erased: u32,
    pub illegal: u32,
}
