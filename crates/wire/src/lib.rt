// The wire format's numbers: a token's command and type, and the refusals, each named once.
#![tactic(auto)]

pub mod limits;
pub mod tokens;
pub mod unnamed;

ghost use Rattle.std.specs.Prelude.{◌≡◌};
ghost use Rattle.wire.specs.Token.{command_in, type_in, commands, types};
ghost use Rattle.wire.specs.Refusal.{refusals};
ghost use Rattle.wire.specs.Answers.{number_of, detail_of};
ghost use Rattle.wire.specs.Commands.{command_number, IsCommand, type_number, IsType};
ghost use Rattle.wire.specs.Header.{u32_of};

use unnamed::Unnamed;

// The index that means a new name follows.
pub const INTERNED_NEW: u32 = 65535;

// What a token is, and a row: an event's kind, or an attribute of a start tag.
#[derive(Clone, Copy, Debug, PartialEq, Eq)]
pub enum Command {
    StartDocument,
    EndDocument,
    StartTag,
    EndTag,
    Text,
    Cdata,
    EntityRef,
    IgnorableWhitespace,
    ProcessingInstruction,
    Comment,
    DocDecl,
    Attribute,
    // Any other number.
    Unknown(u32),
}

impl Command {
    // The numbers, for code that compares the words of rows: as numbers, which is quicker in a loop over rows (crate forms).
    pub const START_DOCUMENT: u32 = 0;

    pub const END_DOCUMENT: u32 = 1;

    pub const START_TAG: u32 = 2;

    pub const END_TAG: u32 = 3;

    pub const TEXT: u32 = 4;

    pub const CDATA: u32 = 5;

    pub const ENTITY_REF: u32 = 6;

    pub const IGNORABLE_WHITESPACE: u32 = 7;

    pub const PROCESSING_INSTRUCTION: u32 = 8;

    pub const COMMENT: u32 = 9;

    pub const DOC_DECL: u32 = 10;

    pub const ATTRIBUTE: u32 = 15;

    // The command of a token, by a token table.
    pub fn new(table: &[u16; 256], token: u8) -> Command
        ensures number { command_number result ≡ command_in table.now token }
        ensures which { IsCommand (command_in table.now token) result }
    {
        Command::from((table[token as usize] % 256) as u32)
    }

    // The number on the wire and in a row.
    pub fn number(self) -> u32
        ensures { result ≡ command_number self }
    {
        match self {
            Command::StartDocument => Command::START_DOCUMENT,
            Command::EndDocument => Command::END_DOCUMENT,
            Command::StartTag => Command::START_TAG,
            Command::EndTag => Command::END_TAG,
            Command::Text => Command::TEXT,
            Command::Cdata => Command::CDATA,
            Command::EntityRef => Command::ENTITY_REF,
            Command::IgnorableWhitespace => Command::IGNORABLE_WHITESPACE,
            Command::ProcessingInstruction => Command::PROCESSING_INSTRUCTION,
            Command::Comment => Command::COMMENT,
            Command::DocDecl => Command::DOC_DECL,
            Command::Attribute => Command::ATTRIBUTE,
            Command::Unknown(number) => number,
        }
    }

    // All numbers, in order.
    pub fn all() -> [u32; 12]
        ensures { result ≡ commands }
    {
        [
            Command::StartDocument.number(),
            Command::EndDocument.number(),
            Command::StartTag.number(),
            Command::EndTag.number(),
            Command::Text.number(),
            Command::Cdata.number(),
            Command::EntityRef.number(),
            Command::IgnorableWhitespace.number(),
            Command::ProcessingInstruction.number(),
            Command::Comment.number(),
            Command::DocDecl.number(),
            Command::Attribute.number(),
        ]
    }
}

impl From<u32> for Command {
    ghost from_gives = { λ number it. (command_number it ≡ number) × IsCommand number it };

    fn from(number: u32) -> Command {
        match number {
            0 => Command::StartDocument,
            1 => Command::EndDocument,
            2 => Command::StartTag,
            3 => Command::EndTag,
            4 => Command::Text,
            5 => Command::Cdata,
            6 => Command::EntityRef,
            7 => Command::IgnorableWhitespace,
            8 => Command::ProcessingInstruction,
            9 => Command::Comment,
            10 => Command::DocDecl,
            15 => Command::Attribute,
            _ => Command::Unknown(number),
        }
    }
}

// How a token's value is written.
#[derive(Clone, Copy, Debug, PartialEq, Eq)]
pub enum Type {
    Null,
    String,
    StringInterned,
    BytesHex,
    BytesBase64,
    Int,
    IntHex,
    Long,
    LongHex,
    Float,
    Double,
    BooleanTrue,
    BooleanFalse,
    // Any other number.
    Unknown(u32),
}

impl Type {
    // The numbers, for code that compares the words of rows: as numbers, which is quicker in a loop over rows (crate forms).
    pub const NULL: u32 = 1;

    pub const STRING: u32 = 2;

    pub const STRING_INTERNED: u32 = 3;

    pub const BYTES_HEX: u32 = 4;

    pub const BYTES_BASE64: u32 = 5;

    pub const INT: u32 = 6;

    pub const INT_HEX: u32 = 7;

    pub const LONG: u32 = 8;

    pub const LONG_HEX: u32 = 9;

    pub const FLOAT: u32 = 10;

    pub const DOUBLE: u32 = 11;

    pub const BOOLEAN_TRUE: u32 = 12;

    pub const BOOLEAN_FALSE: u32 = 13;

    // The type of a token, by a token table.
    pub fn new(table: &[u16; 256], token: u8) -> Type
        ensures number { type_number result ≡ type_in table.now token }
        ensures which { IsType (type_in table.now token) result }
    {
        Type::from((table[token as usize] / 256 % 256) as u32)
    }

    // The number on the wire and in a row.
    pub fn number(self) -> u32
        ensures { result ≡ type_number self }
    {
        match self {
            Type::Null => Type::NULL,
            Type::String => Type::STRING,
            Type::StringInterned => Type::STRING_INTERNED,
            Type::BytesHex => Type::BYTES_HEX,
            Type::BytesBase64 => Type::BYTES_BASE64,
            Type::Int => Type::INT,
            Type::IntHex => Type::INT_HEX,
            Type::Long => Type::LONG,
            Type::LongHex => Type::LONG_HEX,
            Type::Float => Type::FLOAT,
            Type::Double => Type::DOUBLE,
            Type::BooleanTrue => Type::BOOLEAN_TRUE,
            Type::BooleanFalse => Type::BOOLEAN_FALSE,
            Type::Unknown(number) => number,
        }
    }

    // All numbers, in order.
    pub fn all() -> [u32; 13]
        ensures { result ≡ types }
    {
        [
            Type::Null.number(),
            Type::String.number(),
            Type::StringInterned.number(),
            Type::BytesHex.number(),
            Type::BytesBase64.number(),
            Type::Int.number(),
            Type::IntHex.number(),
            Type::Long.number(),
            Type::LongHex.number(),
            Type::Float.number(),
            Type::Double.number(),
            Type::BooleanTrue.number(),
            Type::BooleanFalse.number(),
        ]
    }
}

impl From<u32> for Type {
    ghost from_gives = { λ number it. (type_number it ≡ number) × IsType number it };

    fn from(number: u32) -> Type {
        match number {
            1 => Type::Null,
            2 => Type::String,
            3 => Type::StringInterned,
            4 => Type::BytesHex,
            5 => Type::BytesBase64,
            6 => Type::Int,
            7 => Type::IntHex,
            8 => Type::Long,
            9 => Type::LongHex,
            10 => Type::Float,
            11 => Type::Double,
            12 => Type::BooleanTrue,
            13 => Type::BooleanFalse,
            _ => Type::Unknown(number),
        }
    }
}

// Why a call was refused. What a variant carries is the refusal's detail; the others have 0 for it.
#[derive(Clone, Copy, Debug, PartialEq, Eq)]
pub enum Refusal {
    // The input ends inside the header.
    HeaderShort,
    // The header is other bytes: these, as a u32.
    InvalidMagic(u32),
    // The input ends inside a token, length, index or number.
    UnexpectedEof,
    // The input ends inside a string's bytes.
    StringShort,
    // The input ends inside a blob's bytes.
    BytesShort,
    // No such entry in the pool: the index.
    BadInternedIndex(u32),
    // A string that breaks RFC 3629.
    InvalidUtf8,
    // An attribute of type 0, 14 or 15: the type times 16.
    UnknownAttributeType(u32),
    // Command 11 to 14, or an attribute outside a start tag: the command.
    UnknownCommand(u32),
    // Too few whole rows for the event.
    RowsFull,
    // The pool table is too short for the new names.
    PoolFull,
    // The name store is too short for the new names' bytes.
    NamesFull,
    // An incomplete event fills the window.
    WindowFull,
    // A string or blob of over 65,535 bytes: its length.
    ValueTooLong(u32),
    // The output is too short.
    OutputFull,
    // Words that form no rows, or a span that ends outside its store.
    NotRows,
    // A lent buffer of a length that no call takes.
    BadSize,
    // A feed or finish after a finish.
    AlreadyFinished,
    // A state's count or place, or a pool span, outside its buffer.
    BadState,
    // A character outside XML 1.0's Char production.
    IllegalChar,
    // A part of a stored version is missing or unfit. This refusal and those after it no call gives yet.
    PartMissing,
    // A version above the newest, or 0.
    NoSuchVersion,
    // Too few unused blocks at the end of a store of versions, or no number left for one more.
    StoreFull,
    // An exercise of over 1,000 events.
    ExerciseTooLong,
    // The event passes its caller's limit.
    CallerLimit,
    // A token table of another length, or that breaks the tables' rule.
    BadTokenTable,
    // A sign-on record that lacks an Int, or whose panel's times fall.
    BadSignOn,
    // Times that may be over 60 seconds apart.
    BadTolerance,
    // An idle limit outside 1 to 480 minutes.
    BadIdleLimit,
    // A use that lacks an Int, or is out of range or out of order.
    BadUse,
    // Any other number and detail: a caller may ask for the words of a refusal that no call gives.
    Other(Unnamed),
}

impl Refusal {
    // The refusal of this number whose detail is 0.
    pub fn new(number: u32) -> Refusal
        ensures { (number_of result ≡ number) × (detail_of result ≡ 0) }
    {
        match number {
            1 => Refusal::HeaderShort,
            2 => Refusal::InvalidMagic(0),
            3 => Refusal::UnexpectedEof,
            4 => Refusal::StringShort,
            5 => Refusal::BytesShort,
            6 => Refusal::BadInternedIndex(0),
            7 => Refusal::InvalidUtf8,
            8 => Refusal::UnknownAttributeType(0),
            9 => Refusal::UnknownCommand(0),
            10 => Refusal::RowsFull,
            11 => Refusal::PoolFull,
            12 => Refusal::NamesFull,
            13 => Refusal::WindowFull,
            14 => Refusal::ValueTooLong(0),
            15 => Refusal::OutputFull,
            16 => Refusal::NotRows,
            17 => Refusal::BadSize,
            18 => Refusal::AlreadyFinished,
            19 => Refusal::BadState,
            20 => Refusal::IllegalChar,
            21 => Refusal::PartMissing,
            22 => Refusal::NoSuchVersion,
            23 => Refusal::StoreFull,
            24 => Refusal::ExerciseTooLong,
            25 => Refusal::CallerLimit,
            26 => Refusal::BadTokenTable,
            27 => Refusal::BadSignOn,
            28 => Refusal::BadTolerance,
            29 => Refusal::BadIdleLimit,
            30 => Refusal::BadUse,
            _ => Refusal::Other(Unnamed { number, detail: 0 }),
        }
    }

    // The refusal of this number and detail.
    pub fn of(number: u32, detail: u32) -> Refusal
        ensures { (number_of result ≡ number) × (detail_of result ≡ detail) }
    {
        match number {
            2 => Refusal::InvalidMagic(detail),
            6 => Refusal::BadInternedIndex(detail),
            8 => Refusal::UnknownAttributeType(detail),
            9 => Refusal::UnknownCommand(detail),
            14 => Refusal::ValueTooLong(detail),
            _ if detail == 0 => Refusal::new(number),
            _ => Refusal::Other(Unnamed { number, detail }),
        }
    }

    // The number by which C is told of it.
    pub fn number(self) -> u32
        ensures { result ≡ number_of self }
    {
        match self {
            Refusal::HeaderShort => 1,
            Refusal::InvalidMagic(_) => 2,
            Refusal::UnexpectedEof => 3,
            Refusal::StringShort => 4,
            Refusal::BytesShort => 5,
            Refusal::BadInternedIndex(_) => 6,
            Refusal::InvalidUtf8 => 7,
            Refusal::UnknownAttributeType(_) => 8,
            Refusal::UnknownCommand(_) => 9,
            Refusal::RowsFull => 10,
            Refusal::PoolFull => 11,
            Refusal::NamesFull => 12,
            Refusal::WindowFull => 13,
            Refusal::ValueTooLong(_) => 14,
            Refusal::OutputFull => 15,
            Refusal::NotRows => 16,
            Refusal::BadSize => 17,
            Refusal::AlreadyFinished => 18,
            Refusal::BadState => 19,
            Refusal::IllegalChar => 20,
            Refusal::PartMissing => 21,
            Refusal::NoSuchVersion => 22,
            Refusal::StoreFull => 23,
            Refusal::ExerciseTooLong => 24,
            Refusal::CallerLimit => 25,
            Refusal::BadTokenTable => 26,
            Refusal::BadSignOn => 27,
            Refusal::BadTolerance => 28,
            Refusal::BadIdleLimit => 29,
            Refusal::BadUse => 30,
            Refusal::Other(other) => other.number,
        }
    }

    // The detail, or 0.
    pub fn detail(self) -> u32
        ensures { result ≡ detail_of self }
    {
        match self {
            Refusal::InvalidMagic(found) => found,
            Refusal::BadInternedIndex(index) => index,
            Refusal::UnknownAttributeType(type_) => type_,
            Refusal::UnknownCommand(command) => command,
            Refusal::ValueTooLong(len) => len,
            Refusal::Other(other) => other.detail,
            _ => 0,
        }
    }

    // All numbers, in order.
    pub fn all() -> [u32; 30]
        ensures { result ≡ refusals }
    {
        [
            Refusal::HeaderShort.number(),
            Refusal::InvalidMagic(0).number(),
            Refusal::UnexpectedEof.number(),
            Refusal::StringShort.number(),
            Refusal::BytesShort.number(),
            Refusal::BadInternedIndex(0).number(),
            Refusal::InvalidUtf8.number(),
            Refusal::UnknownAttributeType(0).number(),
            Refusal::UnknownCommand(0).number(),
            Refusal::RowsFull.number(),
            Refusal::PoolFull.number(),
            Refusal::NamesFull.number(),
            Refusal::WindowFull.number(),
            Refusal::ValueTooLong(0).number(),
            Refusal::OutputFull.number(),
            Refusal::NotRows.number(),
            Refusal::BadSize.number(),
            Refusal::AlreadyFinished.number(),
            Refusal::BadState.number(),
            Refusal::IllegalChar.number(),
            Refusal::PartMissing.number(),
            Refusal::NoSuchVersion.number(),
            Refusal::StoreFull.number(),
            Refusal::ExerciseTooLong.number(),
            Refusal::CallerLimit.number(),
            Refusal::BadTokenTable.number(),
            Refusal::BadSignOn.number(),
            Refusal::BadTolerance.number(),
            Refusal::BadIdleLimit.number(),
            Refusal::BadUse.number(),
        ]
    }
}

// The u32 of four bytes, big-endian.
pub fn be32(a: u8, b: u8, c: u8, d: u8) -> u32
    ensures { result ≡ u32_of a b c d }
{
    u32::from_be_bytes([a, b, c, d])
}
