// The header of a document.
#![tactic(auto, unfolding(wire::specs::Header::header, wire::specs::Header::u32_at))]

ghost use Rattle.std.specs.Prelude.{◌≡◌};
ghost use Rattle.wire.specs.Header.{header};
ghost use Rattle.header.specs.Answers.{header_of};

use wire::Refusal;

// Every document begins with these four bytes.
pub const MAGIC: [u8; 4] = [0x41, 0x42, 0x58, 0x00];

// Whether the document that input is starts as it must.
pub fn check_magic(input: &[u8]) -> Result<(), Refusal>
    ensures { header_of result ≡ header input.now }
{
    if input.len() < 4 {
        return Err(Refusal::HeaderShort);
    }
    let actual = wire::be32(input[0], input[1], input[2], input[3]);
    if actual == u32::from_be_bytes(MAGIC) {
        Ok(())
    } else {
        Err(Refusal::InvalidMagic(actual))
    }
}
