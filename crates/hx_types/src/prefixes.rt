//! The first bytes of a text, by which texts are compared first.

ghost use Rattle.std.specs.Prelude.{◌≡◌};
ghost use Rattle.hx_types.specs.Prefixes.{IsPrefixOf, prefix_of};

/// The first eight bytes of a text as a number, the first of them highest, with zeros behind a text
/// that is shorter. Of a lower number the text is lower too, in byte order; of the same it can be
/// either. Where many texts are compared such numbers spare most looks at the texts themselves;
/// that is this project's choice.
#[inline]
pub fn prefix_of(text: &str) -> u64
    ensures { IsPrefixOf text.now result }
{
    let bytes = text.as_bytes();
    match bytes.first_chunk::<8>() {
        Some(front) => u64::from_be_bytes(*front),
        None => prefix_by_bytes(bytes),
    }
}

/// The first eight bytes as a number, taken one after another.
fn prefix_by_bytes(bytes: &[u8]) -> u64
    ensures { result ≡ prefix_of bytes.now }
{
    let mut prefix = 0;
    for place in 0..8 {
        let byte = match bytes.get(place) {
            Some(byte) => *byte,
            None => 0,
        };
        prefix = prefix * 256 + byte as u64;
    }
    prefix
}
