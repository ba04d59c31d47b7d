// Little-endian numbers in lent bytes of any number and content.
#![tactic(auto)]

mod numbers;

ghost use Rattle.std.specs.Prelude.{◌≡◌};
ghost use Rattle.endian.specs.Bytes.{field, put_field};

pub use numbers::Number;

// The number at a place; bytes behind the end are 0.
pub fn at<N: Number>(bytes: &[u8], place: usize) -> N
    ensures { N.number result ≡ field place N.WIDTH bytes.now }
{
    match bytes.get(place..) {
        Some(rest) => N::read(rest),
        None => N::read(&[]),
    }
}

// A number put at a place; one that would reach past the end is not written.
pub fn put<N: Number>(bytes: &mut [u8], place: usize, value: N)
    ensures { bytes.new ≡ put_field place N.WIDTH (N.number value) bytes.old }
{
    if place <= bytes.len() {
        value.write(&mut bytes[place..]);
    }
}
