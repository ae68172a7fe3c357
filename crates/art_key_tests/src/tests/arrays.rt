//! Two keys of fixed lengths joined into one, in an array.
use art_keys::joined_array::JoinedArray;
use art_keys::laws::{DecodeBytes, FixedBytes};
use art_keys::signed::I16Key;
use art_keys::unsigned::U8Key;
use art_parts::bytes::AsBytes;
use std::test::Fail;
use test_helpers::expected::same;

type Small = JoinedArray<U8Key, I16Key, 3>;

#[test]
fn a_key_in_an_array_comes_back_from_its_bytes() -> Result<(), Fail> {
    let key: Small = JoinedArray::join(&U8Key::from(7), &I16Key::from(-2));
    let (first, second) = key.split();
    let bytes = [7, 0x7f, 0xfe];
    same(
        (
            key.as_bytes() == bytes.as_slice(),
            Small::from_fixed_bytes(&bytes) == key,
            Small::key_len(&bytes),
            (first.get(), key.second().get()),
        ),
        (true, true, 3, (7, -2)),
    )?;
    same((key.first().get(), second.get()), (7, -2))
}
