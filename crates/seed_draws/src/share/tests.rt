use super::*;
use std::test::Fail;

#[test]
fn a_word_is_split_and_joined(rt: HostRuntime) -> Result<(), Fail> {
    assert_eq!(rt;
        word_split(3, 6_148_914_691_236_517_204),
        Some((0, 6_148_914_691_236_517_204))
    );
    assert_eq!(rt; word_split(3, 6_148_914_691_236_517_205), Some((1, 0)));
    assert_eq!(rt; word_split(3, u64::MAX), None);
    assert_eq!(rt; word_join(3, 2, 6_148_914_691_236_517_204), u64::MAX - 1);
    assert_eq!(rt; word_split(1, u64::MAX), Some((0, u64::MAX)));
    assert_eq!(rt; word_split(1 << 63, u64::MAX), Some(((1 << 63) - 1, 1)));
    Ok(())
}
